//! Objects of the outside whose calls an observer is told of.

ghost use Rattle.std.specs.Prelude.{◌≡◌};

use zre_outside::{Act, Command, NextFault, Recorder, Sink, Start, Turn, World};
use zre_values::{OutOfMemory, take_apart};

/// What is told of the calls on an object of the outside.
pub trait Observer {
    /// A recorder is about to begin under this name.
    fn begins(&mut self, _name: &str) {}

    /// A sink wrote these octets.
    fn wrote(&mut self, _octets: &[u8]) {}

    /// A call was refused, or a sink was told, by a write of no octets, that there is nothing more to write.
    fn ended(&mut self) {}
}

/// A sink, a recorder or a world that does what the one under it does, and tells an observer. A write of no octets is
/// told to the observer alone.
pub struct Observed<T, O> {
    inner: T,
    observer: O,
}

impl<T: Drop, O: Drop> Drop for Observed<T, O> {
    fn drop(self) {
        take_apart!(self, Observed: inner, observer);
    }
}

impl<T, O> Observed<T, O> {
    ghost use Rattle.zre_fabric.specs.Observers.{under, observer_of};

    /// One that does what this one does, and tells this observer.
    pub fn new(inner: T, observer: O) -> Self
        ensures under { under result ≡ inner }
        ensures observer { observer_of result ≡ observer }
    {
        Observed { inner, observer }
    }

    /// What it stands on.
    pub fn inner(&self) -> &T
        ensures { result.now ≡ under self.now }
    {
        &self.inner
    }

    /// What it tells.
    pub fn observer(&self) -> &O
        ensures { result.now ≡ observer_of self.now }
    {
        &self.observer
    }
}

// What was answered, which an observer is told of where it is a refusal.
fn told<O: Observer, T, E>(observer: &mut O, answer: Result<T, E>) -> Result<T, E>
    ensures { result ≡ answer }
{
    if answer.is_err() {
        observer.ended();
    }
    answer
}

impl<T: Sink, O: Observer> Sink for Observed<T, O> {
    ghost written = { λ s. T.written s.inner };

    ghost faults = { λ s. T.faults s.inner };

    ghost refused = { λ s. T.refused s.inner };

    fn write(&mut self, bytes: &[u8]) -> Result<usize, NextFault> {
        if bytes.is_empty() {
            self.observer.ended();
            return Ok(0);
        }
        let n = told(&mut self.observer, self.inner.write(bytes))?;
        self.observer.wrote(&bytes[..n]);
        Ok(n)
    }
}

impl<T: Recorder, O: Observer> Recorder for Observed<T, O> {
    ghost kept = { λ r. T.kept r.inner };

    ghost named = { λ r. T.named r.inner };

    ghost begun = { λ r. T.begun r.inner };

    ghost faults = { λ r. T.faults r.inner };

    ghost refused = { λ r. T.refused r.inner };

    fn begin(&mut self, name: &str) -> Result<(), NextFault> {
        self.observer.begins(name);
        told(&mut self.observer, self.inner.begin(name))
    }

    fn put(&mut self, bytes: &[u8]) -> Result<(), NextFault> {
        told(&mut self.observer, self.inner.put(bytes))
    }
}

impl<T: World, O: Observer> World for Observed<T, O> {
    ghost told = { λ w. T.told w.inner };

    ghost looked = { λ w. T.looked w.inner };

    ghost faults = { λ w. T.faults w.inner };

    ghost refused = { λ w. T.refused w.inner };

    fn start(&mut self, s: &Start) -> Result<(), NextFault> {
        told(&mut self.observer, self.inner.start(s))
    }

    fn next(&mut self, command: Option<Command>) -> Result<Turn, NextFault> {
        told(&mut self.observer, self.inner.next(command))
    }

    fn act(&mut self, act: &Act) -> Result<(), OutOfMemory> {
        told(&mut self.observer, self.inner.act(act))
    }

    fn offer(&mut self, link: u64, bytes: &[u8]) -> Result<(), OutOfMemory> {
        told(&mut self.observer, self.inner.offer(link, bytes))
    }
}

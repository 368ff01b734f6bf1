//! A source that waits for its input and for an alarm at the same time.

ghost use Rattle.std.specs.Prelude.{◌≡◌, ◌≤◌, ◌<◌, None, true, false, length, take, IfOk, OnErr, Ok};
ghost use Rattle.std.specs.Io.{ReadsAtMost};
ghost use Rattle.std.specs.Io.KnownBytes.{Keeps, IsAtEnd};
ghost use Rattle.zre_outside.specs.Causes.{Rose};
ghost use Rattle.zre_outside.specs.Told.{MovesOn};

use crate::alarm::Alarm;
use crate::errors::once_ready;
use mio::unix::SourceFd;
use mio::{Events, Interest, Poll, Token};
use std::alloc::Global;
use std::io;
use std::net::Net;
use std::os::fd::RawFd;
use zre_outside::{Failed, Source};
use zre_values::take_apart;

const RAISED: Token = Token(0);

const INPUT: Token = Token(1);

/// What is waited for.
struct Watch {
    poll: Poll,
    events: Events<Global>,
    input: RawFd,
    alarm: Alarm,
}

impl Drop for Watch {
    fn drop(self) {
        take_apart!(self, Watch: poll, events, input, alarm);
    }
}

/// A source that is at its end once an alarm was raised. It tells nothing of what it gave, since it may end before the
/// one under it does.
pub struct Heeding<S> {
    inner: S,
    watch: Option<Watch>,
    is_over: bool,
}

impl<S: Drop> Drop for Heeding<S> {
    fn drop(self) {
        take_apart!(self, Heeding: inner, watch, is_over);
    }
}

impl<S> Heeding<S> {
    ghost use Rattle.zre_fabric.specs.Alarms.{heeding_under, is_over};

    /// A source that heeds no alarm.
    pub fn deaf(inner: S) -> Self
        ensures under { heeding_under result ≡ inner }
        ensures going { is_over result ≡ false }
    {
        Heeding {
            inner,
            watch: None,
            is_over: false,
        }
    }

    /// A source that reads this descriptor, and heeds the alarm. A file isn't waited for: its reads wait for nobody.
    /// Where the alarm is silent, or the system has no place to wait at, it heeds none.
    pub fn new<R: Net>(rt: &R, alloc: Global, inner: S, input: RawFd, alarm: Alarm) -> Self
        ensures under { heeding_under result ≡ inner }
        ensures going { is_over result ≡ false }
    {
        let watch = match waiting_for(rt, alloc, input, alarm) {
            Ok(watch) => Some(watch),
            Err(_) => None,
        };
        Heeding {
            inner,
            watch,
            is_over: false,
        }
    }

    /// What it reads from.
    pub fn inner(&self) -> &S
        ensures { result.now ≡ heeding_under self.now }
    {
        &self.inner
    }

    // Waits until there is something to read, or the alarm is raised. True where it is.
    fn wait(&mut self) -> bool
        ensures under { heeding_under self.new ≡ heeding_under self.old }
        ensures over { is_over self.new ≡ result }
        ensures stays { is_over self.old ≡ true → result ≡ true }
    {
        if !self.is_over {
            self.is_over = match &mut self.watch {
                Some(watch) => watch.is_raised(),
                None => false,
            };
        }
        self.is_over
    }
}

fn waiting_for<R: Net>(rt: &R, alloc: Global, input: RawFd, alarm: Alarm) -> io::Result<Watch> {
    let Some(raised) = alarm.descriptor() else {
        drop(alarm);
        return Err(io::Error::from(io::ErrorKind::Unsupported));
    };
    let poll = Poll::new(rt)?;
    let Ok(events) = Events::with_capacity(alloc, 2) else {
        drop(poll);
        drop(alarm);
        return Err(io::Error::from(io::ErrorKind::OutOfMemory));
    };
    let watch = Watch {
        poll,
        events,
        input,
        alarm,
    };
    let registered = watch.register(raised);
    once_ready(watch, registered)
}

impl Watch {
    fn register(&self, raised: RawFd) -> io::Result<()> {
        let registry = self.poll.registry();
        registry.register(&mut SourceFd(&raised), RAISED, Interest::READABLE)?;
        registry.register(&mut SourceFd(&self.input), INPUT, Interest::READABLE)
    }

    // A poll tells of a change, so that it is asked anew before each wait. Where it fails, the read waits.
    fn is_raised(&mut self) -> bool {
        let registry = self.poll.registry();
        let asked = registry.reregister(&mut SourceFd(&self.input), INPUT, Interest::READABLE);
        if asked.is_err() {
            return false;
        }
        for _ in 0..u64::MAX {
            if self.poll.poll(&mut self.events, None).is_err() {
                return false;
            }
            let mut has_input = false;
            for event in &self.events {
                if event.token() == RAISED {
                    return true;
                }
                has_input = true;
            }
            if has_input {
                return false;
            }
        }
        false
    }
}

impl<S: Source> Source for Heeding<S> {
    ghost use Rattle.zre_fabric.specs.Alarms.{heeding_under, is_over};

    ghost left = { λ _. None };

    ghost taken = { λ _. None };

    ghost faults = { λ s. S.faults s.inner };

    /// Reads what the source under it gives, or nothing once the alarm was raised.
    fn read(&mut self, buf: &mut [u8]) -> Result<usize, Failed>
        requires { 0 < length buf.old }
        ensures bound { ReadsAtMost result buf.new }
        ensures moved { IfOk result (λ n. MovesOn None None None None (take n buf.new)) }
        ensures end { IfOk result (λ n. n ≡ 0 → IsAtEnd None) }
        ensures refused_left { OnErr result (Keeps None None) }
        ensures refused_taken { OnErr result (Keeps None None) }
        ensures later { S.faults (heeding_under self.old) ≤ S.faults (heeding_under self.new) }
        ensures failed { OnErr result (Rose (S.faults (heeding_under self.old)) (S.faults (heeding_under self.new))) }
        // Once it is over it gives nothing any more, and asks the one under it no more.
        ensures stays { is_over self.old ≡ true → is_over self.new ≡ true }
        ensures over { is_over self.new ≡ true → (result ≡ Ok 0) × (heeding_under self.new ≡ heeding_under self.old) }
        // Until then it gives what the one under it gives.
        ensures given { is_over self.new ≡ false → IfOk result (λ n. MovesOn
            (S.left (heeding_under self.old)) (S.left (heeding_under self.new))
            (S.taken (heeding_under self.old)) (S.taken (heeding_under self.new)) (take n buf.new)) }
        ensures ended { is_over self.new ≡ false → IfOk result (λ n. n ≡ 0 → IsAtEnd
            (S.left (heeding_under self.new))) }
        ensures unchanged { OnErr result (Keeps (S.left (heeding_under self.old)) (S.left (heeding_under self.new))
            × Keeps (S.taken (heeding_under self.old)) (S.taken (heeding_under self.new))) }
    {
        if self.wait() {
            return Ok(0);
        }
        self.inner.read(buf)
    }
}

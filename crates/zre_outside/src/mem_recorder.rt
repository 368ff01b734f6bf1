ghost use Rattle.std.specs.Prelude.{◌≡◌, ◌≤◌, false, true, Some, [], option_map, is_ok, OnOk, OnErr, IsErrOf};
ghost use Rattle.std.specs.Io.KnownBytes.{Keeps, Appends};
ghost use Rattle.zre_outside.specs.Calls.{no_calls, called, next_is_listed};
ghost use Rattle.zre_outside.specs.Causes.{Rose, counted, is_failed};
ghost use Rattle.zre_outside.specs.Recorders.{FailingCapture};
ghost use Rattle.zre_outside.specs.Refusals.{refused_after};
ghost use Rattle.zre_outside.specs.Told.{AppendsFront};

use crate::calls::Calls;
use crate::{NextFault, Recorder};
use std::alloc::Global;
use std::marker::Model;
use std::mem;
use zre_values::{Octets, take_apart};

/// A capture in memory. The calls of `begin` and of `put` with the numbers of two lists fail, counted from 1.
#[derive(Debug)]
pub struct MemRecorder {
    alloc: Global,
    bytes: Octets,
    file: Octets,
    begun: bool,
    begins: Calls,
    puts: Calls,
    faults: u64,
}

impl Drop for MemRecorder {
    fn drop(self) {
        take_apart!(self, MemRecorder: alloc, bytes, file, begun, begins, puts, faults);
    }
}

impl Model for MemRecorder {
    ghost Value = { FailingCapture };

    ghost view = { λ r. record {
      capture = record { kept = r.bytes; named = r.file; begun = r.begun };
      begins = r.begins;
      puts = r.puts;
      faults = r.faults;
    } };
}

impl MemRecorder {
    /// A recorder that isn't begun.
    pub fn new(alloc: Global, begin_fails: Vec<u64>, put_fails: Vec<u64>) -> Self
        ensures capture { result.capture ≡ record { kept = []; named = []; begun = false } }
        ensures calls { (result.begins ≡ no_calls begin_fails.items) × (result.puts ≡ no_calls put_fails.items) }
        ensures faults { result.faults ≡ 0 }
    {
        MemRecorder {
            alloc,
            bytes: Octets::new(alloc),
            file: Octets::new(alloc),
            begun: false,
            begins: Calls::new(begin_fails),
            puts: Calls::new(put_fails),
            faults: 0,
        }
    }

    /// All that it keeps.
    pub fn kept(&self) -> &[u8]
        ensures { result.now ≡ self.now.capture.kept }
    {
        self.bytes.as_slice()
    }
}

impl Recorder for MemRecorder {
    ghost kept = { λ r. Some r.capture.kept };

    ghost named = { λ r. Some r.capture.named };

    ghost begun = { λ r. r.capture.begun };

    ghost faults = { λ r. r.faults };

    ghost refused = { λ r. Some r.faults };

    /// The calls whose numbers are listed fail, and no others.
    fn begin(&mut self, name: &str) -> Result<(), NextFault>
        // What is begun.
        ensures begun { self.new.capture.begun ≡ is_ok result }
        ensures emptied { OnOk result (Some self.new.capture.kept ≡ option_map (λ _. []) (Some self.old.capture.kept)) }
        ensures named { OnOk result (Some self.new.capture.named
            ≡ option_map (λ _. name.now) (Some self.old.capture.named)) }
        // A recorder that fails.
        ensures refused { OnErr result (Keeps (Some self.old.capture.kept) (Some self.new.capture.kept)
            × Keeps (Some self.old.capture.named) (Some self.new.capture.named)) }
        // Which counts of faults rise.
        ensures later { self.old.faults ≤ self.new.faults }
        ensures failed { IsErrOf result NextFault.Failed → Rose self.old.faults self.new.faults }
        ensures counts { Some self.new.faults ≡ refused_after (is_failed result) (Some self.old.faults) }
        ensures counted { self.new.faults ≡ counted (is_failed result) self.old.faults }
        // The calls that it lists.
        ensures listed { is_failed result ≡ next_is_listed self.old.begins }
        ensures calls { (self.new.begins ≡ called self.old.begins) × (self.new.puts ≡ self.old.puts) }
    {
        self.begun = false;
        if self.begins.next_fails() {
            self.faults = self.faults.saturating_add(1);
            return Err(NextFault::Failed);
        }
        let file = Octets::copy(self.alloc, name.as_bytes())?;
        drop(mem::replace(&mut self.file, file));
        self.bytes.clear();
        self.begun = true;
        Ok(())
    }

    /// It takes all octets or none. The calls whose numbers are listed fail, and no others.
    fn put(&mut self, bytes: &[u8]) -> Result<(), NextFault>
        requires { self.old.capture.begun ≡ true }
        // What is kept.
        ensures recorded { OnOk result (Appends (Some self.old.capture.kept) (Some self.new.capture.kept) bytes.now) }
        ensures front { AppendsFront (Some self.old.capture.kept) (Some self.new.capture.kept) bytes.now }
        // What stays as it was.
        ensures named { Keeps (Some self.old.capture.named) (Some self.new.capture.named) }
        ensures begun { self.new.capture.begun ≡ self.old.capture.begun }
        // Which counts of faults rise.
        ensures later { self.old.faults ≤ self.new.faults }
        ensures failed { IsErrOf result NextFault.Failed → Rose self.old.faults self.new.faults }
        ensures counts { Some self.new.faults ≡ refused_after (is_failed result) (Some self.old.faults) }
        ensures counted { self.new.faults ≡ counted (is_failed result) self.old.faults }
        // A recorder that fails.
        ensures refused { OnErr result (Keeps (Some self.old.capture.kept) (Some self.new.capture.kept)) }
        // The calls that it lists.
        ensures listed { is_failed result ≡ next_is_listed self.old.puts }
        ensures calls { (self.new.puts ≡ called self.old.puts) × (self.new.begins ≡ self.old.begins) }
    {
        if self.puts.next_fails() {
            self.faults = self.faults.saturating_add(1);
            return Err(NextFault::Failed);
        }
        Ok(self.bytes.append(bytes)?)
    }
}

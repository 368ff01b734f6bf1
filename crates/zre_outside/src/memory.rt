ghost use Rattle.std.specs.Prelude.{◌≡◌, ◌≤◌, ◌<◌, length, take, option_map, is_err, IfOk, OnErr, IsErrOf, Some, []};
ghost use Rattle.std.specs.Io.{ReadsAtMost, WritesAtMost};
ghost use Rattle.std.specs.Io.KnownBytes.{Keeps, Appends, IsAtEnd};
ghost use Rattle.zre_outside.specs.Causes.{Rose, is_failed, counted};
ghost use Rattle.zre_outside.specs.Told.{MovesOn};
ghost use Rattle.zre_outside.specs.Held.{reading_of};
ghost use Rattle.zre_outside.specs.Memory.{FailingReading, FailingWriting, refusals_in};
ghost use Rattle.zre_outside.specs.Refusals.{after_read, refused_after};
ghost use Rattle.zre_outside.specs.Calls.{no_calls, called, next_is_listed};

use crate::calls::Calls;
use crate::held::Held;
use crate::{Failed, NextFault, Sink, Source};
use std::alloc::Global;
use std::marker::Model;
use zre_values::{Octets, take_apart};

/// Octets in memory, read in order. The calls of `read` with the numbers of a list fail, counted from 1.
#[derive(Debug)]
pub struct MemSource {
    held: Held,
    reads: Calls,
    faults: u64,
}

impl Drop for MemSource {
    fn drop(self) {
        take_apart!(self, MemSource: held, reads, faults);
    }
}

impl Model for MemSource {
    ghost Value = { FailingReading };

    ghost view = { λ s. record { octets = reading_of s.held; reads = s.reads; faults = s.faults } };
}

impl MemSource {
    /// A source of which nothing was read.
    pub fn new(left: Octets, read_fails: Vec<u64>) -> Self
        ensures octets { result.octets ≡ record { left = left; taken = [] } }
        ensures reads { result.reads ≡ no_calls read_fails.items }
        ensures faults { result.faults ≡ 0 }
    {
        MemSource {
            held: Held::new(left),
            reads: Calls::new(read_fails),
            faults: 0,
        }
    }
}

impl Source for MemSource {
    ghost left = { λ s. Some s.octets.left };

    ghost taken = { λ s. Some s.octets.taken };

    ghost faults = { λ s. s.faults };

    ghost refused = { λ s. Some (refusals_in s) };

    /// It gives as many octets as there are and as fit.
    fn read(&mut self, buf: &mut [u8]) -> Result<usize, Failed>
        requires { 0 < length buf.old }
        ensures bound { ReadsAtMost result buf.new }
        ensures moved { IfOk result (λ n. MovesOn (Some self.old.octets.left) (Some self.new.octets.left)
            (Some self.old.octets.taken) (Some self.new.octets.taken) (take n buf.new)) }
        ensures end { IfOk result (λ n. n ≡ 0 → IsAtEnd (Some self.new.octets.left)) }
        ensures refused_left { OnErr result (Keeps (Some self.old.octets.left) (Some self.new.octets.left)) }
        ensures refused_taken { OnErr result (Keeps (Some self.old.octets.taken) (Some self.new.octets.taken)) }
        ensures later { self.old.faults ≤ self.new.faults }
        ensures failed { OnErr result (Rose self.old.faults self.new.faults) }
        ensures counts { Some (refusals_in self.new)
            ≡ option_map (after_read (is_err result)) (Some (refusals_in self.old)) }
        ensures counted { self.new.faults ≡ counted (is_err result) self.old.faults }
        // The calls whose numbers are listed fail, and no others.
        ensures listed { is_err result ≡ next_is_listed self.old.reads }
        ensures calls { self.new.reads ≡ called self.old.reads }
    {
        if self.reads.next_fails() {
            self.faults = self.faults.saturating_add(1);
            return Err(Failed);
        }
        Ok(self.held.give(buf))
    }
}

/// Octets in memory, written in order. The calls of `write` with the numbers of a list fail, counted from 1.
#[derive(Debug)]
pub struct MemSink {
    bytes: Octets,
    writes: Calls,
    faults: u64,
}

impl Drop for MemSink {
    fn drop(self) {
        take_apart!(self, MemSink: bytes, writes, faults);
    }
}

impl Model for MemSink {
    ghost Value = { FailingWriting };

    ghost view = { λ s. record { written = s.bytes; writes = s.writes; faults = s.faults } };
}

impl MemSink {
    /// A sink to which nothing was written.
    pub fn new(alloc: Global, write_fails: Vec<u64>) -> Self
        ensures { result ≡ record { written = []; writes = no_calls write_fails.items; faults = 0 } }
    {
        MemSink {
            bytes: Octets::new(alloc),
            writes: Calls::new(write_fails),
            faults: 0,
        }
    }

    /// All that was written.
    pub fn written(&self) -> &[u8]
        ensures { result.now ≡ self.now.written }
    {
        self.bytes.as_slice()
    }
}

impl Sink for MemSink {
    ghost written = { λ s. Some s.written };

    ghost faults = { λ s. s.faults };

    ghost refused = { λ s. Some s.faults };

    /// It takes all of `bytes`.
    fn write(&mut self, bytes: &[u8]) -> Result<usize, NextFault>
        ensures bound { WritesAtMost result bytes.now }
        ensures some { IfOk result (λ n. 0 < length bytes.now → 0 < n) }
        ensures appended { IfOk result (λ n. Appends (Some self.old.written) (Some self.new.written)
            (take n bytes.now)) }
        ensures refused { OnErr result (Keeps (Some self.old.written) (Some self.new.written)) }
        ensures later { self.old.faults ≤ self.new.faults }
        ensures failed { IsErrOf result NextFault.Failed → Rose self.old.faults self.new.faults }
        ensures counts { Some self.new.faults ≡ refused_after (is_failed result) (Some self.old.faults) }
        ensures counted { self.new.faults ≡ counted (is_failed result) self.old.faults }
        ensures all { IfOk result (λ n. n ≡ length bytes.now) }
        // The calls whose numbers are listed fail, and no others.
        ensures listed { is_failed result ≡ next_is_listed self.old.writes }
        ensures calls { self.new.writes ≡ called self.old.writes }
    {
        if self.writes.next_fails() {
            self.faults = self.faults.saturating_add(1);
            return Err(NextFault::Failed);
        }
        self.bytes.append(bytes)?;
        Ok(bytes.len())
    }
}

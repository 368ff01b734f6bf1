ghost use Rattle.std.specs.Prelude.{◌≡◌, ◌≤◌, ◌<◌, None, Some, false, length, take, option_map, is_err};
ghost use Rattle.std.specs.Prelude.{IsSome, IfOk, OnErr, IsErrOf};
ghost use Rattle.std.specs.Io.{ReadsAtMost, WritesAtMost};
ghost use Rattle.std.specs.Io.KnownBytes.{Keeps, Appends, IsAtEnd};
ghost use Rattle.zre_outside.specs.Causes.{Rose, is_failed, counted};
ghost use Rattle.zre_outside.specs.Refusals.{after_read, refused_after};
ghost use Rattle.zre_outside.specs.Told.{MovesOn};

use crate::{Failed, Faults, NextFault, Sink, Source};
use std::io::{self, ErrorKind, Read, Write};

/// A reader or a writer of std, with the count of its faults.
#[derive(Debug, Drop)]
pub struct Adapter<T> {
    inner: T,
    faults: Faults,
    // Whether the last read was refused.
    is_refused: bool,
}

/// A reader of std as a source. It tells what is left where the reader does, as one over memory.
pub type StdSource<T> = Adapter<T>;

/// A writer of std as a sink. It tells what was written where the writer does. A write that takes nothing of a
/// piece that isn't empty is a fault.
pub type StdSink<T> = Adapter<T>;

impl<T> Adapter<T> {
    ghost use Rattle.zre_outside.specs.Adapters.{inner_of, faults_of, reason_of, is_refused};

    /// An adapter over a reader or a writer, with a count of 0.
    pub fn new(inner: T) -> Self
        ensures inner { inner_of result ≡ inner }
        // Nothing failed yet.
        ensures faults { faults_of result ≡ 0 }
        ensures reason { reason_of result ≡ None }
        ensures refused { is_refused result ≡ false }
    {
        Adapter {
            inner,
            faults: Faults::none(),
            is_refused: false,
        }
    }

    /// Why the last call that failed did, as the system says it. A write that took nothing failed by `WriteZero`.
    pub fn reason(&self) -> Option<io::Error>
        ensures { result ≡ reason_of self.now }
    {
        self.faults.reason()
    }
}

impl<T: Read> Source for Adapter<T> {
    ghost use Rattle.zre_outside.specs.Adapters.{inner_of, faults_of, reason_of, refusals_of};

    ghost left = { λ s. T.remaining s.inner };

    ghost taken = { λ _. None };

    ghost faults = { faults_of };

    ghost refused = { λ s. Some (refusals_of s) };

    fn read(&mut self, buf: &mut [u8]) -> Result<usize, Failed>
        requires { 0 < length buf.old }
        ensures bound { ReadsAtMost result buf.new }
        ensures moved { IfOk result (λ n. MovesOn (T.remaining (inner_of self.old))
            (T.remaining (inner_of self.new)) None None (take n buf.new)) }
        ensures end { IfOk result (λ n. n ≡ 0 → IsAtEnd (T.remaining (inner_of self.new))) }
        ensures refused_left { OnErr result (Keeps (T.remaining (inner_of self.old))
            (T.remaining (inner_of self.new))) }
        ensures refused_taken { OnErr result (Keeps None None) }
        ensures later { faults_of self.old ≤ faults_of self.new }
        ensures failed { OnErr result (Rose (faults_of self.old) (faults_of self.new)) }
        ensures counts { Some (refusals_of self.new)
            ≡ option_map (after_read (is_err result)) (Some (refusals_of self.old)) }
        // The count rises where it failed, and nowhere else.
        ensures counted { faults_of self.new ≡ counted (is_err result) (faults_of self.old) }
        ensures reason { OnErr result (IsSome (reason_of self.new)) }
    {
        match self.inner.read(buf) {
            Ok(n) => {
                self.is_refused = false;
                Ok(n)
            }
            Err(reason) => {
                self.is_refused = true;
                self.faults.raise(reason);
                Err(Failed)
            }
        }
    }
}

impl<T: Write> Sink for Adapter<T> {
    ghost use Rattle.zre_outside.specs.Adapters.{inner_of, faults_of, reason_of};

    ghost written = { λ s. T.contents s.inner };

    ghost faults = { faults_of };

    ghost refused = { λ s. Some (faults_of s) };

    fn write(&mut self, bytes: &[u8]) -> Result<usize, NextFault>
        ensures bound { WritesAtMost result bytes.now }
        ensures some { IfOk result (λ n. 0 < length bytes.now → 0 < n) }
        ensures appended { IfOk result (λ n. Appends (T.contents (inner_of self.old))
            (T.contents (inner_of self.new)) (take n bytes.now)) }
        ensures refused { OnErr result (Keeps (T.contents (inner_of self.old)) (T.contents (inner_of self.new))) }
        ensures later { faults_of self.old ≤ faults_of self.new }
        ensures failed { IsErrOf result NextFault.Failed
            → Rose (faults_of self.old) (faults_of self.new) }
        ensures counts { Some (faults_of self.new) ≡ refused_after (is_failed result) (Some (faults_of self.old)) }
        // The count rises where it failed, and nowhere else.
        ensures counted { faults_of self.new ≡ counted (is_failed result) (faults_of self.old) }
        ensures reason { OnErr result (IsSome (reason_of self.new)) }
    {
        match self.inner.write(bytes) {
            Ok(n) if n > 0 || bytes.is_empty() => Ok(n),
            Ok(_) => {
                self.faults.raise(io::Error::from(ErrorKind::WriteZero));
                Err(NextFault::Failed)
            }
            Err(reason) => {
                self.faults.raise(reason);
                Err(NextFault::Failed)
            }
        }
    }
}

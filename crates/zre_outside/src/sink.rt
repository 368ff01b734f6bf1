ghost use Rattle.std.specs.Prelude.{◌≡◌, ◌<◌, ◌≤◌, ℕ, List, Option, None, length, take, IfOk, OnOk, OnErr, IsErrOf};
ghost use Rattle.std.specs.Io.{WritesAtMost};
ghost use Rattle.std.specs.Io.KnownBytes.{Keeps, Appends};
ghost use Rattle.zre_outside.specs.Causes.{Rose, is_failed};
ghost use Rattle.zre_outside.specs.Refusals.{refused_after};
ghost use Rattle.zre_outside.specs.Told.{AppendsFront};
ghost use Rattle.zre_outside.specs.declared.sink.NextFault.TheVariants.{OutOfMemory as NoMemory};

use thiserror::Error;
use zre_values::OutOfMemory;

/// Why the outside refused.
#[derive(Clone, Copy, Debug, PartialEq, Eq, Error)]
pub enum NextFault {
    /// It failed. The count of faults of the object that answers this rose in the call.
    #[error("the outside failed")]
    Failed,

    /// No memory was left.
    #[error("out of memory")]
    OutOfMemory,
}

impl From<OutOfMemory> for NextFault {
    ghost from_gives = { λ _ e. e ≡ NoMemory };

    fn from(_: OutOfMemory) -> Self {
        NextFault::OutOfMemory
    }
}

/// Where octets go to: a file, a pipe, standard output.
pub trait Sink {
    /// The octets that were written so far, where the object tells them.
    ghost written: { Self → Option (List ℕ) };

    /// How often it failed. At the last value of a u64 the count stands still, and is read as risen.
    ghost faults: { Self → ℕ };

    /// How many calls it refused since it failed, where the object tells that.
    ghost refused: { Self → Option ℕ } = { λ _. None };

    /// Writes a front of `bytes`, of one octet at least where there is one. A refused call writes nothing.
    fn write(&mut self, bytes: &[u8]) -> Result<usize, NextFault>
        // What is written.
        ensures bound { WritesAtMost result bytes.now }
        ensures some { IfOk result (λ n. 0 < length bytes.now → 0 < n) }
        ensures appended { IfOk result (λ n. Appends (written self.old) (written self.new) (take n bytes.now)) }
        // A sink that fails.
        ensures refused { OnErr result (Keeps (written self.old) (written self.new)) }
        ensures later { faults self.old ≤ faults self.new }
        ensures failed { IsErrOf result NextFault.Failed → Rose (faults self.old) (faults self.new) }
        ensures counts { refused self.new ≡ refused_after (is_failed result) (refused self.old) };
}

/// Writes all of `bytes`, by as many writes as that takes. After a refusal a front of them is written.
pub fn write_all<S: Sink>(sink: &mut S, bytes: &[u8]) -> Result<(), NextFault>
    // What is written.
    ensures ok { OnOk result (Appends (S.written sink.old) (S.written sink.new) bytes.now) }
    ensures front { AppendsFront (S.written sink.old) (S.written sink.new) bytes.now }
    // Which counts of faults rise.
    ensures later { S.faults sink.old ≤ S.faults sink.new }
    ensures failed { IsErrOf result NextFault.Failed → Rose (S.faults sink.old) (S.faults sink.new) }
    ensures counts { S.refused sink.new ≡ refused_after (is_failed result) (S.refused sink.old) }
{
    let mut rest = bytes;
    while !rest.is_empty() {
        let n = sink.write(rest)?;
        rest = &rest[n..];
    }
    Ok(())
}

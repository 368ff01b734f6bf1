ghost use Rattle.std.specs.Prelude.{◌≡◌, ◌<◌, ◌≤◌, ℕ, List, Option, None, length, take, option_map};
ghost use Rattle.std.specs.Prelude.{is_err, IfOk, OnErr};
ghost use Rattle.std.specs.Io.{ReadsAtMost};
ghost use Rattle.std.specs.Io.KnownBytes.{Keeps, IsAtEnd};
ghost use Rattle.zre_outside.specs.Causes.{Rose};
ghost use Rattle.zre_outside.specs.Refusals.{Refusals, after_read};
ghost use Rattle.zre_outside.specs.Told.{MovesOn};

use thiserror::Error;

/// The outside failed. The count of faults of the object that answers this rose in the call.
#[derive(Clone, Copy, Debug, PartialEq, Eq, Error)]
#[error("the outside failed")]
pub struct Failed;

/// Where octets come from: a file, a pipe, standard input.
pub trait Source {
    /// The octets that are left to read, where the object tells them.
    ghost left: { Self → Option (List ℕ) };

    /// The octets that were read so far, where the object tells them.
    ghost taken: { Self → Option (List ℕ) };

    /// How often it failed. At the last value of a u64 the count stands still, and is read as risen.
    ghost faults: { Self → ℕ };

    /// How many reads it refused and whether the last one was refused, where the object tells that.
    ghost refused: { Self → Option Refusals } = { λ _. None };

    /// Reads some octets into the front of `buf`. `Ok(0)` comes at the end of input, and nowhere else.
    fn read(&mut self, buf: &mut [u8]) -> Result<usize, Failed>
        requires { 0 < length buf.old }
        // What is read.
        ensures bound { ReadsAtMost result buf.new }
        ensures moved { IfOk result (λ n. MovesOn (left self.old) (left self.new) (taken self.old) (taken self.new)
            (take n buf.new)) }
        ensures end { IfOk result (λ n. n ≡ 0 → IsAtEnd (left self.new)) }
        // A source that fails.
        ensures refused_left { OnErr result (Keeps (left self.old) (left self.new)) }
        ensures refused_taken { OnErr result (Keeps (taken self.old) (taken self.new)) }
        ensures later { faults self.old ≤ faults self.new }
        ensures failed { OnErr result (Rose (faults self.old) (faults self.new)) }
        ensures counts { refused self.new ≡ option_map (after_read (is_err result)) (refused self.old) };
}

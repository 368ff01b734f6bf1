ghost use Rattle.std.specs.Prelude.{◌≡◌, ◌≤◌, ℕ, Bool, true, List, [], Option, None, option_map, is_ok};
ghost use Rattle.std.specs.Prelude.{OnOk, OnErr, IsErrOf};
ghost use Rattle.std.specs.Io.KnownBytes.{Keeps, Appends};
ghost use Rattle.zre_outside.specs.Causes.{Rose, is_failed};
ghost use Rattle.zre_outside.specs.Refusals.{refused_after};
ghost use Rattle.zre_outside.specs.Told.{AppendsFront};

use crate::NextFault;

/// Where a capture is kept, under a name.
pub trait Recorder {
    /// The octets that it keeps, where it tells them.
    ghost kept: { Self → Option (List ℕ) };

    /// The name under which it keeps them, where it tells that.
    ghost named: { Self → Option (List ℕ) };

    /// Whether it is begun. Each recorder tells that.
    ghost begun: { Self → Bool };

    /// How often it failed. At the last value of a u64 the count stands still, and is read as risen.
    ghost faults: { Self → ℕ };

    /// How many calls it refused since it failed, where the object tells that.
    ghost refused: { Self → Option ℕ } = { λ _. None };

    /// Begins anew, under a name and with nothing kept. After a refusal it isn't begun.
    fn begin(&mut self, name: &str) -> Result<(), NextFault>
        // What is begun.
        ensures begun { begun self.new ≡ is_ok result }
        ensures emptied { OnOk result (kept self.new ≡ option_map (λ _. []) (kept self.old)) }
        ensures name { OnOk result (named self.new ≡ option_map (λ _. name.now) (named self.old)) }
        // A recorder that fails.
        ensures refused { OnErr result (Keeps (kept self.old) (kept self.new)
            × Keeps (named self.old) (named self.new)) }
        ensures later { faults self.old ≤ faults self.new }
        ensures failed { IsErrOf result NextFault.Failed → Rose (faults self.old) (faults self.new) }
        ensures counts { refused self.new ≡ refused_after (is_failed result) (refused self.old) };

    /// Appends octets. After a refusal a front of them was appended.
    fn put(&mut self, bytes: &[u8]) -> Result<(), NextFault>
        requires { begun self.old ≡ true }
        // What is kept.
        ensures recorded { OnOk result (Appends (kept self.old) (kept self.new) bytes.now) }
        ensures front { AppendsFront (kept self.old) (kept self.new) bytes.now }
        // What stays as it was.
        ensures name { Keeps (named self.old) (named self.new) }
        ensures begun { begun self.new ≡ begun self.old }
        // No count of faults falls.
        ensures later { faults self.old ≤ faults self.new }
        ensures failed { IsErrOf result NextFault.Failed → Rose (faults self.old) (faults self.new) }
        ensures counts { refused self.new ≡ refused_after (is_failed result) (refused self.old) };
}

ghost use Rattle.std.specs.Prelude.{◌≡◌, ◌≤◌, ℕ, Bool, true, Option, None, option_map, IsSome};
ghost use Rattle.std.specs.Prelude.{IfOk, OnOk, OnErr, IsErrOf};
ghost use Rattle.zre_outside.specs.declared.deed.Deed.{Deed as DeedValue};
ghost use Rattle.zre_outside.specs.Causes.{Rose, is_failed};
ghost use Rattle.zre_outside.specs.Refusals.{refused_after};
ghost use Rattle.zre_outside.specs.Worlds.{Log, with_start, IsTurn, is_look, after_turn, with_deed};

use crate::{Act, Command, NextFault, Start, Turn};
use zre_values::OutOfMemory;

/// All that a node has to do with: sockets, a clock, and the moments at which its user is looked for. It is asked for
/// one turn after the other.
pub trait World {
    /// What it has seen so far, where it tells that.
    ghost told: { Self → Option Log };

    /// Whether the last turn that it answered was a look. Each world tells that.
    ghost looked: { Self → Bool };

    /// How often it failed. At the last value of a u64 the count stands still, and is read as risen.
    ghost faults: { Self → ℕ };

    /// How many calls it refused since it failed, where the object tells that.
    ghost refused: { Self → Option ℕ } = { λ _. None };

    /// Goes on the network.
    fn start(&mut self, s: &Start) -> Result<(), NextFault>
        // What it tells.
        ensures told { OnOk result (told self.new ≡ option_map (with_start s.now) (told self.old)) }
        ensures refused { OnErr result (told self.new ≡ told self.old) }
        // What stays as it was.
        ensures looked { looked self.new ≡ looked self.old }
        ensures later { faults self.old ≤ faults self.new }
        ensures failed { IsErrOf result NextFault.Failed → Rose (faults self.old) (faults self.new) }
        ensures counts { refused self.new ≡ refused_after (is_failed result) (refused self.old) };

    /// The next turn. A command may be handed in after a look, and comes back as the entry to do it.
    fn next(&mut self, command: Option<Command>) -> Result<Turn, NextFault>
        requires { IsSome command → looked self.old ≡ true }
        // The turn, and what the world tells of it.
        ensures turn { IfOk result (λ t. IsTurn command t) }
        ensures told { IfOk result (λ t. told self.new ≡ option_map (after_turn command t) (told self.old)) }
        ensures looked { IfOk result (λ t. looked self.new ≡ is_look t) }
        // A world that fails.
        ensures refused { OnErr result ((told self.new ≡ told self.old) × (looked self.new ≡ looked self.old)) }
        ensures later { faults self.old ≤ faults self.new }
        ensures failed { IsErrOf result NextFault.Failed → Rose (faults self.old) (faults self.new) }
        ensures counts { refused self.new ≡ refused_after (is_failed result) (refused self.old) };

    /// Does an act of a node. What fails outside comes back as a later entry.
    fn act(&mut self, act: &Act) -> Result<(), OutOfMemory>
        // What it tells.
        ensures ok { OnOk result (told self.new ≡ option_map (with_deed (DeedValue.Done act.now)) (told self.old)) }
        ensures err { OnErr result (told self.new ≡ told self.old) }
        // What stays as it was.
        ensures looked { looked self.new ≡ looked self.old }
        ensures faults { faults self.new ≡ faults self.old }
        ensures counts { refused self.new ≡ refused self.old };

    /// Offers a link what it may send. How much of it was sent comes back as a later entry; before that, a further
    /// offer on this link sends nothing.
    fn offer(&mut self, link: u64, bytes: &[u8]) -> Result<(), OutOfMemory>
        // What it tells.
        ensures ok { OnOk result (told self.new ≡ option_map (with_deed (DeedValue.Offered link bytes.now))
            (told self.old)) }
        ensures err { OnErr result (told self.new ≡ told self.old) }
        // What stays as it was.
        ensures looked { looked self.new ≡ looked self.old }
        ensures faults { faults self.new ≡ faults self.old }
        ensures counts { refused self.new ≡ refused self.old };
}

ghost use Rattle.std.specs.Prelude.{◌≡◌, ◌≤◌, ℕ, Option, None, option_map, is_err, IfOk, OnOk, OnErr};
ghost use Rattle.zre_outside.specs.Causes.{Rose};
ghost use Rattle.zre_outside.specs.Desks.{Register, with_begun, with_given};
ghost use Rattle.zre_outside.specs.Refusals.{refused_after};

use crate::{Failed, Source};

/// Where local programs come from that want to use the node: a listener on an address and a port.
pub trait Desk {
    /// A program that came, as what it sends. It moves to another thread.
    type Client: Source + Drop + Send + 'static;

    /// What it did so far, where it tells that.
    ghost told: { Self → Option (Register Self.Client) };

    /// How often it failed. At the last value of a u64 the count stands still, and is read as risen.
    ghost faults: { Self → ℕ };

    /// How many calls it refused since it failed, where the object tells that.
    ghost refused: { Self → Option ℕ } = { λ _. None };

    /// Begins to listen at an address and a port.
    fn begin(&mut self, addr: [u8; 4], port: u16) -> Result<(), Failed>
        // What it tells.
        ensures told { OnOk result (told self.new ≡ option_map (with_begun addr port) (told self.old)) }
        ensures refused { OnErr result (told self.new ≡ told self.old) }
        // A desk that fails.
        ensures later { faults self.old ≤ faults self.new }
        ensures failed { OnErr result (Rose (faults self.old) (faults self.new)) }
        ensures counts { refused self.new ≡ refused_after (is_err result) (refused self.old) };

    /// Waits for the next client.
    fn next(&mut self) -> Result<Self::Client, Failed>
        // What it tells.
        ensures told { IfOk result (λ c. told self.new ≡ option_map (with_given c) (told self.old)) }
        ensures refused { OnErr result (told self.new ≡ told self.old) }
        // A desk that fails.
        ensures later { faults self.old ≤ faults self.new }
        ensures failed { OnErr result (Rose (faults self.old) (faults self.new)) }
        ensures counts { refused self.new ≡ refused_after (is_err result) (refused self.old) };
}

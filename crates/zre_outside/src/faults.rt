ghost use Rattle.std.specs.Prelude.{◌≡◌, ◌≤◌, None, Some};
ghost use Rattle.zre_outside.specs.Causes.{raised};
ghost use Rattle.zre_outside.specs.Faults.{Faults as Counted};

use std::io;
use std::marker::Model;

/// How often the calls of an object failed, and why the last one that did, as the system says it.
#[derive(Debug, Drop)]
pub struct Faults {
    count: u64,
    reason: Option<io::Error>,
}

impl Model for Faults {
    ghost Value = { Counted };

    ghost view = { λ f. record { count = f.count; reason = f.reason } };
}

impl Faults {
    /// None yet.
    pub fn none() -> Self
        ensures { result ≡ record { count = 0; reason = None } }
    {
        Faults {
            count: 0,
            reason: None,
        }
    }

    /// Why the last call that failed did.
    pub fn reason(&self) -> Option<io::Error>
        ensures { result ≡ self.now.reason }
    {
        self.reason
    }

    /// Counts a call that failed.
    pub fn raise(&mut self, reason: io::Error)
        ensures raised { self.new ≡ record { count = raised self.old.count; reason = Some reason } }
        ensures later { self.old.count ≤ self.new.count }
    {
        self.count = self.count.saturating_add(1);
        self.reason = Some(reason);
    }
}

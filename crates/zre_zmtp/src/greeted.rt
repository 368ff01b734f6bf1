//! The octets of the greeting.

ghost use Rattle.std.specs.Prelude.{◌≡◌, ◌+◌, ◌≤◌, [], ◌∷◌, length, IfOk, IfErr, OnOk, Some};
ghost use Rattle.zre_zmtp.specs.Stream.{Want as WantValue, item as item_of};
ghost use Rattle.zre_zmtp.specs.Run.{after as after_of};
ghost use Rattle.zre_zmtp.specs.Shown.{before_of, left_of, held, StandsAfter, NamesFault};
ghost use Rattle.zre_zmtp.specs.Looks.{LooksOnce};

use crate::expected::Expected;
use crate::fault::{Fed, FeedFault, ZmtpFault};
use crate::faults::{GREETING_OCTETS, fault_of_octet};
use crate::item::{Item, Items, What};
use crate::looks::{Steps, Store};
use crate::partial::Partial;
use crate::progress::Progress;
use std::mem;
use std::sync::ledger::Ledger;

impl Progress {
    // The item that ends with the greeting, and what is known after it.
    #[tactic(auto, unfolding(crate::specs::Stream::item))]
    fn finish_greeting(&mut self) -> Result<Item, FeedFault>
        // What a caller knows.
        requires expected { self.old.expected ≡ Expected.Greeting }
        requires some { 12 ≤ length self.old.greeting }
        // What the greeting says.
        ensures says { IfOk result (λ found. item_of (before_of self.old) self.old.greeting ≡ Some found) }
        // What is known after it.
        ensures after { OnOk result (before_of self.new ≡ after_of (before_of self.old) self.old.greeting) }
        ensures left { OnOk result (left_of self.new ≡ []) }
        ensures err { IfErr result (λ e. e ≡ FeedFault.OutOfMemory) }
        ensures opened { self.new.opened ≡ self.old.opened }
    {
        let start = self.place;
        let Some(end) = start.checked_add(self.greeting.len() as u64) else {
            return Err(FeedFault::OutOfMemory);
        };
        let whole = mem::replace(&mut self.greeting, Store::new(self.alloc)).finish();
        let octets = whole.as_slice();
        let what = What::Greeting {
            major: octets[10],
            minor: octets[11],
        };
        self.expected = Expected::Ready;
        self.place = end;
        if self.opened.len() == 0 {
            self.start = end;
        }
        self.partial = Partial::new(self.alloc);
        Ok(Item { start, end, what })
    }

    /// One octet more of the greeting.
    pub(crate) fn take_greeting<L: Ledger>(
        &mut self,
        octet: u8,
        out: &mut Items,
        steps: &mut Steps<L>,
    ) -> Fed
        requires { self.old.expected ≡ Expected.Greeting }
        // What the octets add.
        ensures ok { (want : WantValue) → StandsAfter result want self.old self.new (octet ∷ []) out.old out.new }
        // What a refusal tells, and what it leaves.
        ensures refused { (want : WantValue) → NamesFault result want self.old (octet ∷ []) out.old out.new }
        // How many octets are looked at.
        ensures looks { LooksOnce steps.old steps.new (held self.old) (held self.new) 1 result }
    {
        let i = self.greeting.len();
        if let Some(why) = fault_of_octet(i, octet) {
            return Err(FeedFault::Zmtp(ZmtpFault {
                why,
                place: i as u64,
            }));
        }
        self.greeting.add(&[octet], steps)?;
        if self.greeting.len() < GREETING_OCTETS {
            return Ok(());
        }
        out.push(self.finish_greeting()?)?;
        Ok(())
    }
}

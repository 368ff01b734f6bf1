//! Replies on the links of peers.

ghost use Rattle.std.specs.Prelude.{◌≡◌, ℕ, length, List, ◌++◌, Bool, true, false, None, Some, Ok, IfOk, if◌then◌else◌};
ghost use Rattle.std.specs.Prelude.{◌+◌, ◌≤◌};
ghost use Rattle.zre_values.specs.declared.peer_id.PeerId.{PeerId as PeerIdValue};
ghost use Rattle.zre_zmtp.specs.Looks.{Looks};
ghost use Rattle.zre_link.specs.Heard.{heard_after, held_of, reply_fault};
ghost use Rattle.zre_link.specs.Link.{link_after, link_answering, slow_in};
ghost use Rattle.zre_link.specs.Text.{Member};
ghost use Rattle.zre_journal.specs.LinkEntries.{cause_by_reply};
ghost use Rattle.zre_tables.specs.Rows.{row_at, with_row};
ghost use Rattle.zre_tables.specs.declared.peer.Peer.{Peer as PeerValue};

use crate::peers::Peers;
use std::sync::ledger::Ledger;
use zre_link::{Link, ReplyFault};
use zre_peer::Cause;
use zre_values::OutOfMemory;
use zre_zmtp::Steps;

// A reply on a link: why it ends its peer, if it does. Before the link stands, a reply is dropped.
fn hear_reply<L: Ledger>(
    link: &mut Link,
    bytes: &[u8],
    steps: &mut Steps<L>,
) -> Result<Option<Cause>, OutOfMemory>
    // What a link takes, and why its peer ends.
    ensures standing { (own : PeerIdValue) (line : List Member) (o : List ℕ) (n : ℕ)
        → link.old ≡ link_after own line true o n →
        IfOk result (λ why. (link.new ≡ link_answering own line true o n bytes.now)
        × (why ≡ cause_by_reply (slow_in own line o n bytes.now) (reply_fault (o ++ bytes.now)))) }
    ensures waiting { link.old.linked ≡ false → IfOk result (λ why. (link.new ≡ link.old) × (why ≡ None)) }
    // How many octets are looked at.
    ensures once { steps.new ≤ steps.old + length bytes.now }
    ensures looks { Looks steps.old steps.new (held_of link.old.replies) (held_of link.new.replies)
        (length bytes.now) result }
{
    if !link.is_linked() {
        return Ok(None);
    }
    match link.reply_counted(bytes, steps) {
        Ok(()) => Ok(None),
        Err(ReplyFault::Zmtp(fault)) => Ok(Some(Cause::Reply(fault))),
        Err(ReplyFault::Slow { unsent, size }) => Ok(Some(Cause::Slow { unsent, size })),
        Err(ReplyFault::OutOfMemory) => Err(OutOfMemory),
    }
}

impl Peers {
    /// A reply comes on this link, whose PINGs are answered: why it ends the peer, if it does. Before the link stands,
    /// a reply is dropped.
    pub fn reply<L: Ledger>(
        &mut self,
        link: u64,
        bytes: &[u8],
        steps: &mut Steps<L>,
    ) -> Result<Option<Cause>, OutOfMemory>
        // What a link takes, and why its peer ends.
        ensures standing { (x : PeerValue) (own : PeerIdValue) (line : List Member) (o : List ℕ) (n : ℕ)
            → row_at link self.old ≡ Some x → x.link ≡ link_after own line true o n →
            IfOk result (λ why. (self.new
            ≡ with_row link (record x { link = link_answering own line true o n bytes.now }) self.old)
            × (why ≡ cause_by_reply (slow_in own line o n bytes.now) (reply_fault (o ++ bytes.now)))) }
        // A link that doesn't stand, and no link.
        ensures waiting { (x : PeerValue) → row_at link self.old ≡ Some x → x.link.linked ≡ false →
            IfOk result (λ why. (self.new ≡ self.old) × (why ≡ None)) }
        ensures missing { row_at link self.old ≡ None →
            (self.new ≡ self.old) × (result ≡ Ok None) × (steps.new ≡ steps.old) }
        // How many octets are looked at.
        ensures once { steps.new ≤ steps.old + length bytes.now }
        ensures looks { (x : PeerValue) (own : PeerIdValue) (line : List Member) (linked : Bool) (o : List ℕ) (n : ℕ)
            → row_at link self.old ≡ Some x → x.link ≡ link_after own line linked o n →
            Looks steps.old steps.new (held_of (heard_after o))
            (held_of (heard_after (if linked then o ++ bytes.now else o))) (length bytes.now) result }
    {
        let Some(at) = self.rows.place(link) else {
            return Ok(None);
        };
        hear_reply(&mut self.rows.all[at].1.link, bytes, steps)
    }
}

//! Entered peers that are evasive: they are told of, and sent a PING.

ghost use Rattle.std.specs.Prelude.{◌≡◌, ◌+◌, ◌≤◌, ◌++◌, ◌∷◌, [], ℕ, Bool, List, Some, None, Ok, IfErr, IfOk};
ghost use Rattle.std.specs.Prelude.{OnErr, OnOk};
ghost use Rattle.zre_values.specs.declared.limits.TheConstants.{UNSENT_OCTETS};
ghost use Rattle.zre_values.specs.declared.peer_id.PeerId.{PeerId as PeerIdValue};
ghost use Rattle.zre_msg.specs.declared.message.Body.TheVariants.{Ping};
ghost use Rattle.zre_msg.specs.declared.message.Message.{Message};
ghost use Rattle.zre_link.specs.declared.fault.PushFault.TheVariants.{Slow};
ghost use Rattle.zre_link.specs.Link.{link_after, unsent_of, RefusesPush};
ghost use Rattle.zre_link.specs.Text.{Member, Says, size_of};
ghost use Rattle.zre_peer.specs.Runs.{shown};
ghost use Rattle.zre_peer.specs.Standing.{view_in};
ghost use Rattle.zre_peer.specs.Views.{view_of};
ghost use Rattle.zre_tables.specs.Probing.{IsTold};
ghost use Rattle.zre_tables.specs.Rows.{row_at, with_row};
ghost use Rattle.zre_tables.specs.declared.peer.Peer.{Peer as PeerValue};

use crate::peer::Peer;
use crate::peers::Peers;
use std::alloc::Global;
use zre_link::PushFault;
use zre_peer::{Event, Events, Run};
use zre_values::{Octets, OutOfMemory};

/// The name that a peer has told, and none before its HELLO.
pub fn name_of(alloc: Global, run: &Run) -> Result<Octets, OutOfMemory>
    ensures { (ms : List Message) → view_in run.now ≡ shown ms → IfOk result (λ name. name ≡ (view_of ms).name) }
{
    match run.view() {
        Some(view) => view.copy_name(),
        None => Ok(Octets::new(alloc)),
    }
}

// The user is told that a peer is evasive, where it is entered.
fn tell_evasive(alloc: Global, peer: &Peer, events: &mut Events) -> Result<(), OutOfMemory>
    ensures { OnOk result (IsTold peer.now events.old events.new) }
{
    let Some(running) = &peer.run else {
        return Ok(());
    };
    let name = name_of(alloc, &running.run)?;
    events.push(Event::Evasive { id: peer.id, name })
}

impl Peers {
    /// Tells EVASIVE of the peer of this link, where it is entered, and puts a PING on the link as `push` does, by one
    /// look at its row. Where the link takes no PING, EVASIVE was told before.
    pub fn probe(&mut self, link: u64, events: &mut Events) -> Result<(), PushFault>
        // A PING is put on the link, and EVASIVE told.
        ensures ok { (x : PeerValue) (own : PeerIdValue) (line : List Member) (linked : Bool) (o : List ℕ) (n : ℕ)
            → row_at link self.old ≡ Some x → x.link ≡ link_after own line linked o n →
            OnOk result ((unsent_of own line n + size_of line Ping ≤ UNSENT_OCTETS)
            × (self.new ≡ with_row link
            (record x { link = link_after own (line ++ Says Ping ∷ []) linked o n }) self.old)) }
        ensures told { (x : PeerValue) → row_at link self.old ≡ Some x → OnOk result (IsTold x events.old events.new) }
        // Where it has no room, EVASIVE was told before.
        ensures refused { (x : PeerValue) (own : PeerIdValue) (line : List Member) (linked : Bool) (o : List ℕ) (n : ℕ)
            → row_at link self.old ≡ Some x → x.link ≡ link_after own line linked o n →
            IfErr result (λ e. RefusesPush e (unsent_of own line n) (size_of line Ping)) }
        ensures told_first { (x : PeerValue) → row_at link self.old ≡ Some x →
            IfErr result (λ e. (unsent size : ℕ) → e ≡ Slow unsent size → IsTold x events.old events.new) }
        // Nothing changes after an error, and where there is no such peer.
        ensures unchanged { OnErr result (self.new ≡ self.old) }
        ensures missing { row_at link self.old ≡ None →
            (self.new ≡ self.old) × (events.new ≡ events.old) × (result ≡ Ok tt) }
    {
        let Some(at) = self.rows.place(link) else {
            return Ok(());
        };
        let peer = &mut self.rows.all[at].1;
        tell_evasive(self.alloc, peer, events)?;
        peer.link.push_ping()
    }
}

//! Messages, and the runs of peers that they make.

ghost use Rattle.std.specs.Prelude.{◌≡◌, ◌≢◌, ℕ, List, ◌∷◌, [], ◌++◌, Some, None, OnOk, Err, IfErr, IfOk};
ghost use Rattle.std.specs.Prelude.{true, false};
ghost use Rattle.zre_msg.specs.Lent.{message_of};
ghost use Rattle.zre_msg.specs.declared.message.Message.{Message as MessageValue};
ghost use Rattle.zre_values.specs.declared.peer_id.PeerId.{PeerId as PeerIdValue};
ghost use Rattle.zre_peer.specs.Views.{view_of};
ghost use Rattle.zre_peer.specs.Runs.{events_of, may_follow, fault_of, shown};
ghost use Rattle.zre_peer.specs.Standing.{view_in};
ghost use Rattle.zre_tables.specs.Rows.{row_at};
ghost use Rattle.zre_tables.specs.Runs.{HasRun, HadRun, IsRunning, IsTaken};
ghost use Rattle.zre_tables.specs.declared.peer.Peer.{Peer as PeerValue};

use crate::peer::{CarriedRun, Peer};
use crate::peers::{Peers, renew};
use zre_msg::LentMessage;
use zre_peer::{Events, RunFault};

// A run takes one more message.
fn go_on(
    running: &mut CarriedRun,
    lent: &LentMessage<'_>,
    events: &mut Events,
) -> Result<(), RunFault>
    ensures ok { (c : ℕ) (id : PeerIdValue) (ms : List MessageValue) → IsRunning c id ms running.old →
        OnOk result ((may_follow ms (message_of lent.now) ≡ true)
        × IsRunning c id (ms ++ message_of lent.now ∷ []) running.new
        × (events.new ≡ events.old ++ events_of id (view_of ms) (message_of lent.now).body)) }
    ensures refused { (c : ℕ) (id : PeerIdValue) (ms : List MessageValue) → IsRunning c id ms running.old →
        IfErr result (λ e. e ≢ RunFault.OutOfMemory → (may_follow ms (message_of lent.now) ≡ false)
        × (e ≡ fault_of ms (message_of lent.now))
        × (running.new.conn ≡ c) × (view_in running.new.run ≡ shown ms) × (events.new ≡ events.old)) }
{
    if running.run.spent() {
        return Err(RunFault::OutOfMemory);
    }
    let Some(_) = running.run.view() else {
        return Err(RunFault::OutOfMemory);
    };
    running.run.take_lent(lent, events)
}

// The run of a peer takes one more message.
fn take(peer: &mut Peer, lent: &LentMessage<'_>, events: &mut Events) -> Result<(), RunFault>
    ensures ok { (c : ℕ) (id : PeerIdValue) (ms : List MessageValue) → HasRun (Some c) id ms peer.old.run →
        OnOk result ((may_follow ms (message_of lent.now) ≡ true)
        × HasRun (Some c) id (ms ++ message_of lent.now ∷ []) peer.new.run
        × (events.new ≡ events.old ++ events_of id (view_of ms) (message_of lent.now).body)) }
    ensures refused { (c : ℕ) (id : PeerIdValue) (ms : List MessageValue) → HasRun (Some c) id ms peer.old.run →
        IfErr result (λ e. e ≢ RunFault.OutOfMemory → (may_follow ms (message_of lent.now) ≡ false)
        × (e ≡ fault_of ms (message_of lent.now))
        × HadRun (Some c) ms peer.new.run × (events.new ≡ events.old)) }
    ensures only { peer.new ≡ record peer.old { run = peer.new.run } }
{
    match &mut peer.run {
        Some(running) => go_on(running, lent, events),
        None => Err(RunFault::OutOfMemory),
    }
}

impl Peers {
    /// The run of the peer of this link takes one more message, which lies in its frames and isn't HELLO, and which
    /// shows that the peer is there.
    pub fn take(
        &mut self,
        link: u64,
        now: u64,
        lent: &LentMessage<'_>,
        events: &mut Events,
    ) -> Result<(), RunFault>
        ensures ok { (x : PeerValue) (c : ℕ) (id : PeerIdValue) (ms : List MessageValue)
            → row_at link self.old ≡ Some x → HasRun (Some c) id ms x.run →
            OnOk result ((may_follow ms (message_of lent.now) ≡ true)
            × (events.new ≡ events.old ++ events_of id (view_of ms) (message_of lent.now).body)
            × IsTaken link x now (HasRun (Some c) id (ms ++ message_of lent.now ∷ [])) self.old self.new) }
        ensures refused { (x : PeerValue) (c : ℕ) (id : PeerIdValue) (ms : List MessageValue)
            → row_at link self.old ≡ Some x → HasRun (Some c) id ms x.run →
            IfErr result (λ e. e ≢ RunFault.OutOfMemory → (may_follow ms (message_of lent.now) ≡ false)
            × (e ≡ fault_of ms (message_of lent.now)) × (events.new ≡ events.old)
            × IsTaken link x now (HadRun (Some c) ms) self.old self.new) }
        ensures missing { row_at link self.old ≡ None →
            (self.new ≡ self.old) × (events.new ≡ events.old) × (result ≡ Err RunFault.OutOfMemory) }
    {
        let Some(at) = self.rows.place(link) else {
            return Err(RunFault::OutOfMemory);
        };
        let peer = &mut self.rows.all[at].1;
        self.rewound = renew(peer, now, self.rewound);
        take(peer, lent, events)
    }
}

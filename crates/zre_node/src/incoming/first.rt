//! The first message of a connection.

ghost use Rattle.std.specs.Prelude.{◌≡◌, ◌≢◌, List, ◌∷◌, [], ◌++◌, None, Some, OnOk, IfOk, IfErr, is_err, true};
ghost use Rattle.zre_values.specs.declared.peer_id.PeerId.{PeerId as PeerIdValue};
ghost use Rattle.zre_peer.specs.Runs.{events_of, may_follow};
ghost use Rattle.zre_node.specs.First.{IsPlace, IsFirstFault};
ghost use Rattle.zre_msg.specs.declared.message.Message.{Message as MessageValue};
ghost use Rattle.zre_values.specs.Endpoint.{endpoint_in};
ghost use Rattle.zre_peer.specs.Views.{view_of};
ghost use Rattle.zre_peer.specs.Standing.{Stands, id_of};
ghost use Rattle.zre_values.specs.declared.settings.Settings.{Settings as Config};
ghost use Rattle.zre_journal.specs.Chronicle.{Mark, Starts, Ignores};
ghost use Rattle.zre_journal.specs.Connections.{is_live, is_open, identity, runs};
ghost use Rattle.zre_journal.specs.Peers.{Life, life};
ghost use Rattle.zre_journal.specs.Arrivals.{at_first};
ghost use Rattle.zre_node.specs.Stands.{Holds, Did};

use crate::effects::Effects;
use crate::tables::Tables;
use std::alloc::Global;
use zre_msg::{Body, Message};
use zre_peer::{Events, IgnoreWhy, Run, RunFault};
use zre_tables::CarriedRun;
use zre_values::limits::PEERS;
use zre_values::{Endpoint, OutOfMemory, PeerId};

// Where a peer that says HELLO is to be reached.
enum Reach {
    // It is known, by this link.
    Known(u64),
    // It becomes known, with this endpoint.
    New(Endpoint),
    // It can't.
    Nowhere(IgnoreWhy),
}

// The endpoint that HELLO names, if it can be read.
fn mailbox_of(message: &Message) -> Option<Endpoint>
    ensures { result ≡ endpoint_in (view_of (message.now ∷ [])).endpoint }
{
    match &message.body {
        Body::Hello { endpoint, .. } => Endpoint::read(endpoint.as_slice()),
        _ => None,
    }
}

// The run that a first message makes, with its events.
fn opened(
    alloc: Global,
    peer: PeerId,
    message: Message,
    events: &mut Events,
) -> Result<Run, RunFault>
    ensures ok { IfOk result (λ run. (may_follow [] message ≡ true) × Stands run (message ∷ []) × (id_of run ≡ peer)
        × (events.new ≡ events.old ++ events_of peer (view_of []) message.body)) }
    ensures refused { IfErr result (λ e. IsFirstFault e message) }
    ensures untold { IfErr result (λ e. e ≢ RunFault.OutOfMemory → events.new ≡ events.old) }
{
    let mut run = Run::new(alloc, peer);
    match run.take(message, events) {
        Ok(()) => Ok(run),
        Err(fault) => Err(fault),
    }
}

impl Tables {
    // The connection is ignored, and the user is told why.
    fn refuse(&mut self, out: &mut Effects, conn: u64, why: IgnoreWhy) -> Result<(), OutOfMemory>
        ensures { (g : Config) (H : List Mark) → Holds g H self.old → is_live conn H ≡ true → runs conn H ≡ None →
            OnOk result (Did g (Ignores conn why ∷ []) H self.new out.old out.new) }
    {
        self.conns.ignore(conn, self.clock);
        out.ignored(conn, why)
    }

    // The connection runs the peer of this link from now on.
    fn start(&mut self, conn: u64, link: u64, run: Run)
        ensures { (g : Config) (H : List Mark) (m : MessageValue) (v : Life) → Holds g H self.old
            → is_live conn H ≡ true →
            runs conn H ≡ None → life link H ≡ Some v → identity conn H ≡ Some v.id → Stands run (m ∷ [])
            → id_of run ≡ v.id →
            Holds g (Starts conn link m ∷ H) self.new }
    {
        self.conns.carry(conn, link);
        self.peers.enter(link, CarriedRun { conn, run }, self.clock);
    }

    // Where the peer of a first message is to be reached.
    fn place(&self, peer: PeerId, message: &Message) -> Reach
        ensures { (g : Config) (H : List Mark) → Holds g H self.now → IsPlace g peer message.now H result }
    {
        if let Some(link) = self.peers.link_of(peer) {
            return Reach::Known(link);
        }
        match mailbox_of(message) {
            Some(to) if self.peers.len() < PEERS => Reach::New(to),
            Some(_) => Reach::Nowhere(IgnoreWhy::Full),
            None => Reach::Nowhere(IgnoreWhy::NoEndpoint),
        }
    }

    // A first message that isn't one of a run.
    fn refuse_by(
        &mut self,
        out: &mut Effects,
        conn: u64,
        fault: RunFault,
    ) -> Result<(), OutOfMemory>
        ensures did { (g : Config) (H : List Mark) (p : PeerIdValue) (m : MessageValue) → Holds g H self.old
            → is_live conn H ≡ true →
            runs conn H ≡ None → IsFirstFault fault m →
            OnOk result (Did g (at_first g conn (Some p) m H) H self.new out.old out.new) }
        ensures memory { fault ≡ RunFault.OutOfMemory → is_err result ≡ true }
    {
        match fault {
            RunFault::NotHello => self.refuse(out, conn, IgnoreWhy::NotHello),
            RunFault::Limit => self.refuse(out, conn, IgnoreWhy::Limit),
            _ => Err(OutOfMemory),
        }
    }

    /// The first message of a connection on which this peer was introduced.
    #[inline(never)]
    pub fn first(
        &mut self,
        out: &mut Effects,
        conn: u64,
        peer: PeerId,
        message: Message,
    ) -> Result<(), OutOfMemory>
        ensures { (g : Config) (H : List Mark) → Holds g H self.old → is_live conn H ≡ true → runs conn H ≡ None →
            identity conn H ≡ Some peer →
            OnOk result (Did g (at_first g conn (Some peer) message H) H self.new out.old out.new) }
    {
        match self.place(peer, &message) {
            Reach::Known(link) => match opened(self.alloc, peer, message, &mut out.events) {
                Ok(run) => {
                    self.start(conn, link, run);
                    Ok(())
                }
                Err(fault) => self.refuse_by(out, conn, fault),
            },
            Reach::New(to) => match opened(self.alloc, peer, message, &mut out.events) {
                Ok(run) => {
                    self.born(out, peer, to)?;
                    self.start(conn, self.births, run);
                    Ok(())
                }
                Err(fault) => self.refuse_by(out, conn, fault),
            },
            // Nothing is told of it, but why it is ignored.
            Reach::Nowhere(why) => {
                match opened(self.alloc, peer, message, &mut Events::new(self.alloc)) {
                    Ok(run) => {
                        drop(run);
                        self.refuse(out, conn, why)
                    }
                    Err(fault) => self.refuse_by(out, conn, fault),
                }
            }
        }
    }
}

//! What connections say.

ghost use Rattle.std.specs.Prelude.{◌≡◌, List, ◌∷◌, [], ◌++◌, None, Some, OnOk, IfOk, MatchOption, map, true, false};
ghost use Rattle.std.specs.Prelude.{if◌then◌else◌};
ghost use Rattle.zre_mailbox.specs.declared.arrival.Arrival.TheVariants as arrived;
ghost use Rattle.zre_mailbox.specs.Talk.{Arrived, Fault, fault_said, arrival_of, arrivals_in};
ghost use Rattle.zre_outside.specs.declared.entry.Entry.{Entry as EntryValue};
ghost use Rattle.zre_outside.specs.declared.entry.Input.TheVariants as input;
ghost use Rattle.zre_values.specs.declared.settings.Settings.{Settings as Config};
ghost use Rattle.zre_journal.specs.Chronicle.{Mark, Comes, Identifies, Greets, AnswersPing, in_turn};
ghost use Rattle.zre_journal.specs.Heard.{newly_completed};
ghost use Rattle.zre_journal.specs.Connections.{is_live, is_open, identity, runs, other_with as other_in};
ghost use Rattle.zre_journal.specs.Arrivals.{at_place, at_places, at_arrival, at_ready, taken_over};
ghost use Rattle.zre_node.specs.Stands.{Holds, Did, IsOpenIfAny};
ghost use Rattle.zre_zmtp.specs.Lending.{bodies_in};
ghost use Rattle.zre_tables.specs.Lending.{said_lent};
ghost use Rattle.zre_node.specs.Said.{said_in, at_item};

use crate::effects::Effects;
use crate::incoming::runs::copied;
use crate::tables::Tables;
use zre_mailbox::{Arrival, arrival_of};
use zre_msg::Message;
use zre_peer::{Cause, CloseWhy};
use zre_values::{OutOfMemory, PeerId};
use zre_zmtp::{Came, Item, LentBodies, SocketType, What, ZmtpFault, pong, ready};

/// What a live connection runs, and whom it introduced.
#[derive(Clone, Copy)]
pub struct Standing {
    /// The link of the peer that it runs.
    pub run: Option<u64>,
    /// Whom its READY introduced.
    pub identity: Option<PeerId>,
}

impl Tables {
    // How a connection stands, where it is live.
    fn standing(&self, conn: u64) -> Option<Standing>
        ensures { (g : Config) (H : List Mark) → Holds g H self.now →
            MatchOption result (is_live conn H ≡ false)
            (λ s. (is_live conn H ≡ true) × (s.run ≡ runs conn H) × (s.identity ≡ identity conn H)) }
    {
        let Some(found) = self.conns.get(conn) else {
            return None;
        };
        if found.conn.is_none() {
            return None;
        }
        Some(Standing {
            run: found.run,
            identity: found.identity,
        })
    }

    // An older connection gives way, where there is one.
    fn take_over(&mut self, out: &mut Effects, older: Option<u64>) -> Result<(), OutOfMemory>
        ensures { (g : Config) (H : List Mark) → Holds g H self.old → IsOpenIfAny older H →
            OnOk result (Did g (taken_over g older H) H self.new out.old out.new) }
    {
        let Some(older) = older else {
            return Ok(());
        };
        self.end_run(out, older, Cause::Taken)?;
        self.close(out, older, CloseWhy::Taken)
    }

    // READY introduced this peer on a connection, and it is the only one of that peer.
    fn introduce(&mut self, conn: u64, peer: PeerId)
        ensures { (g : Config) (H : List Mark) → Holds g H self.old → is_open conn H ≡ true → identity conn H ≡ None →
            other_in peer conn H ≡ None → Holds g (Identifies conn peer ∷ H) self.new }
    {
        self.conns.introduce(conn, peer);
    }

    // READY of a connection that had none.
    #[inline(never)]
    fn shaken(&mut self, out: &mut Effects, conn: u64, peer: PeerId) -> Result<(), OutOfMemory>
        ensures { (g : Config) (H : List Mark) → Holds g H self.old → is_open conn H ≡ true → identity conn H ≡ None →
            OnOk result (Did g (at_ready g conn peer None H) H self.new out.old out.new) }
    {
        let older = self.conns.other_with(peer, conn);
        self.take_over(out, older)?;
        self.introduce(conn, peer);
        Ok(())
    }

    // READY of a router, in answer to a greeting.
    #[inline(never)]
    fn greeted(&mut self, out: &mut Effects, conn: u64) -> Result<(), OutOfMemory>
        ensures { (g : Config) (H : List Mark) → Holds g H self.old →
            OnOk result (Did g (Greets conn ∷ []) H self.new out.old out.new) }
    {
        let ready = ready(self.alloc, SocketType::Router, None)?;
        out.answer(conn, ready)
    }

    // PONG, in answer to a PING with this context.
    #[inline(never)]
    fn pinged(&mut self, out: &mut Effects, conn: u64, context: &[u8]) -> Result<(), OutOfMemory>
        ensures { (g : Config) (H : List Mark) → Holds g H self.old →
            OnOk result (Did g (AnswersPing conn context.now ∷ []) H self.new out.old out.new) }
    {
        let pong = pong(self.alloc, context)?;
        out.answer(conn, pong)
    }

    // A message of a live connection, which is dropped where READY didn't come before.
    fn arrive_message(
        &mut self,
        out: &mut Effects,
        conn: u64,
        standing: Standing,
        message: Message,
    ) -> Result<(), OutOfMemory>
        ensures { (g : Config) (H : List Mark) → Holds g H self.old → is_live conn H ≡ true
            → standing.run ≡ runs conn H →
            standing.identity ≡ identity conn H →
            OnOk result (Did g (at_arrival g conn (arrived.Message message) H) H self.new out.old out.new) }
    {
        if let Some(link) = standing.run {
            let taken = self.later_whole(out, link, &message);
            drop(message);
            return taken;
        }
        match standing.identity {
            Some(peer) => self.first(out, conn, peer, message),
            None => {
                drop(message);
                Ok(())
            }
        }
    }

    // What is whole on a live connection, with copies of what it holds. A second READY says nothing.
    #[inline(never)]
    fn arrive_copied(
        &mut self,
        out: &mut Effects,
        conn: u64,
        standing: Standing,
        what: &What,
    ) -> Result<(), OutOfMemory>
        ensures { (g : Config) (H : List Mark) → Holds g H self.old → is_live conn H ≡ true
            → standing.run ≡ runs conn H →
            standing.identity ≡ identity conn H →
            OnOk result (Did g (at_item g conn (arrival_of what.now) H) H self.new out.old out.new) }
    {
        match arrival_of(self.alloc, what)? {
            Some(Arrival::Greeted) => self.greeted(out, conn),
            Some(Arrival::Shaken(peer)) => match standing.identity {
                None => self.shaken(out, conn, peer),
                Some(_) => Ok(()),
            },
            Some(Arrival::Ping(context)) => self.pinged(out, conn, context.as_slice()),
            Some(Arrival::Message(message)) => self.arrive_message(out, conn, standing, message),
            None => Ok(()),
        }
    }

    // What is whole on a connection. Where it isn't live, it has no effect. A message after the first is taken where it
    // lies.
    fn arrive(&mut self, out: &mut Effects, conn: u64, what: &What) -> Result<(), OutOfMemory>
        ensures { (g : Config) (H : List Mark) → Holds g H self.old →
            OnOk result (Did g (if is_live conn H then at_item g conn (arrival_of what.now) H else []) H self.new
            out.old out.new) }
    {
        let Some(standing) = self.standing(conn) else {
            return Ok(());
        };
        match (what, standing.run) {
            (What::Message(frames), Some(link)) => self.later_in(out, link, frames),
            _ => self.arrive_copied(out, conn, standing, what),
        }
    }

    /// A message whose bodies are lent became whole on a connection. Where that isn't live, it has no effect. A message
    /// after the first is taken where it lies.
    pub fn said_lent(
        &mut self,
        out: &mut Effects,
        conn: u64,
        bodies: &LentBodies<'_>,
    ) -> Result<(), OutOfMemory>
        ensures { (g : Config) (K : List Mark) → Holds g K self.old →
            OnOk result (Did g (at_places g conn (said_lent (Came.Message bodies.now)) K) K self.new
            out.old out.new) }
    {
        let Some(standing) = self.standing(conn) else {
            return Ok(());
        };
        match standing.run {
            Some(link) => self.later_lent(out, link, bodies),
            None => self.arrive_lent(out, conn, standing, bodies),
        }
    }

    // Such a message on a live connection that runs no peer, with copies of its bodies.
    #[cold]
    #[inline(never)]
    fn arrive_lent(
        &mut self,
        out: &mut Effects,
        conn: u64,
        standing: Standing,
        bodies: &LentBodies<'_>,
    ) -> Result<(), OutOfMemory>
        ensures { (g : Config) (H : List Mark) → Holds g H self.old → is_live conn H ≡ true
            → standing.run ≡ runs conn H →
            standing.identity ≡ identity conn H →
            OnOk result (Did g (at_item g conn (arrival_of (What.Message (bodies_in bodies.now))) H) H self.new
            out.old out.new) }
    {
        let what = What::Message(copied(self.alloc, bodies)?);
        let taken = self.arrive_copied(out, conn, standing, &what);
        drop(what);
        taken
    }

    // All that is whole on a connection, in order.
    fn arrive_all(
        &mut self,
        out: &mut Effects,
        conn: u64,
        items: &[Item],
    ) -> Result<(), OutOfMemory>
        ensures { (g : Config) (K : List Mark) → Holds g K self.old →
            OnOk result (Did g (in_turn (at_place g conn) (map (λ a. Arrived a) (arrivals_in items.now)) K) K self.new
            out.old out.new) }
    {
        for item in items {
            self.arrive(out, conn, &item.what)?;
        }
        Ok(())
    }

    // A fault on a connection.
    fn fault(
        &mut self,
        out: &mut Effects,
        conn: u64,
        fault: Option<ZmtpFault>,
    ) -> Result<(), OutOfMemory>
        ensures { (g : Config) (K : List Mark) → Holds g K self.old →
            OnOk result (Did g (in_turn (at_place g conn) (fault_said fault) K) K self.new out.old out.new) }
    {
        let Some(fault) = fault else {
            return Ok(());
        };
        if self.standing(conn).is_none() {
            return Ok(());
        }
        self.end_run(out, conn, Cause::Fault)?;
        self.close(out, conn, CloseWhy::Zmtp(fault))
    }

    /// All that a piece completed of what its connection says: what is whole, in order, and the fault that ends it.
    pub fn said(
        &mut self,
        out: &mut Effects,
        conn: u64,
        items: &[Item],
        fault: Option<ZmtpFault>,
    ) -> Result<(), OutOfMemory>
        ensures { (g : Config) (K : List Mark) → Holds g K self.old →
            OnOk result (Did g (at_places g conn (said_in items.now fault) K) K self.new out.old out.new) }
    {
        self.arrive_all(out, conn, items)?;
        self.fault(out, conn, fault)
    }
}

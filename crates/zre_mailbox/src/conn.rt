//! One incoming connection.

ghost use Rattle.std.specs.Prelude.{◌≡◌, ℕ, ◌+◌, ◌≤◌, ◌<◌, true, false, List, [], ◌++◌, length, None, OnOk, IfErr};
ghost use Rattle.std.specs.Prelude.{is_err, Ok, IfOk};
ghost use Rattle.zre_values.specs.declared.limits.TheConstants.{MESSAGE_OCTETS, COMMAND_OCTETS};
ghost use Rattle.zre_values.specs.declared.peer_id.PeerId.{PeerId as PeerIdValue};
ghost use Rattle.zre_zmtp.specs.Reading.{Refuses, Adds};
ghost use Rattle.zre_zmtp.specs.Looks.{Looks, IsOpenTo};
ghost use Rattle.zre_zmtp.specs.Stream.{Whole};
ghost use Rattle.zre_zmtp.specs.declared.want.Want.TheVariants.{Dealer};
ghost use Rattle.zre_mailbox.specs.Talk.{arrivals_in, fault_in};
ghost use Rattle.zre_mailbox.specs.Conn.{conn_after, ignoring, is_ignored, is_spent, held_of, Hears};
ghost use Rattle.zre_mailbox.specs.Conn.{HearsOn, HearsLent, RefusesToHear};
ghost use Rattle.zre_mailbox.specs.declared.phase.Phase.TheVariants.{Spent as SpentPhase};

use crate::arrival::Arrivals;
use crate::phase::Phase;
use crate::taking::{known_after, take_items};
use std::alloc::Global;
use std::marker::{Brand, Model};
use std::sync::ledger::{Blank, Ledger};
use zre_values::{OutOfMemory, PeerId, take_apart};
use zre_zmtp::{Bodies, Came, Fed, FeedFault, Items, Reader, Steps, Want};

/// A connection that another node opened, read as a ROUTER: its other end has to be a DEALER whose identity is 01 and
/// the UUID of another node.
pub struct Conn {
    alloc: Global,
    phase: Phase,
    identity: Option<PeerId>,
}

impl Drop for Conn {
    fn drop(self) {
        take_apart!(self, Conn: alloc, phase, identity);
    }
}

impl Model for Conn {
    ghost use Rattle.zre_mailbox.specs.Conn.{ConnHearing};

    ghost Value = { ConnHearing };

    ghost view = { λ c. record { phase = c.phase; identity = c.identity } };
}

impl Conn {
    /// A connection of which no octet has come yet, to the node with this UUID.
    pub fn accept(alloc: Global, own: PeerId) -> Self
        ensures { result ≡ conn_after own [] }
    {
        Conn {
            alloc,
            phase: Phase::Live(Reader::wanting(alloc, Want::Dealer(own))),
            identity: None,
        }
    }

    /// Reads one more piece: what becomes whole with it is appended, and messages outside the grammar and commands
    /// other than PING are left out. A fault is told after the arrivals before it, and READY of another socket or
    /// without a good identity is one. After a refusal the connection is spent, and holds no octets; after
    /// OutOfMemory any of the arrivals may have been appended.
    pub fn feed(&mut self, piece: &[u8], out: &mut Arrivals) -> Fed
        // What a caller knows.
        requires heard { is_ignored self.old ≡ false }
        requires unspent { is_spent self.old ≡ false }
        // What the piece brings.
        ensures ok { HearsOn result self.old self.new piece.now out.old out.new }
        // What a refusal tells, and what it leaves.
        ensures refused { RefusesToHear result self.old self.new piece.now out.old out.new }
        ensures spent { is_spent self.new ≡ is_err result }
        ensures heard { is_ignored self.new ≡ false }
    {
        self.feed_from::<Brand>(piece, out, Blank::new(1))
    }

    // `feed_counted` with a counter of its own, for a caller that counts nothing.
    fn feed_from<L: Ledger>(&mut self, piece: &[u8], out: &mut Arrivals, blank: Blank) -> Fed
        // What a caller knows.
        requires heard { is_ignored self.old ≡ false }
        requires unspent { is_spent self.old ≡ false }
        // The counter isn't begun.
        requires blank { IsOpenTo L.name L.parts blank.name blank.parts }
        // What the piece brings.
        ensures ok { HearsOn result self.old self.new piece.now out.old out.new }
        // What a refusal tells, and what it leaves.
        ensures refused { RefusesToHear result self.old self.new piece.now out.old out.new }
        ensures spent { is_spent self.new ≡ is_err result }
        ensures heard { is_ignored self.new ≡ false }
    {
        let mut steps = Steps::<L>::new(blank);
        self.feed_counted(piece, out, &mut steps)
    }

    /// Reads one more piece as [`feed`](Conn::feed) does, and counts in `steps` how many octets are looked at: at most
    /// as many as the piece has.
    pub fn feed_counted<L: Ledger>(
        &mut self,
        piece: &[u8],
        out: &mut Arrivals,
        steps: &mut Steps<L>,
    ) -> Fed
        // What a caller knows.
        requires heard { is_ignored self.old ≡ false }
        requires unspent { is_spent self.old ≡ false }
        // How many octets are looked at.
        ensures once { steps.new ≤ steps.old + length piece.now }
        ensures looks { Looks steps.old steps.new (held_of self.old) (held_of self.new) (length piece.now) result }
        // What the piece brings.
        ensures ok { HearsOn result self.old self.new piece.now out.old out.new }
        // What a refusal tells, and what it leaves.
        ensures refused { RefusesToHear result self.old self.new piece.now out.old out.new }
        ensures spent { is_spent self.new ≡ is_err result }
        ensures heard { is_ignored self.new ≡ false }
    {
        let mut items = Items::new(self.alloc);
        let fed = self.feed_items(piece, &mut items, steps);
        match take_items(self.alloc, items.as_slice(), out) {
            Ok(()) => fed,
            Err(_) => {
                self.give_up();
                Err(FeedFault::OutOfMemory)
            }
        }
    }

    /// Reads one more piece, and appends the items that become whole with it to an empty list. What arrives with an
    /// item is what [`arrival_of`](crate::arrival_of) gives. The list can be cleared and used again. An error comes
    /// where [`feed`](Conn::feed) gives one.
    pub fn feed_items<L: Ledger>(
        &mut self,
        piece: &[u8],
        items: &mut Items,
        steps: &mut Steps<L>,
    ) -> Fed
        // What a caller knows.
        requires empty { items.old ≡ [] }
        requires heard { is_ignored self.old ≡ false }
        requires unspent { is_spent self.old ≡ false }
        // What the piece brings.
        ensures ok { (own : PeerIdValue) (o : List ℕ) → self.old ≡ conn_after own o →
            OnOk result ((fault_in own (o ++ piece.now) ≡ None)
            × Adds (Dealer own) Whole o piece.now items.old items.new
            × Hears own o piece.now self.new [] (arrivals_in items.new)) }
        // What a refusal tells, and what it leaves.
        ensures refused { (own : PeerIdValue) (o : List ℕ) → self.old ≡ conn_after own o →
            IfErr result (λ e. Refuses e (fault_in own (o ++ piece.now))
            (Adds (Dealer own) Whole o piece.now items.old items.new
            × Hears own o piece.now self.new [] (arrivals_in items.new))) }
        ensures spent { is_spent self.new ≡ is_err result }
        ensures heard { is_ignored self.new ≡ false }
        // How many octets are looked at.
        ensures once { steps.new ≤ steps.old + length piece.now }
        ensures looks { Looks steps.old steps.new (held_of self.old) (held_of self.new) (length piece.now) result }
    {
        let Phase::Live(reader) = &mut self.phase else {
            unreachable!();
        };
        let fed = reader.feed_counted(piece, items, steps);
        self.identity = known_after(self.identity, items.as_slice());
        match fed {
            Ok(()) => Ok(()),
            Err(fault) => {
                self.give_up();
                Err(fault)
            }
        }
    }

    /// Reads a piece that ends a message of one or two frames, and lends the message in place of an item; or a piece
    /// that is a part of one frame. Any other piece gives `Came::Other` and changes nothing.
    #[inline]
    pub fn take<'a, L: Ledger>(
        &mut self,
        piece: &'a [u8],
        bodies: &'a mut Bodies,
        steps: &mut Steps<L>,
    ) -> Result<Came<'a>, OutOfMemory>
        // What a caller knows.
        requires heard { is_ignored self.old ≡ false }
        requires unspent { is_spent self.old ≡ false }
        // What the piece brings.
        ensures taken { (own : PeerIdValue) (o : List ℕ) → self.old ≡ conn_after own o →
            IfOk result (λ came. HearsLent came own o piece.now self.old self.new) }
        ensures other { result ≡ Ok Came.Other → (self.new ≡ self.old) × (steps.new ≡ steps.old) }
        // How many octets are looked at.
        ensures once { steps.new ≤ steps.old + length piece.now }
        ensures looks { Looks steps.old steps.new (held_of self.old) (held_of self.new) (length piece.now) result }
    {
        let Phase::Live(reader) = &mut self.phase else {
            unreachable!();
        };
        reader.take(piece, bodies, steps)
    }

    // Drops the reader and its octets.
    fn give_up(&mut self)
        ensures { self.new ≡ record self.old { phase = SpentPhase } }
    {
        self.phase = Phase::Spent;
    }

    /// Ignores all that comes from now on, and drops the octets that are held. The identity stays.
    pub fn ignore(&mut self)
        ensures ignored { self.new ≡ ignoring self.old }
        ensures empty { held_of self.new ≡ 0 }
    {
        self.phase = Phase::Ignored;
    }

    /// How many octets are held: those of the bodies of an unfinished message, and those of an unfinished greeting or
    /// frame.
    pub fn kept(&self) -> u64
        ensures held { (own : PeerIdValue) (o : List ℕ) → self.now ≡ conn_after own o →
            (result ≡ held_of self.now) × (result ≤ MESSAGE_OCTETS + 9 + COMMAND_OCTETS) }
        ensures ignored { is_ignored self.now ≡ true → result ≡ 0 }
    {
        match &self.phase {
            Phase::Live(reader) => reader.kept(),
            Phase::Spent | Phase::Ignored => 0,
        }
    }

    /// The peer of the identity in READY, if READY was received.
    pub fn identity(&self) -> Option<PeerId>
        ensures { result ≡ self.now.identity }
    {
        self.identity
    }

    /// Whether the connection is ignored.
    pub fn ignored(&self) -> bool
        ensures { result ≡ is_ignored self.now }
    {
        matches!(&self.phase, Phase::Ignored)
    }

    /// Whether a piece was refused.
    pub fn spent(&self) -> bool
        ensures { result ≡ is_spent self.now }
    {
        match &self.phase {
            Phase::Live(reader) => reader.spent(),
            Phase::Spent => true,
            Phase::Ignored => false,
        }
    }
}

//! Pieces of connections.

ghost use Rattle.std.specs.Prelude.{◌≡◌, ◌≢◌, ℕ, List, [], ◌∷◌, IfOk, Ok, true, length, ◌+◌, ◌≤◌};
ghost use Rattle.zre_zmtp.specs.Looks.{Looks};
ghost use Rattle.zre_outside.specs.declared.entry.Entry.{Entry};
ghost use Rattle.zre_outside.specs.declared.entry.Input.TheVariants as input;
ghost use Rattle.zre_values.specs.declared.settings.Settings.{Settings as Config};
ghost use Rattle.zre_journal.specs.Chronicle.{Mark, Comes};
ghost use Rattle.zre_journal.specs.Heard.{newly_completed};
ghost use Rattle.zre_journal.specs.Held.{kept};
ghost use Rattle.zre_journal.specs.Arrivals.{at_places};
ghost use Rattle.zre_node.specs.Said.{said_in, ComesLent};
ghost use Rattle.zre_node.specs.Stands.{Holds, is_quiet};

use crate::tables::Tables;
use std::sync::ledger::Ledger;
use zre_values::OutOfMemory;
use zre_zmtp::{Bodies, Came, Items, Steps, ZmtpFault};

/// A piece that comes.
#[derive(Clone, Copy)]
pub struct Piece<'a> {
    /// The reading of the clock with it.
    pub at: u64,
    /// The connection that it is of, or the link that it is a reply on.
    pub from: u64,
    /// Its octets.
    pub bytes: &'a [u8],
}

impl Tables {
    /// The clock goes on to the reading of an entry.
    pub fn come(&mut self, at: u64)
        ensures { (g : Config) (H : List Mark) (e : Entry) → e.at ≡ at → is_quiet e.input ≡ true → Holds g H self.old →
            Holds g (Comes e ∷ H) self.new }
    {
        self.clock = at.max(self.clock);
    }

    /// The clock goes on, and a piece of a connection is taken where it lies, if it ends a message of one or two frames
    /// or is a part of a frame. Another piece changes nothing.
    #[inline(always)]
    pub fn come_lent<'a, L: Ledger>(
        &mut self,
        piece: Piece<'a>,
        bodies: &'a mut Bodies,
        steps: &mut Steps<L>,
    ) -> Result<Came<'a>, OutOfMemory>
        ensures came { (g : Config) (H : List Mark) (e : Entry) → e.at ≡ piece.entry.at
            → e.input ≡ input.Piece piece.entry.from piece.entry.bytes.now → Holds g H self.old →
            IfOk result (λ came. ComesLent came g H e piece.entry.from self.old self.new) }
        // How many octets are looked at.
        ensures other { result ≡ Ok Came.Other → steps.new ≡ steps.old }
        ensures once { steps.new ≤ steps.old + length piece.entry.bytes.now }
        ensures looks { (g : Config) (H : List Mark) (e : Entry) →
            e.input ≡ input.Piece piece.entry.from piece.entry.bytes.now → Holds g H self.old → result ≢ Ok Came.Other →
            Looks steps.old steps.new (kept g H) (kept g (Comes e ∷ H)) (length piece.entry.bytes.now) result }
    {
        match self.conns.take(piece.from, piece.bytes, bodies, steps)? {
            Came::Message(lent) => {
                self.clock = piece.at.max(self.clock);
                Ok(Came::Message(lent))
            }
            Came::Part => {
                self.clock = piece.at.max(self.clock);
                Ok(Came::Part)
            }
            Came::Other => Ok(Came::Other),
        }
    }

    /// The clock goes on, and a piece of a connection is read: what it completes of what that connection says goes into
    /// an empty list, and the fault that ends it, if there is one, comes back.
    pub fn come_piece<L: Ledger>(
        &mut self,
        piece: &Piece<'_>,
        items: &mut Items,
        steps: &mut Steps<L>,
    ) -> Result<Option<ZmtpFault>, OutOfMemory>
        // What is read.
        requires { items.old ≡ [] }
        ensures came { (g : Config) (H : List Mark) (e : Entry) → e.at ≡ piece.now.at
            → e.input ≡ input.Piece piece.now.from piece.now.bytes.now → Holds g H self.old →
            IfOk result (λ fault. Holds g (Comes e ∷ H) self.new
            × (at_places g piece.now.from (said_in items.new fault) (Comes e ∷ H)
            ≡ at_places g piece.now.from (newly_completed g.id piece.now.from H (Comes e ∷ H)) (Comes e ∷ H))) }
        // How many octets are looked at.
        ensures once { steps.new ≤ steps.old + length piece.now.bytes.now }
        ensures looks { (g : Config) (H : List Mark) (e : Entry) →
            e.input ≡ input.Piece piece.now.from piece.now.bytes.now → Holds g H self.old →
            Looks steps.old steps.new (kept g H) (kept g (Comes e ∷ H)) (length piece.now.bytes.now) result }
    {
        self.clock = piece.at.max(self.clock);
        self.conns.feed(piece.from, piece.bytes, items, steps)
    }
}

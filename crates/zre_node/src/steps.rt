//! Whole entries.

ghost use Rattle.std.specs.Prelude.{◌≡◌, List, [], true, false, OnOk, ◌+◌, ◌≤◌, length};
ghost use Rattle.zre_outside.specs.declared.entry.Entry.{Entry as EntryValue};
ghost use Rattle.zre_journal.specs.Endings.{is_end};
ghost use Rattle.zre_values.specs.declared.settings.Settings.{Settings as Config};
ghost use Rattle.zre_journal.specs.Chronicle.{Mark};
ghost use Rattle.zre_journal.specs.Happens.{at_input};
ghost use Rattle.zre_journal.specs.Commands.{at_stop};
ghost use Rattle.zre_node.specs.Brings.{octets_of};
ghost use Rattle.zre_node.specs.Journal.{Takes, TakesLooks, Took};
ghost use Rattle.zre_node.specs.Kinds.{is_incoming, is_piece, piece_entry};
ghost use Rattle.zre_node.specs.Stands.{Holds, Did};

use crate::effects::Effects;
use crate::incoming::hearing::Piece;
use crate::outgoing::links::note;
use crate::tables::Tables;
use std::sync::ledger::Ledger;
use zre_outside::{Command, Entry, Input};
use zre_values::OutOfMemory;
use zre_zmtp::{Bodies, Came, Items, Steps};

/// What becomes whole with a piece lies here: bodies that are lent, and items. The buffers serve again and again.
#[derive(Drop)]
pub struct Buffers {
    pub bodies: Bodies,
    pub items: Items,
}

impl Tables {
    // What a datagram, a connection that comes or goes, or an entry about a link but for replies brings.
    fn bring(&mut self, out: &mut Effects, input: Input) -> Result<(), OutOfMemory>
        ensures { (g : Config) (H K : List Mark) → is_incoming input ≡ true → Holds g K self.old →
            OnOk result (Did g (at_input g input H K) K self.new out.old out.new) }
    {
        match input {
            Input::Datagram { from, bytes } => self.datagram(out, from, bytes.as_slice()),
            Input::Opened { conn } => self.opened(out, conn),
            Input::Shut { conn } => self.shut(out, conn),
            other => self.bring_link(out, other),
        }
    }

    /// A datagram comes, a connection comes or goes, or a link stands, breaks, or has taken octets.
    #[inline(never)]
    pub fn take_incoming(
        &mut self,
        out: &mut Effects,
        at: u64,
        input: Input,
    ) -> Result<(), OutOfMemory>
        ensures { (g : Config) (H : List Mark) (e : EntryValue) → e.at ≡ at → e.input ≡ input
            → is_incoming input ≡ true →
            out.old.pushed ≡ [] → Holds g H self.old → OnOk result (Took g e H self.new out.old out.new) }
    {
        note(out, &input)?;
        self.come(at);
        self.bring(out, input)?;
        self.offer(out)
    }

    /// The node stops.
    #[inline(never)]
    pub fn take_stop(&mut self, out: &mut Effects, at: u64) -> Result<(), OutOfMemory>
        ensures { (g : Config) (H : List Mark) (e : EntryValue) → e.at ≡ at → is_end e.input ≡ true →
            Holds g H self.old → OnOk result (Took g e H self.new out.old out.new) }
    {
        self.come(at);
        self.stop(out)
    }

    /// What an entry other than a piece brings, where the node hasn't stopped.
    #[inline(never)]
    pub fn take_other<L: Ledger>(
        &mut self,
        out: &mut Effects,
        entry: Entry,
        steps: &mut Steps<L>,
    ) -> Result<(), OutOfMemory>
        // What the entry brings.
        requires { is_piece entry.input ≡ false }
        ensures took { Takes entry self.old self.new out.old out.new result }
        // How many octets are looked at.
        ensures once { steps.new ≤ steps.old + octets_of entry.input }
        ensures looks { TakesLooks entry self.old steps.old steps.new result }
    {
        let Entry { at, input } = entry;
        match input {
            Input::Reply { link, bytes } => {
                let reply = Piece {
                    at,
                    from: link,
                    bytes: bytes.as_slice(),
                };
                self.take_reply(out, &reply, steps)
            }
            Input::Tick => self.take_tick(out, at),
            Input::Do(Command::Quit) => self.take_stop(out, at),
            Input::Do(command) => self.take_command(out, at, command),
            Input::End => self.take_stop(out, at),
            other => self.take_incoming(out, at, other),
        }
    }

    /// What a piece of a connection brings, where the node hasn't stopped. What becomes whole with it lies in
    /// the buffers.
    pub fn take_piece<L: Ledger>(
        &mut self,
        out: &mut Effects,
        buffers: &mut Buffers,
        piece: &Piece<'_>,
        steps: &mut Steps<L>,
    ) -> Result<(), OutOfMemory>
        ensures took { Takes (piece_entry piece.now.at piece.now.from piece.now.bytes.now)
            self.old self.new out.old out.new result }
        ensures once { steps.new ≤ steps.old + length piece.now.bytes.now }
        ensures looks { TakesLooks (piece_entry piece.now.at piece.now.from piece.now.bytes.now)
            self.old steps.old steps.new result }
    {
        let lent = Piece {
            at: piece.at,
            from: piece.from,
            bytes: piece.bytes,
        };
        match self.come_lent(lent, &mut buffers.bodies, steps)? {
            Came::Message(bodies) => {
                self.said_lent(out, piece.from, &bodies)?;
                self.offer(out)
            }
            Came::Part => self.offer(out),
            Came::Other => self.take_fed(out, &mut buffers.items, piece, steps),
        }
    }

    // What another piece of a connection brings.
    #[inline(never)]
    fn take_fed<L: Ledger>(
        &mut self,
        out: &mut Effects,
        items: &mut Items,
        piece: &Piece<'_>,
        steps: &mut Steps<L>,
    ) -> Result<(), OutOfMemory>
        ensures took { Takes (piece_entry piece.now.at piece.now.from piece.now.bytes.now)
            self.old self.new out.old out.new result }
        ensures once { steps.new ≤ steps.old + length piece.now.bytes.now }
        ensures looks { TakesLooks (piece_entry piece.now.at piece.now.from piece.now.bytes.now)
            self.old steps.old steps.new result }
    {
        items.clear();
        let fault = self.come_piece(piece, items, steps)?;
        self.said(out, piece.from, items.as_slice(), fault)?;
        items.clear();
        self.offer(out)
    }
}

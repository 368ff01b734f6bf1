//! A move, whichever it is.

ghost use Rattle.std.specs.Prelude.{◌≡◌, ◌+◌, ◌++◌, ◌∷◌, [], List, length, IfOk};
ghost use Rattle.std.specs.Bool.{OnTrue};
ghost use Rattle.zre_net.specs.History.{Happening};
ghost use Rattle.zre_net.specs.declared.moves.Move.{Move as MoveValue};
ghost use Rattle.zre_net.specs.Comes.{history};
ghost use Rattle.zre_net.specs.Grammar.{has_room, is_good};
ghost use Rattle.zre_net.specs.Said.{told_by};
ghost use Rattle.zre_net.specs.Running.{StandsAfter, IsPlayed, IsTaken, HasRun};

use crate::limits::{PENDING_OCTETS, QUEUED_OCTETS};
use crate::moves::Move;
use crate::running::network::Network;
use crate::running::said::SaidEvents;
use std::mem;
use zre_journal::Config;
use zre_values::{OutOfMemory, Pairs};

impl Network {
    // A move comes. Answers whether it may, but for the octets.
    fn play(&mut self, one: Move) -> Result<bool, OutOfMemory>
        ensures { (H : List Happening) → StandsAfter H self.old → IfOk result (λ may. IsPlayed one H may self.new) }
    {
        match one {
            Move::Start {
                node,
                at,
                id,
                name,
                host,
                port,
            } => {
                let config = Config {
                    id,
                    name,
                    headers: Pairs::new(self.alloc),
                    host,
                    port,
                    evasive: 5000,
                    expired: 30000,
                };
                self.start(node, at, config)
            }
            Move::Crash { node } => self.crash(node),
            Move::Tick { node, at } => self.tick(node, at),
            Move::Do { node, at, command } => self.ask(node, at, command),
            Move::Beacon { beacon, node, at } => self.hear(beacon, node, at),
            Move::Open { link, node, at } => self.open(link, node, at),
            Move::Carry { conn, part } => self.carry(conn, part),
            Move::Piece { conn, count, at } => self.piece(conn, count, at),
            Move::Shut { conn, at } => self.shut(conn, at),
            Move::Linked { link, at } => self.linked(link, at),
            Move::Unlinked { link, at } => self.unlinked(link, at),
            Move::Reply { link, at, bytes } => self.reply(link, at, bytes),
            Move::Took { link, count, at } => self.took(link, count, at),
        }
    }

    // Whether there is room for all octets.
    fn has_room(&self) -> bool
        ensures { (H : List Happening) → StandsAfter H self.now → result ≡ has_room H }
    {
        self.queued <= QUEUED_OCTETS && self.pending <= PENDING_OCTETS
    }

    // A move comes. Answers whether it is within the grammar.
    fn advance(&mut self, one: Move) -> Result<bool, OutOfMemory>
        ensures { (H : List Happening) → StandsAfter H self.old → IfOk result (λ good. IsTaken one H good self.new) }
    {
        Ok(self.play(one)? && self.has_room())
    }

    // So many events are handed out in place of those that stand there.
    fn hand_out(&mut self, handed: u64, told: &mut SaidEvents)
        ensures told { told.new ≡ self.old.said }
        ensures left { (H : List Happening) → StandsAfter H self.old → handed ≡ self.old.handed + length self.old.said →
            StandsAfter H self.new × (self.new.said ≡ []) }
    {
        told.clear();
        mem::swap(&mut self.said, told);
        self.handed = handed;
    }

    /// A move comes, and what the nodes tell of it stands in `told` in place of what stood there. Answers whether the
    /// move is within the grammar of schedules: a node starts that doesn't run, with an identity of its own; what is
    /// named is there; and the octets of all messages, and those that connections have yet to hand in, are within
    /// their limits. Where it isn't, or no memory was left, nothing is known of the network any more.
    pub fn take(&mut self, one: Move, told: &mut SaidEvents) -> Result<bool, OutOfMemory>
        ensures good { (ms : List MoveValue) → HasRun ms self.old →
            IfOk result (λ good. good ≡ is_good one (history ms)) }
        ensures runs { (ms : List MoveValue) → HasRun ms self.old →
            IfOk result (λ good. OnTrue good (HasRun (ms ++ one ∷ []) self.new)) }
        ensures told { (ms : List MoveValue) → HasRun ms self.old →
            IfOk result (λ good. OnTrue good (told.new ≡ told_by one (history ms))) }
    {
        let before = self.handed;
        let good = self.advance(one)?;
        let Some(handed) = before.checked_add(self.said.len() as u64) else {
            return Err(OutOfMemory);
        };
        // No move hands out events.
        if self.handed == before {
            self.hand_out(handed, told);
            Ok(good)
        } else {
            Err(OutOfMemory)
        }
    }
}

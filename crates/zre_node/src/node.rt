//! A node.

ghost use Rattle.std.specs.Prelude.{◌≡◌, ◌↔◌, ◌<◌, List, [], ◌∷◌, ◌++◌, true, false, IfOk, OnOk, OnErr, IsErr, IsTrue};
ghost use Rattle.std.specs.Prelude.{◌+◌, ◌≤◌, length};
ghost use Rattle.zre_outside.specs.declared.entry.Entry.{Entry as EntryValue};
ghost use Rattle.zre_zmtp.specs.Looks.{IsOpenTo};
ghost use Rattle.zre_values.specs.declared.settings.Settings.{Settings as ConfigValue};
ghost use Rattle.zre_values.specs.Settings.{is_valid};
ghost use Rattle.zre_journal.specs.Events.{events};
ghost use Rattle.zre_journal.specs.Ledger.{KeepsLedgers};
ghost use Rattle.zre_node.specs.Brings.{octets_of};
ghost use Rattle.zre_node.specs.Journal.{is_spent, beginning, StandsFor, IsStep, StepsLooks};
ghost use Rattle.zre_node.specs.Kinds.{is_piece, piece_entry};

use crate::effects::{Effects, Step};
use crate::incoming::hearing::Piece;
use crate::steps::Buffers;
use crate::tables::Tables;
use std::alloc::Global;
use std::marker::Brand;
use std::sync::ledger::{Blank, Ledger};
use zre_group::Own;
use zre_journal::Config;
use zre_outside::{Entry, Input};
use zre_tables::{Conns, Peers};
use zre_values::{Endpoint, OutOfMemory, take_apart};
use zre_zmtp::{Bodies, Items, Steps as Counter};

/// A node of RFC 36, to which the entries of a journal are told one by one.
pub struct Node {
    pub(crate) tables: Tables,
    effects: Effects,
    buffers: Buffers,
    spent: bool,
}

// A derived drop would be inlined, field by field, wherever a node is let go; this one is called there.
impl Drop for Node {
    fn drop(self) {
        take_apart!(self, Node: tables, effects, buffers, spent);
    }
}

// An entry is let go. It stands apart, so that a step makes no room for that.
#[inline(never)]
fn let_go(_entry: Entry) {}

impl Node {
    /// A node before any entry. Its settings have to be valid ([`Config::valid`]).
    pub fn new(alloc: Global, config: Config) -> Result<Node, OutOfMemory>
        requires { is_valid config ≡ true }
        ensures { IfOk result (StandsFor config []) }
    {
        let mailbox = Endpoint {
            addr: config.host,
            port: config.port,
        };
        Ok(Node {
            tables: Tables {
                alloc,
                mailbox: mailbox.write(alloc)?,
                config,
                clock: 0,
                births: 0,
                last: None,
                peers: Peers::new(alloc),
                conns: Conns::new(alloc),
                own: Own::new(alloc),
                stopped: false,
            },
            effects: Effects::new(alloc),
            buffers: Buffers {
                bodies: Bodies::new(alloc),
                items: Items::new(alloc),
            },
            spent: false,
        })
    }

    /// One entry of the journal: what it tells, and what it asks of the outside. After a stop nothing has an effect.
    /// After `OutOfMemory` the node is spent: it answers that to every later entry.
    ///
    /// Where messages come from a sender's numbered list, each fewer than 65,536 places from the one due, a missing,
    /// repeated or reordered one ends its peer before anything later of it, and the next one is always counted, unless
    /// a limit of the view forbids it.
    pub fn step(&mut self, entry: Entry) -> Result<Step, OutOfMemory>
        // What the journal has more with the entry, and its ledgers.
        ensures steps { (g : ConfigValue) (J : List EntryValue) → StandsFor g J self.old →
            IfOk result (λ s. IsStep g J entry self.new s) }
        ensures ledgers { (g : ConfigValue) (J : List EntryValue) → StandsFor g J self.old →
            IfOk result (λ s. KeepsLedgers g (J ++ entry ∷ []) (events g J ++ s.events)) }
        // Without memory it is spent.
        ensures spent { IsTrue (is_spent self.new) ↔ IsErr result }
        ensures ended { IsTrue (is_spent self.old) → IsErr result }
    {
        let mut step = Step::new(self.tables.alloc);
        match self.step_into(entry, &mut step) {
            Ok(()) => Ok(step),
            Err(none) => Err(none),
        }
    }

    /// Takes an entry as `step` does. What it tells and asks for replaces what stands in a step, whose lists serve
    /// again and again.
    pub fn step_into(&mut self, entry: Entry, step: &mut Step) -> Result<(), OutOfMemory>
        // What the journal has more with the entry, and its ledgers.
        ensures steps { (g : ConfigValue) (J : List EntryValue) → StandsFor g J self.old →
            OnOk result (IsStep g J entry self.new step.new) }
        ensures ledgers { (g : ConfigValue) (J : List EntryValue) → StandsFor g J self.old →
            OnOk result (KeepsLedgers g (J ++ entry ∷ []) (events g J ++ step.new.events)) }
        // Without memory it is spent.
        ensures spent { IsTrue (is_spent self.new) ↔ IsErr result }
        ensures ended { IsTrue (is_spent self.old) → IsErr result }
    {
        self.step_from::<Brand>(entry, step, Blank::new(1))
    }

    /// `step`, with looks counted, as the readers of connections and of replies count them. Looks and three times what
    /// these readers keep rise by at most four for each octet of a piece or a reply, and not with other entries.
    pub fn step_counted<L: Ledger>(
        &mut self,
        entry: Entry,
        steps: &mut Counter<L>,
    ) -> Result<Step, OutOfMemory>
        // What the journal has more with the entry, and its ledgers.
        ensures steps { (g : ConfigValue) (J : List EntryValue) → StandsFor g J self.old →
            IfOk result (λ s. IsStep g J entry self.new s) }
        ensures ledgers { (g : ConfigValue) (J : List EntryValue) → StandsFor g J self.old →
            IfOk result (λ s. KeepsLedgers g (J ++ entry ∷ []) (events g J ++ s.events)) }
        // Without memory it is spent.
        ensures spent { IsTrue (is_spent self.new) ↔ IsErr result }
        ensures ended { IsTrue (is_spent self.old) → IsErr result }
        // Looks are paid for by the octets of the entry.
        ensures once { steps.new ≤ steps.old + octets_of entry.input }
        ensures looks { StepsLooks self.old entry steps.old steps.new result }
        ensures none { IsTrue (is_spent self.old) → steps.new ≡ steps.old }
    {
        let mut step = Step::new(self.tables.alloc);
        match self.step_into_counted(entry, &mut step, steps) {
            Ok(()) => Ok(step),
            Err(none) => Err(none),
        }
    }

    /// `step_into`, with looks counted.
    pub fn step_into_counted<L: Ledger>(
        &mut self,
        entry: Entry,
        step: &mut Step,
        steps: &mut Counter<L>,
    ) -> Result<(), OutOfMemory>
        // What the journal has more with the entry, and its ledgers.
        ensures steps { (g : ConfigValue) (J : List EntryValue) → StandsFor g J self.old →
            OnOk result (IsStep g J entry self.new step.new) }
        ensures ledgers { (g : ConfigValue) (J : List EntryValue) → StandsFor g J self.old →
            OnOk result (KeepsLedgers g (J ++ entry ∷ []) (events g J ++ step.new.events)) }
        // Without memory it is spent.
        ensures spent { IsTrue (is_spent self.new) ↔ IsErr result }
        ensures ended { IsTrue (is_spent self.old) → IsErr result }
        // Looks are paid for by the octets of the entry.
        ensures once { steps.new ≤ steps.old + octets_of entry.input }
        ensures looks { StepsLooks self.old entry steps.old steps.new result }
        ensures none { IsTrue (is_spent self.old) → steps.new ≡ steps.old }
    {
        let Entry { at, input } = entry;
        match input {
            Input::Piece { conn, bytes } => {
                let piece = Piece {
                    at,
                    from: conn,
                    bytes: bytes.as_slice(),
                };
                self.step_lent(&piece, step, steps)
            }
            other => self.step_other(Entry { at, input: other }, step, steps),
        }
    }

    // A piece of a connection, with looks counted.
    fn step_lent<L: Ledger>(
        &mut self,
        piece: &Piece<'_>,
        step: &mut Step,
        steps: &mut Counter<L>,
    ) -> Result<(), OutOfMemory>
        // What the journal has more with the entry.
        ensures steps { (g : ConfigValue) (J : List EntryValue) → StandsFor g J self.old →
            OnOk result (IsStep g J (piece_entry piece.now.at piece.now.from piece.now.bytes.now) self.new step.new) }
        // Without memory it is spent.
        ensures spent { IsTrue (is_spent self.new) ↔ IsErr result }
        ensures ended { IsTrue (is_spent self.old) → IsErr result }
        // Looks are paid for by the octets of the entry.
        ensures once { steps.new ≤ steps.old + length piece.now.bytes.now }
        ensures looks { StepsLooks self.old (piece_entry piece.now.at piece.now.from piece.now.bytes.now)
            steps.old steps.new result }
        ensures none { IsTrue (is_spent self.old) → steps.new ≡ steps.old }
    {
        self.begin()?;
        if !self.tables.stopped {
            self.tables
                .take_piece(&mut self.effects, &mut self.buffers, piece, steps)?;
        }
        self.finish(step);
        Ok(())
    }

    // Another entry, with looks counted. It stands apart, since a function begins by making room for all that it may
    // need, and most entries are pieces.
    #[inline(never)]
    fn step_other<L: Ledger>(
        &mut self,
        entry: Entry,
        step: &mut Step,
        steps: &mut Counter<L>,
    ) -> Result<(), OutOfMemory>
        // It is no piece.
        requires { is_piece entry.input ≡ false }
        // What the journal has more with the entry.
        ensures steps { (g : ConfigValue) (J : List EntryValue) → StandsFor g J self.old →
            OnOk result (IsStep g J entry self.new step.new) }
        // Without memory it is spent.
        ensures spent { IsTrue (is_spent self.new) ↔ IsErr result }
        ensures ended { IsTrue (is_spent self.old) → IsErr result }
        // Looks are paid for by the octets of the entry.
        ensures once { steps.new ≤ steps.old + octets_of entry.input }
        ensures looks { StepsLooks self.old entry steps.old steps.new result }
        ensures none { IsTrue (is_spent self.old) → steps.new ≡ steps.old }
    {
        let Ok(()) = self.begin() else {
            let_go(entry);
            return Err(OutOfMemory);
        };
        if self.tables.stopped {
            let_go(entry);
        } else {
            self.tables.take_other(&mut self.effects, entry, steps)?;
        }
        self.finish(step);
        Ok(())
    }

    // An entry comes. Until it is taken, the node counts as spent.
    #[inline(always)]
    fn begin(&mut self) -> Result<(), OutOfMemory>
        ensures ok { OnOk result ((is_spent self.old ≡ false) × (self.new ≡ beginning self.old)) }
        ensures err { OnErr result ((is_spent self.old ≡ true) × (self.new ≡ self.old)) }
    {
        if self.spent {
            return Err(OutOfMemory);
        }
        self.spent = true;
        self.effects.clear();
        Ok(())
    }

    // An entry was taken: what it tells and asks for is handed over.
    #[inline(always)]
    fn finish(&mut self, step: &mut Step)
        ensures node { (self.new.tables ≡ self.old.tables) × (is_spent self.new ≡ false) }
        ensures step { step.new ≡ record { events = self.old.effects.events; acts = self.old.effects.acts } }
    {
        self.spent = false;
        self.effects.hand_to(step);
    }

    /// `step_into` with a piece of a connection, which is lent: the same as with the entry that owns its octets.
    pub fn step_piece(
        &mut self,
        at: u64,
        conn: u64,
        bytes: &[u8],
        step: &mut Step,
    ) -> Result<(), OutOfMemory>
        // What the journal has more with the entry, and its ledgers.
        ensures steps { (g : ConfigValue) (J : List EntryValue) → StandsFor g J self.old →
            OnOk result (IsStep g J (piece_entry at conn bytes.now) self.new step.new) }
        ensures ledgers { (g : ConfigValue) (J : List EntryValue) → StandsFor g J self.old →
            OnOk result (KeepsLedgers g (J ++ piece_entry at conn bytes.now ∷ []) (events g J ++ step.new.events)) }
        // Without memory it is spent.
        ensures spent { IsTrue (is_spent self.new) ↔ IsErr result }
        ensures ended { IsTrue (is_spent self.old) → IsErr result }
    {
        let piece = Piece {
            at,
            from: conn,
            bytes,
        };
        self.step_lent_from::<Brand>(&piece, step, Blank::new(1))
    }

    // A lent piece, for a caller that counts nothing.
    fn step_lent_from<L: Ledger>(
        &mut self,
        piece: &Piece<'_>,
        step: &mut Step,
        blank: Blank,
    ) -> Result<(), OutOfMemory>
        // A count can begin.
        requires blank { IsOpenTo L.name L.parts blank.name blank.parts }
        // What the journal has more with the entry.
        ensures steps { (g : ConfigValue) (J : List EntryValue) → StandsFor g J self.old →
            OnOk result (IsStep g J (piece_entry piece.now.at piece.now.from piece.now.bytes.now) self.new step.new) }
        // Without memory it is spent.
        ensures spent { IsTrue (is_spent self.new) ↔ IsErr result }
        ensures ended { IsTrue (is_spent self.old) → IsErr result }
    {
        let mut steps = Counter::<L>::new(blank);
        self.step_lent(piece, step, &mut steps)
    }

    // `step_into_counted` with a counter of its own, for a caller that counts nothing.
    fn step_from<L: Ledger>(
        &mut self,
        entry: Entry,
        step: &mut Step,
        blank: Blank,
    ) -> Result<(), OutOfMemory>
        // A count can begin.
        requires blank { IsOpenTo L.name L.parts blank.name blank.parts }
        // What the journal has more with the entry.
        ensures steps { (g : ConfigValue) (J : List EntryValue) → StandsFor g J self.old →
            OnOk result (IsStep g J entry self.new step.new) }
        // Without memory it is spent.
        ensures spent { IsTrue (is_spent self.new) ↔ IsErr result }
        ensures ended { IsTrue (is_spent self.old) → IsErr result }
    {
        let mut steps = Counter::<L>::new(blank);
        self.step_into_counted(entry, step, &mut steps)
    }
}

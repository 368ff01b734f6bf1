//! The node goes through the journal.

ghost use Rattle.std.specs.Prelude.{◌≡◌, ◌≤◌, ◌+◌, ◌++◌, ◌∷◌, [], ℕ, List, OnOk};
ghost use Rattle.zre_capture.specs.Left.{left};
ghost use Rattle.zre_values.specs.declared.settings.Settings.{Settings as Config};
ghost use Rattle.zre_outside.specs.declared.entry.Entry.{Entry as EntryValue};
ghost use Rattle.zre_peer.specs.declared.event.Event.{Event as EventValue};
ghost use Rattle.zre_node.specs.Kinds.{piece_entry};
ghost use Rattle.zre_commands.specs.exercise.Counted.{Counted, Takes};
ghost use Rattle.zre_commands.specs.exercise.Counts.{tally};
ghost use Rattle.zre_commands.specs.exercise.Exercise.{text};

use crate::exercise::counts::Counts;
use crate::exercise::settings::settings;
use crate::exercise::text::push_counts;
use std::alloc::Global;
use zre_capture::Exercise;
use zre_node::{Node, Step};
use zre_outside::Entry;
use zre_values::{Octets, OutOfMemory};

/// A node that goes through a journal, and counts of what it tells. The step serves again and again.
#[derive(Drop)]
struct CountingNode {
    node: Node,
    counts: Counts,
    step: Step,
}

impl CountingNode {
    // The node takes an entry, and what it tells is counted.
    fn take(&mut self, entry: Entry) -> Result<(), OutOfMemory>
        ensures { (g : Config) (J : List EntryValue) → Counted g J self.old →
            OnOk result (Counted g (J ++ entry ∷ []) self.new) }
    {
        self.node.step_into(entry, &mut self.step)?;
        self.count()
    }

    // Takes a piece of a connection and counts what it brought.
    #[inline(always)]
    fn take_piece(&mut self, at: u64, conn: u64, bytes: &[u8]) -> Result<(), OutOfMemory>
        ensures { (g : Config) (J : List EntryValue) → Counted g J self.old →
            OnOk result (Counted g (J ++ piece_entry at conn bytes.now ∷ []) self.new) }
    {
        self.node.step_piece(at, conn, bytes, &mut self.step)?;
        self.count()
    }

    // What the node tells with an entry is counted.
    #[inline(always)]
    fn count(&mut self) -> Result<(), OutOfMemory>
        ensures { (n : ℕ) (before : List EventValue) → self.old.counts ≡ tally n before →
            OnOk result ((self.new.counts ≡ tally (n + 1) (before ++ self.old.step.events))
            × (self.new.node ≡ self.old.node)) }
    {
        self.counts.count_entry()?;
        self.counts.count_events(self.step.events.as_slice())
    }

    // The node takes the messages that come next.
    fn take_messages(&mut self, exercise: &mut Exercise) -> Result<(), OutOfMemory>
        ensures { OnOk result (Takes (left exercise.old) (left exercise.new) self.old self.new) }
    {
        'messages: while let Some(message) = exercise.next_message() {
            let (at, conn) = (message as u64, exercise.conn_of(message));
            self.take_piece(at, conn, exercise.first())?;
            self.take_piece(at, conn, exercise.second())?;
        }
        Ok(())
    }

    // The node takes all entries that are left.
    fn take_all(&mut self, exercise: &mut Exercise) -> Result<(), OutOfMemory>
        ensures { (g : Config) (J : List EntryValue) → Counted g J self.old →
            OnOk result (Counted g (J ++ left exercise.old) self.new) }
    {
        'entries: while let Some(entry) = exercise.next()? {
            self.take(entry)?;
            self.take_messages(exercise)?;
        }
        Ok(())
    }
}

/// Appends the summary of the exercise of this seed: a node takes its entries one by one, and no list of them is kept.
/// A count that would pass 64 bits counts as OutOfMemory. After an error a front of the summary may stand there.
pub fn push_summary(
    alloc: Global,
    out: &mut Octets,
    seed: u64,
    peers: u16,
    messages: u32,
) -> Result<(), OutOfMemory>
    // The bounds of an exercise.
    requires some { 1 ≤ peers }
    requires few { peers ≤ 256 }
    requires short { messages ≤ 1000000 }
    // What a call that is done gives.
    ensures { OnOk result (out.new ≡ out.old ++ text seed peers messages) }
{
    let mut run = CountingNode {
        node: Node::new(alloc, settings(alloc)?)?,
        counts: Counts::new(),
        step: Step::new(alloc),
    };
    let mut exercise = Exercise::new(alloc, seed, peers, messages);
    let taken = run.take_all(&mut exercise);
    drop(exercise);
    let CountingNode { node, counts, step } = run;
    drop(step);
    drop(node);
    match taken {
        Ok(()) => push_counts(out, &counts),
        Err(OutOfMemory) => Err(OutOfMemory),
    }
}

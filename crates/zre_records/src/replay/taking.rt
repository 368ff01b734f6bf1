//! Takes entries.

ghost use Rattle.std.specs.Prelude.{List, OnOk};
ghost use Rattle.zre_outside.specs.declared.entry.Entry.{Entry as EntryValue};
ghost use Rattle.zre_values.specs.declared.settings.Settings.{Settings as Config};
ghost use Rattle.zre_node.specs.Journal.{IsStep, StandsFor};
ghost use Rattle.zre_records.specs.replay.Taken.{Took};

use crate::replay::event_lines::EventLines;
use std::mem;
use zre_node::{Node, Step};
use zre_outside::{Entries, Entry, Input};
use zre_values::{Octets, OutOfMemory};

// The node takes an entry. A piece is lent to it; a tick stands in the place of another one then.
fn take(node: &mut Node, entry: &mut Entry, step: &mut Step) -> Result<(), OutOfMemory>
    ensures { (g : Config) (J : List EntryValue) → StandsFor g J node.old →
        OnOk result (IsStep g J entry.old node.new step.new) }
{
    if let Input::Piece { conn, bytes } = &entry.input {
        return node.step_piece(entry.at, *conn, bytes.as_slice(), step);
    }
    let tick = Entry {
        at: entry.at,
        input: Input::Tick,
    };
    node.step_into(mem::replace(entry, tick), step)
}

/// The node takes entries, one after the other. The list that is handed back has their memory.
pub(crate) fn take_entries(
    node: &mut Node,
    entries: Entries,
    out: &mut Octets,
) -> Result<Entries, OutOfMemory>
    ensures { (g : Config) (J : List EntryValue) → StandsFor g J node.old →
        OnOk result (Took g J entries node.new out.old out.new) }
{
    let mut items = entries.into_vec();
    let mut step = Step::new(*items.allocator());
    let mut teller = EventLines::new(*items.allocator());
    for entry in items.iter_mut() {
        take(node, entry, &mut step)?;
        teller.tell_all(step.events.as_slice(), out)?;
    }
    items.clear();
    Ok(Entries::from_vec(items))
}

//! Entries, and the writes that they bring.

ghost use Rattle.std.specs.Prelude.{List, [], ◌∷◌, ◌++◌, Option, OnOk};
ghost use Rattle.zre_outside.specs.declared.entry.Entry.{Entry as EntryValue};
ghost use Rattle.zre_values.specs.declared.settings.Settings.{Settings};
ghost use Rattle.zre_records.specs.table.Kept.{Gathered, GatheredIfAny};

use crate::table::taking::{take_events, take_shout};
use crate::table::told::{is_done, shout_of};
use std::alloc::Global;
use zre_node::Node;
use zre_outside::{Entries, Entry};
use zre_shared::Replica;
use zre_values::OutOfMemory;

// The node takes an entry, and the replica the frames of it for the group's table: those of the events, and those of a
// shout of the node's own that is done.
fn gather_entry(
    alloc: Global,
    node: &mut Node,
    replica: &mut Replica,
    group: &[u8],
    entry: Entry,
) -> Result<(), OutOfMemory>
    ensures { (g : Settings) (J : List EntryValue) → Gathered g group.now J node.old replica.old
        → OnOk result (Gathered g group.now (J ++ entry ∷ []) node.new replica.new) }
{
    let shout = shout_of(alloc, group, &entry.input)?;
    let stopped = node.stopped();
    let step = node.step(entry)?;
    let events = step.events.as_slice();
    take_events(replica, group, events)?;
    take_shout(replica, group, &shout, is_done(stopped, events))
}

// Gathers what entries bring, one after the other. The list that is handed back has their memory.
fn gather_entries(
    alloc: Global,
    node: &mut Node,
    replica: &mut Replica,
    group: &[u8],
    entries: Entries,
) -> Result<Entries, OutOfMemory>
    ensures { (g : Settings) (J : List EntryValue) → Gathered g group.now J node.old replica.old
        → OnOk result (Gathered g group.now (J ++ entries) node.new replica.new) }
{
    let mut items = entries.into_vec();
    for entry in items.drain(..) {
        gather_entry(alloc, node, replica, group, entry)?;
    }
    Ok(Entries::from_vec(items))
}

/// Gathers what entries bring at a node, if there is one.
pub(crate) fn gather_if_any(
    alloc: Global,
    node: &mut Option<Node>,
    replica: &mut Replica,
    group: &[u8],
    entries: Entries,
) -> Result<Entries, OutOfMemory>
    ensures { (told : Option Settings) (J : List EntryValue) → GatheredIfAny told group.now J node.old replica.old
        → OnOk result (GatheredIfAny told group.now (J ++ entries) node.new replica.new) }
{
    match node {
        Some(node) => gather_entries(alloc, node, replica, group, entries),
        None => Ok(entries),
    }
}

//! A capture of format 2 that is read in pieces, and the watch of its node.

ghost use Rattle.std.specs.Prelude.{◌≡◌, ℕ, List, [], ◌++◌, true, false, is_some, Option, IfOk, OnOk};
ghost use Rattle.zre_outside.specs.declared.entry.Entry.{Entry as EntryValue};
ghost use Rattle.zre_values.specs.declared.settings.Settings.{Settings as ConfigValue};
ghost use Rattle.zre_capture.specs.Journal.{bad};
ghost use Rattle.zre_capture.specs.declared.format.Format.TheVariants.{Second};
ghost use Rattle.zre_audit.specs.Watching.{Watches};
ghost use Rattle.zre_records.specs.audit.Watched.{Watched, IsWatched};

use crate::replay::headed::Headed;
use crate::replay::lives::LivedNode;
use std::alloc::Global;
use zre_audit::Watch;
use zre_journal::Config;
use zre_outside::Entries;
use zre_values::OutOfMemory;

impl LivedNode for Watch {
    ghost stands = { λ g J w. Watches g J w };

    fn begin(alloc: Global, config: Config) -> Result<Watch, OutOfMemory> {
        Watch::new(alloc, config)
    }
}

// The watch takes entries, one after the other. The list that is handed back has their memory.
fn watch_entries(watch: &mut Watch, entries: Entries) -> Result<Entries, OutOfMemory>
    ensures { (g : ConfigValue) (J : List EntryValue) → Watches g J watch.old
        → OnOk result (Watches g (J ++ entries) watch.new) }
{
    let mut items = entries.into_vec();
    for entry in items.drain(..) {
        watch.step(entry)?;
    }
    Ok(Entries::from_vec(items))
}

// Tells entries to a watch, if there is one.
fn watch_if_any(watch: &mut Option<Watch>, entries: Entries) -> Result<Entries, OutOfMemory>
    ensures { (told : Option ConfigValue) (J : List EntryValue) → IsWatched told J watch.old
        → OnOk result (IsWatched told (J ++ entries) watch.new) }
{
    match watch {
        Some(watch) => watch_entries(watch, entries),
        None => Ok(entries),
    }
}

/// Reads a piece, and tells the watch the entries of the lines that are whole by it.
pub(crate) fn take(watched: &mut Headed<Watch>, piece: &[u8]) -> Result<(), OutOfMemory>
    ensures { (o : List ℕ) → Watched watched.old o → is_some (bad Second o) ≡ false
        → OnOk result (Watched watched.new (o ++ piece.now)) }
{
    let entries = watched.read(piece)?;
    let emptied = watch_if_any(&mut watched.made, entries)?;
    watched.pieces.give_back(emptied);
    Ok(())
}

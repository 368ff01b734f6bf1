//! Writes entries in format 2.

ghost use Rattle.std.specs.Prelude.{◌≡◌, List, IfOk};
ghost use Rattle.zre_capture.specs.Journal.{last_reading};
ghost use Rattle.zre_records.specs.upgrade.Written.{Wrote};
ghost use Rattle.zre_outside.specs.declared.entry.Entry.{Entry as EntryValue};

use zre_capture::push_entry2;
use zre_outside::Entry;
use zre_values::{Octets, OutOfMemory};

/// Appends the lines of entries after others, of which the last has the reading before. Gives the reading of the last
/// of these.
pub(crate) fn push_entries(
    out: &mut Octets,
    before: u64,
    entries: &[Entry],
) -> Result<u64, OutOfMemory>
    ensures { (J : List EntryValue) → before ≡ last_reading 0 J →
        IfOk result (λ at. Wrote J entries.now at out.old out.new) }
{
    let mut at = before;
    for entry in entries {
        push_entry2(out, at, entry)?;
        at = entry.at;
    }
    Ok(at)
}

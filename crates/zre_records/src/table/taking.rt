//! Frames of content, taken into a replica.

ghost use Rattle.std.specs.Prelude.{ℕ, List, [], ◌++◌, flat_map, if◌then◌else◌, OnOk};
ghost use Rattle.std.specs.Option.{option_map_or};
ghost use Rattle.zre_records.specs.table.Kept.{Keeps};
ghost use Rattle.zre_records.specs.table.Writes.{frames_told as told, frames_asked as asked};

use crate::table::told::{frames_asked, frames_told};
use zre_outside::Command;
use zre_peer::Event;
use zre_shared::Replica;
use zre_values::{Octets, OutOfMemory};

/// Takes frames, one after the other.
pub(crate) fn take_frames(replica: &mut Replica, frames: &[Octets]) -> Result<(), OutOfMemory>
    ensures { (fs : List (List ℕ)) → Keeps fs replica.old → OnOk result (Keeps (fs ++ frames.now) replica.new) }
{
    for frame in frames {
        let _is_write = replica.take(frame.as_slice())?;
    }
    Ok(())
}

/// Takes the frames that events bring to the node's own table or to the group's, one after the other.
pub(crate) fn take_events(
    replica: &mut Replica,
    group: &[u8],
    events: &[Event],
) -> Result<(), OutOfMemory>
    ensures { (fs : List (List ℕ)) → Keeps fs replica.old
        → OnOk result (Keeps (fs ++ flat_map (told group.now) events.now) replica.new) }
{
    for event in events {
        take_frames(replica, frames_told(group, event))?;
    }
    Ok(())
}

/// Takes the frames of a shout to the group, where there is one and it is done.
pub(crate) fn take_shout(
    replica: &mut Replica,
    group: &[u8],
    shout: &Option<Command>,
    is_done: bool,
) -> Result<(), OutOfMemory>
    ensures { (fs : List (List ℕ)) → Keeps fs replica.old → OnOk result
        (Keeps (fs ++ (if is_done then option_map_or (asked group.now) shout.now [] else [])) replica.new) }
{
    match shout {
        Some(command) if is_done => take_frames(replica, frames_asked(group, command)),
        _ => Ok(()),
    }
}

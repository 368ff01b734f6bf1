//! Laws of what commands make of captures and of schedules. The functions do nothing: what they ensure is for proofs.

ghost use Rattle.zre_records.specs.Laws.{AuditsSayYes, CapturesAreReplayed, SchedulesAgree, UpgradedIsReplayed};

/// A replay without words of a capture of format 2 writes the lines of the events of its journal, where no line of it
/// is too long to be read.
pub fn captures_are_replayed()
    ensures { CapturesAreReplayed }
{}

/// A replay without words of what `upgrade` writes, but for a line that tells where its input is bad, writes the lines
/// of the events of the journal of that input. No line that `upgrade` writes is too long.
pub fn upgraded_captures_are_replayed()
    ensures { UpgradedIsReplayed }
{}

/// The nodes of a schedule that `simulate` doesn't refuse agree, and what it writes are the lines of what they tell:
/// where messages came within the window, what a node shows of another is what that one was as it queued the last of
/// them.
pub fn schedules_agree()
    ensures { SchedulesAgree }
{}

/// Of two captures that it doesn't refuse `audit` writes `AUDIT yes` exactly where their journals agree: where what
/// each node heard in a run of the other is the beginning of what the other put on a link, on another one for each run.
pub fn audits_say_yes_where_journals_agree()
    ensures { AuditsSayYes }
{}

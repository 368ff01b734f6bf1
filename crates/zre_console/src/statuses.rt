//! How all of it ended, from how its parts ended.

ghost use Rattle.std.specs.Prelude.{◌≡◌, ◌∷◌, []};
ghost use Rattle.zre_console.specs.Statuses.{rank, least, of_read, of_print, of_work, of_thread, of_fault};

use crate::reader::InputEnd;
use zre_actor::Ending;
use zre_commands::pump::Status;
use zre_outside::NextFault;

// In which place a status stands where several have occurred.
fn rank(status: Status) -> u8
    ensures { result ≡ rank status }
{
    match status {
        Status::OutOfMemory => 0,
        Status::Done => 11,
        other => other.code(),
    }
}

/// The first of two.
pub fn first(a: Status, b: Status) -> Status
    ensures { result ≡ least (a ∷ b ∷ []) }
{
    if rank(a) <= rank(b) { a } else { b }
}

/// What a refusal of the outside comes to, where its failing is this status.
pub fn of_fault(fault: NextFault, failed: Status) -> Status
    ensures { result ≡ of_fault fault failed }
{
    match fault {
        NextFault::Failed => failed,
        NextFault::OutOfMemory => Status::OutOfMemory,
    }
}

/// What the end of an input comes to.
pub fn of_read(end: InputEnd) -> Status
    ensures { result ≡ of_read end }
{
    match end {
        InputEnd::Quit | InputEnd::AtEnd | InputEnd::Over => Status::Done,
        InputEnd::ReadFault => Status::ReadFault,
        InputEnd::TooLong => Status::TooLong,
        InputEnd::OutOfMemory => Status::OutOfMemory,
    }
}

// What a fault of the printer, if there was one, comes to.
fn of_print(fault: Option<NextFault>) -> Status
    ensures { result ≡ of_print fault }
{
    match fault {
        None => Status::Done,
        Some(fault) => of_fault(fault, Status::WriteFault),
    }
}

// What the end of the node's thread comes to.
fn of_work(ending: Ending) -> Status
    ensures { result ≡ of_work ending }
{
    match ending {
        Ending::Stopped => Status::Done,
        Ending::WorldFault => Status::WorldFault,
        Ending::RecordFault => Status::WriteFault,
        Ending::TooLong => Status::TooLong,
        Ending::OutOfMemory => Status::OutOfMemory,
    }
}

// What the refusal of a thread comes to.
fn of_thread(refused: bool) -> Status
    ensures { result ≡ of_thread refused }
{
    if refused {
        Status::NoThread
    } else {
        Status::Done
    }
}

// The status where these are how the reading, the printing, the node's work and the starts ended.
pub(crate) fn status_of(
    read: Status,
    fault: Option<NextFault>,
    ending: Ending,
    refused: bool,
) -> Status
    ensures { result ≡ least (read ∷ of_print fault ∷ of_work ending ∷ of_thread refused ∷ []) }
{
    let last = first(of_work(ending), of_thread(refused));
    first(read, first(of_print(fault), last))
}

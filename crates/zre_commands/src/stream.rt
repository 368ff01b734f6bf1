//! A stream of ZMTP that is read in pieces.

ghost use Rattle.std.specs.Prelude.{◌≡◌, ◌++◌, ◌&&◌, ℕ, List, [], false, not, length, is_some, if◌then◌else◌};
ghost use Rattle.std.specs.Prelude.{IfOk, OnOk};
ghost use Rattle.zre_zmtp.specs.Reading.{Reads};
ghost use Rattle.zre_zmtp.specs.Stream.{Kind};
ghost use Rattle.zre_zmtp.specs.declared.want.Want.TheVariants.{Any};
ghost use Rattle.zre_commands.specs.Stream.{HasRead, ReadPiece, bad_end, is_bad};
ghost use Rattle.zre_commands.specs.pump.Meaning.{stops};

use crate::pump::{Going, push_bad_line};
use zre_values::{Octets, OutOfMemory};
use zre_zmtp::{FeedFault, Items, Reader, ZmtpFault};

/// Reads a piece. Gives the fault that is found, if one is.
pub(crate) fn read_piece(
    reader: &mut Reader,
    piece: &[u8],
    items: &mut Items,
) -> Result<Option<ZmtpFault>, OutOfMemory>
    requires { reader.old.spent ≡ false }
    ensures { (kind : Kind) (o : List ℕ) → Reads Any kind o reader.old →
        IfOk result (λ found. ReadPiece kind o piece.now found reader.new items.old items.new) }
{
    match reader.feed(piece, items) {
        Ok(()) => Ok(None),
        Err(FeedFault::Zmtp(fault)) => Ok(Some(fault)),
        Err(FeedFault::OutOfMemory) => Err(OutOfMemory),
    }
}

/// Whether more octets may be read: a fault stops the stream, unless what follows isn't examined.
pub(crate) fn going_after(fault: &Option<ZmtpFault>, is_over: bool) -> Going
    ensures { stops result ≡ (not is_over && is_some fault.now) }
{
    if is_over || fault.is_none() {
        Going::On
    } else {
        Going::Stop
    }
}

/// Takes the end of a stream of so many octets, and appends the line that tells where it is bad. Says whether it is.
pub(crate) fn push_end(
    reader: &Reader,
    fault: Option<ZmtpFault>,
    taken: u64,
    out: &mut Octets,
) -> Result<bool, OutOfMemory>
    ensures bad { (kind : Kind) (o : List ℕ) → HasRead kind o fault reader.now →
        IfOk result (λ bad. bad ≡ is_bad kind o) }
    ensures ending { (kind : Kind) (o : List ℕ) → HasRead kind o fault reader.now → length o ≡ taken →
        OnOk result (out.new ≡ out.old ++ (if is_bad kind o then bad_end kind o else [])) }
{
    match fault {
        Some(fault) => push_bad_line(out, fault.place)?,
        None if reader.at_rest() => return Ok(false),
        None => push_bad_line(out, taken)?,
    }
    Ok(true)
}

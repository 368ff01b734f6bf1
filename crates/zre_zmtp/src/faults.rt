//! What is wrong at the front of a part: in the octets of a greeting, or in the header of a frame.

ghost use Rattle.std.specs.Prelude.{◌≡◌, ◌&&◌, ℕ, List, Some, nat_le, length};
ghost use Rattle.std.specs.Option.{option_or};
ghost use Rattle.zre_zmtp.specs.Frame.{flags as flags_of, size as size_of, has_header, header_of};
ghost use Rattle.zre_zmtp.specs.Stream.{once, flags_fault, size_fault, octet_fault};
ghost use Rattle.zre_zmtp.specs.Shown.{before_of, header_fault};

use crate::expected::Expected;
use crate::fault::ZmtpWhy;
use crate::header::{Header, is_message, read_header};
use crate::progress::Progress;
use zre_values::limits::{COMMAND_OCTETS, MESSAGE_FRAMES, MESSAGE_OCTETS};

/// Octets of a greeting.
pub const GREETING_OCTETS: usize = 64;

const MECHANISM: [u8; 20] = [
    b'N', b'U', b'L', b'L', 0, 0, 0, 0, 0, 0, 0, 0, 0, 0, 0, 0, 0, 0, 0, 0,
];

/// What is wrong with an octet of a greeting at its place.
pub fn fault_of_octet(i: usize, octet: u8) -> Option<ZmtpWhy>
    ensures { result ≡ octet_fault i octet }
{
    if i == 0 && octet != 255 || i == 9 && octet != 127 {
        return Some(ZmtpWhy::Signature);
    }
    if i == 10 && octet < 3 {
        return Some(ZmtpWhy::OldVersion);
    }
    if 12 <= i && i < 32 && octet != MECHANISM[i - 12] {
        return Some(ZmtpWhy::Mechanism);
    }
    None
}

#[inline(always)]
fn fault_of_flags(progress: &Progress, flags: u8) -> Option<ZmtpWhy>
    ensures { result ≡ flags_fault (before_of progress.now) flags }
{
    if flags > 4 && flags != 6 {
        return Some(ZmtpWhy::Flags);
    }
    if is_message(flags) && progress.expected == Expected::Ready {
        return Some(ZmtpWhy::Order);
    }
    if is_message(flags) && progress.opened.len() >= MESSAGE_FRAMES {
        return Some(ZmtpWhy::TooManyFrames);
    }
    None
}

#[inline(always)]
fn fault_of_size(progress: &Progress, flags: u8, size: u64) -> Option<ZmtpWhy>
    ensures { result ≡ size_fault (before_of progress.now) flags size }
{
    let total = progress.opened.octets().saturating_add(size);
    if is_message(flags) && total > MESSAGE_OCTETS as u64 {
        return Some(ZmtpWhy::TooLarge);
    }
    if !is_message(flags) && size > COMMAND_OCTETS as u64 {
        return Some(ZmtpWhy::TooLarge);
    }
    None
}

/// What is wrong with the header of a frame, where all of it is there.
#[inline(always)]
pub fn fault_of_whole(progress: &Progress, header: Header) -> Option<ZmtpWhy>
    ensures { (o : List ℕ) → header_of o ≡ Some header → result ≡ header_fault (before_of progress.now) o }
{
    match fault_of_flags(progress, header.flags) {
        Some(why) => Some(why),
        None => fault_of_size(progress, header.flags, header.size),
    }
}

/// What is wrong with the header of a frame, or with what is there of it.
pub fn fault_of_header(progress: &Progress, octets: &[u8]) -> Option<ZmtpWhy>
    ensures { result ≡ header_fault (before_of progress.now) octets.now }
{
    if octets.is_empty() {
        return None;
    }
    match read_header(octets) {
        Some(header) => fault_of_whole(progress, header),
        None => fault_of_flags(progress, octets[0]),
    }
}

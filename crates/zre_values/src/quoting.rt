//! The quoted text of octets, in which every event and every capture is written.

ghost use Rattle.std.specs.Prelude.{◌≡◌, ◌<◌, ◌≤◌, ◌+◌, ◌*◌, ◌++◌, [], ◌∷◌, flat_map, length, take, IfOk, OnOk};
ghost use Rattle.std.specs.List.{list_all};
ghost use Rattle.zre_values.specs.Text.{hex_digit, is_plain, quoted_octet, quoted, quoted_list, quoted_pair};
ghost use Rattle.zre_values.specs.Text.{quoted_pairs};

use crate::quoted_table::row_of;
use crate::{Frames, Octets, OutOfMemory, Pairs};
use std::alloc::Global;

#[inline]
pub(crate) fn is_plain(octet: u8) -> bool
    ensures { result ≡ is_plain octet }
{
    (b'!' <= octet)
        & (octet <= b'~')
        & (octet != b'%')
        & (octet != b'~')
        & (octet != b'=')
        & (octet != b',')
}

pub(crate) fn are_plain(bytes: &[u8]) -> bool
    ensures { result ≡ list_all is_plain bytes.now }
{
    bytes.iter().all(|octet| is_plain(*octet))
}

/// How many octets are quoted in one go. Room is made for three times as many.
pub(crate) const CHUNK: usize = 1_024;

// Writes the text of an octet at a place, and gives the place after it. Four octets are written whichever it is, so
// that no jump depends on the octet, and in one go.
#[inline(always)]
fn write_octet(text: &mut [u8], at: usize, octet: u8) -> usize
    // What a caller knows.
    requires { at + 4 ≤ length text.old }
    // What is written, and how far.
    ensures text { take result text.new ≡ take at text.old ++ quoted_octet octet }
    ensures place { result ≤ at + 3 }
    ensures size { length text.new ≡ length text.old }
{
    let row = row_of(octet);
    let room = &mut text[at..at + 4];
    room.copy_from_slice(&row);
    at + row[3] as usize
}

/// Writes the texts of octets at a place, and gives the place after them.
#[inline]
pub(crate) fn write_octets(text: &mut [u8], at: usize, bytes: &[u8]) -> usize
    // There is room for the longest text of each octet, and one octet more.
    requires { at + 3 * length bytes.now + 1 ≤ length text.old }
    // What is written, and where it ends.
    ensures text { take result text.new ≡ take at text.old ++ flat_map quoted_octet bytes.now }
    ensures place { result ≤ at + 3 * length bytes.now }
    ensures size { length text.new ≡ length text.old }
{
    let mut end = at;
    for octet in bytes {
        end = write_octet(text, end, *octet);
    }
    end
}

/// Appends the quoted text of some octets. After an error a front of it may stand there.
pub fn push_quoted(out: &mut Octets, bytes: &[u8]) -> Result<(), OutOfMemory>
    ensures { OnOk result (out.new ≡ out.old ++ quoted bytes.now) }
{
    if bytes.is_empty() {
        return out.push(b'~');
    }
    if bytes.len() <= CHUNK {
        return out.append_quoted(bytes);
    }
    let mut rest = bytes;
    while !rest.is_empty() {
        let (front, later) = rest.split_at(rest.len().min(CHUNK));
        out.append_quoted(front)?;
        rest = later;
    }
    Ok(())
}

/// Appends some octets as they are, the quoted text of others, and one octet. After an error a front of it may stand
/// there.
#[inline]
pub fn push_field(
    out: &mut Octets,
    before: &[u8],
    field: &[u8],
    after: u8,
) -> Result<(), OutOfMemory>
    ensures { OnOk result (out.new ≡ out.old ++ before.now ++ quoted field.now ++ after ∷ []) }
{
    if field.is_empty() || field.len() > CHUNK || before.len() > CHUNK {
        return push_rare_field(out, before, field, after);
    }
    out.append_field(before, field, after)
}

// A field that is empty or long.
#[inline(never)]
fn push_rare_field(
    out: &mut Octets,
    before: &[u8],
    field: &[u8],
    after: u8,
) -> Result<(), OutOfMemory>
    ensures { OnOk result (out.new ≡ out.old ++ before.now ++ quoted field.now ++ after ∷ []) }
{
    out.append(before)?;
    push_quoted(out, field)?;
    out.push(after)
}

/// Appends the quoted members of a list, joined by commas. After an error a front of it may stand there.
pub fn push_quoted_list(out: &mut Octets, list: &[Octets]) -> Result<(), OutOfMemory>
    ensures { OnOk result (out.new ≡ out.old ++ quoted_list list.now) }
{
    let Some((first, others)) = list.split_first() else {
        return out.push(b'%');
    };
    push_quoted(out, first.as_slice())?;
    for frame in others {
        out.push(b',')?;
        push_quoted(out, frame.as_slice())?;
    }
    Ok(())
}

/// Appends the quoted texts of frames.
pub fn push_quoted_frames(out: &mut Octets, frames: &Frames) -> Result<(), OutOfMemory>
    ensures { OnOk result (out.new ≡ out.old ++ quoted_list frames.now) }
{
    push_quoted_list(out, frames.as_slice())
}

fn push_pair(out: &mut Octets, name: &[u8], value: &[u8]) -> Result<(), OutOfMemory>
    ensures { OnOk result (out.new ≡ out.old ++ quoted_pair (name.now, value.now)) }
{
    push_quoted(out, name)?;
    out.push(b'=')?;
    push_quoted(out, value)
}

/// Appends the quoted members of a dictionary, joined by commas. After an error a front of it may stand there.
pub fn push_quoted_pairs(out: &mut Octets, pairs: &Pairs) -> Result<(), OutOfMemory>
    ensures { OnOk result (out.new ≡ out.old ++ quoted_pairs pairs.now) }
{
    let Some((first, others)) = pairs.as_slice().split_first() else {
        return out.push(b'%');
    };
    push_pair(out, first.0.as_slice(), first.1.as_slice())?;
    for pair in others {
        out.push(b',')?;
        push_pair(out, pair.0.as_slice(), pair.1.as_slice())?;
    }
    Ok(())
}

/// The quoted text of some octets.
pub fn quote(alloc: Global, bytes: &[u8]) -> Result<Octets, OutOfMemory>
    ensures { IfOk result (λ text. text ≡ quoted bytes.now) }
{
    let mut text = Octets::new(alloc);
    push_quoted(&mut text, bytes)?;
    Ok(text)
}

//! Lines of pieces and of ticks, which most lines are: read in one pass, where the general reading cuts fields first.

ghost use Rattle.std.specs.Prelude.{◌≡◌, ◌<◌, [], ◌∷◌, ◌++◌, decimal, codes, IfSome, IfOk, OnErr, MatchOption, Some};
ghost use Rattle.zre_outside.specs.declared.entry.Entry.{Entry as EntryValue};
ghost use Rattle.zre_capture.specs.Lines.{reading_text};
ghost use Rattle.zre_capture.specs.Reading.{entry_of};

use crate::format::Format;
use crate::hexadecimal::hex;
use std::alloc::Global;
use zre_outside::{Entries, Entry, Input};
use zre_values::OutOfMemory;

// More digits after the first, up to nineteen in all, which is as many as fit.
#[inline(always)]
fn more_digits(first: u64, later: &[u8]) -> (u64, &[u8])
    requires some { 0 < first }
    requires digit { first < 10 }
    ensures { decimal result.0 ++ result.1.now ≡ decimal first ++ later.now }
{
    let most = later.len().min(18);
    let mut n = first;
    let mut i: usize = 0;
    'digits: while i < most {
        let octet = later[i];
        if !octet.is_ascii_digit() {
            break 'digits;
        }
        n = n * 10 + u64::from(octet - b'0');
        i += 1;
    }
    let (_, rest) = later.split_at(i);
    (n, rest)
}

// A number at the beginning of a text, and what stands after it, which may be more digits.
#[inline(always)]
fn first_number(text: &[u8]) -> Option<(u64, &[u8])>
    ensures { IfSome result (λ p. text.now ≡ decimal p.0 ++ p.1.now) }
{
    let (first, later) = text.split_first()?;
    if !first.is_ascii_digit() {
        return None;
    }
    if *first == b'0' {
        return Some((0, later));
    }
    Some(more_digits(u64::from(*first - b'0'), later))
}

// The reading of a line, where it isn't less than the one before, and what stands after it.
#[inline(always)]
fn first_reading(format: Format, before: u64, text: &[u8]) -> Option<(u64, &[u8])>
    ensures { IfSome result (λ p. text.now ≡ reading_text format before p.0 ++ p.1.now) }
{
    let (n, rest) = first_number(text)?;
    match format {
        Format::First => Some((n, rest)),
        Format::Second => Some((before.checked_add(n)?, rest)),
    }
}

// The connection of a piece, and the field of its octets.
#[inline(always)]
fn piece_fields(text: &[u8]) -> Option<(u64, &[u8])>
    ensures { IfSome result (λ p. text.now ≡ codes " piece " ++ (decimal p.0 ++ (32 ∷ p.1.now))) }
{
    let [b' ', b'p', b'i', b'e', b'c', b'e', b' ', fields @ ..] = text else {
        return None;
    };
    let (conn, rest) = first_number(fields)?;
    let [b' ', octets @ ..] = rest else {
        return None;
    };
    Some((conn, octets))
}

/// Reads the line of a piece or of a tick, and gives its reading. It gives nothing where it can't tell the entry; then
/// the line may be that of one all the same.
#[inline(always)]
pub(crate) fn read_direct(
    alloc: Global,
    format: Format,
    before: u64,
    text: &[u8],
    out: &mut Entries,
) -> Result<Option<u64>, OutOfMemory>
    ensures read { IfOk result (λ at. MatchOption at (out.new ≡ out.old)
        (λ at. (e : EntryValue) × (entry_of format before text.now ≡ Some e) × (out.new ≡ out.old ++ e ∷ [])
        × (at ≡ e.at))) }
    ensures unchanged { OnErr result (out.new ≡ out.old) }
{
    let Some((at, rest)) = first_reading(format, before, text) else {
        return Ok(None);
    };
    if rest == b" tick".as_slice() {
        out.push(Entry {
            at,
            input: Input::Tick,
        })?;
        return Ok(Some(at));
    }
    let Some((conn, octets)) = piece_fields(rest) else {
        return Ok(None);
    };
    let Some(bytes) = hex(alloc, octets)? else {
        return Ok(None);
    };
    out.push(Entry {
        at,
        input: Input::Piece { conn, bytes },
    })?;
    Ok(Some(at))
}

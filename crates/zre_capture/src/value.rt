//! The values of fields.

ghost use Rattle.std.specs.Prelude.{◌≡◌, ◌==◌, ◌≤◌, ◌∷◌, is_some, length, option_map, IfOk, IfSome};
ghost use Rattle.std.specs.List.{count_by};
ghost use Rattle.zre_capture.specs.Values.{number_of, number_within, reading_after, reading_of, address_of, id_of};
ghost use Rattle.zre_capture.specs.Values.{group_of, short_of};

use crate::format::Format;
use std::alloc::Global;
use zre_values::{Octets, OutOfMemory, PeerId, is_quoted, read_address, read_decimal, unquote};

/// A number in decimal digits, without a sign or leading zeros.
pub fn number(field: &[u8]) -> Option<u64>
    ensures { result ≡ number_of field.now }
{
    let n = read_decimal(field)?;
    Some(n)
}

/// The decimal number of a field, if it is one within these bounds.
pub(crate) fn number_within(least: u64, most: u64, field: &[u8]) -> Option<u64>
    ensures number { result ≡ number_within least most field.now }
    ensures above { IfSome result (λ n. least ≤ n) }
    ensures below { IfSome result (λ n. n ≤ most) }
{
    let n = number(field)?;
    if n < least {
        return None;
    }
    if most < n {
        return None;
    }
    Some(n)
}

// The reading that is this much less.
fn reading_less(before: u64, digits: &[u8]) -> Option<u64>
    ensures { result ≡ reading_after before (45 ∷ digits.now) }
{
    let n = number(digits)?;
    if n == 0 {
        return None;
    }
    if before < n {
        return None;
    }
    Some(before - n)
}

/// The reading of the clock that differs by a field from the one before.
pub(crate) fn reading_after(before: u64, field: &[u8]) -> Option<u64>
    ensures { result ≡ reading_after before field.now }
{
    let (first, digits) = field.split_first()?;
    if *first == b'-' {
        return reading_less(before, digits);
    }
    before.checked_add(number(field)?)
}

/// The reading that the first field of a line tells.
pub(crate) fn reading(format: Format, before: u64, field: &[u8]) -> Option<u64>
    ensures { result ≡ reading_of format before field.now }
{
    match format {
        Format::First => number(field),
        Format::Second => reading_after(before, field),
    }
}

/// An address `a.b.c.d`.
pub fn address(field: &[u8]) -> Option<[u8; 4]>
    ensures { result ≡ address_of field.now }
{
    let host = read_address(field)?;
    Some(host)
}

/// The identity of thirty-two digits `0` to `9` and `A` to `F`.
pub fn id(field: &[u8]) -> Option<PeerId>
    ensures { result ≡ id_of field.now }
{
    PeerId::read_plain(field)
}

/// Whether the field is a group. It takes no memory.
pub fn is_group(field: &[u8]) -> bool
    ensures { result ≡ is_some (group_of field.now) }
{
    is_quoted(field)
}

fn percents(field: &[u8]) -> usize
    ensures { result ≡ count_by (λ b. b == 37) field.now }
{
    field.iter().filter(|octet| **octet == b'%').count()
}

/// How many octets a quoted text stands for. It takes no memory.
pub(crate) fn quoted_len(field: &[u8]) -> Option<usize>
    ensures { result ≡ option_map (λ v. length v) (group_of field.now) }
{
    if !is_group(field) {
        return None;
    }
    if field == b"~".as_slice() {
        return Some(0);
    }
    Some(field.len() - 2 * percents(field))
}

/// Whether the field is the quoted text of so many octets at the most. It takes no memory.
pub(crate) fn is_short(most: usize, field: &[u8]) -> bool
    ensures { result ≡ is_some (short_of most field.now) }
{
    match quoted_len(field) {
        Some(len) => len <= most,
        None => false,
    }
}

/// The octets of a quoted text of so many octets at the most. A field that is none takes no memory.
pub(crate) fn short(alloc: Global, most: usize, field: &[u8]) -> Result<Option<Octets>, OutOfMemory>
    ensures { IfOk result (λ found. found ≡ short_of most field.now) }
{
    if is_short(most, field) {
        group(alloc, field)
    } else {
        Ok(None)
    }
}

/// The octets of a group, whose text is quoted. A field that is none takes no memory.
pub fn group(alloc: Global, field: &[u8]) -> Result<Option<Octets>, OutOfMemory>
    ensures { IfOk result (λ found. found ≡ group_of field.now) }
{
    if is_group(field) {
        unquote(alloc, field)
    } else {
        Ok(None)
    }
}

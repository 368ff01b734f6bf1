//! Octets in their hexadecimal text.

ghost use Rattle.std.specs.Prelude.{◌≡◌, ◌<◌, ◌+◌, ◌*◌, ◌≤◌, ◌==◌, ◌%◌, ◌&&◌, ◌++◌, if◌then◌else◌};
ghost use Rattle.std.specs.Prelude.{Some, None, nat_lt, length, is_some, IfOk, OnOk};
ghost use Rattle.std.specs.List.{list_all};
ghost use Rattle.hex.specs.Hex.{encode_lower};
ghost use Rattle.zre_capture.specs.DigitTable.{pair_row};
ghost use Rattle.zre_capture.specs.Lines.{hex_text};
ghost use Rattle.zre_capture.specs.Values.{hex_of, is_lower_digit};

use crate::digit_table::digit_row;
use hex::encode_to_slice;
use std::alloc::Global;
use zre_values::{Octets, OutOfMemory};

/// As many octets as are turned into digits in one go.
const TURN: usize = 256;

/// As many octets as need no memory.
const FEW: usize = 32;

// Two digits for each of a few octets.
fn push_turn(out: &mut Octets, bytes: &[u8]) -> Result<(), OutOfMemory>
    requires { length bytes.now ≤ 256 }
    ensures { OnOk result (out.new ≡ out.old ++ encode_lower bytes.now) }
{
    let mut buffer = [0u8; 2 * TURN];
    let digits = &mut buffer[..2 * bytes.len()];
    match encode_to_slice(bytes, digits) {
        Ok(()) => out.append(digits),
        Err(_) => unreachable!(),
    }
}

fn push_digits(out: &mut Octets, bytes: &[u8]) -> Result<(), OutOfMemory>
    ensures { OnOk result (out.new ≡ out.old ++ encode_lower bytes.now) }
{
    let mut rest = bytes;
    while !rest.is_empty() {
        let (front, after) = rest.split_at(rest.len().min(TURN));
        push_turn(out, front)?;
        rest = after;
    }
    Ok(())
}

/// Appends two digits for each octet, or `-` for no octets. After an error a front of that may stand there.
pub fn push_hex(out: &mut Octets, bytes: &[u8]) -> Result<(), OutOfMemory>
    ensures { OnOk result (out.new ≡ out.old ++ hex_text bytes.now) }
{
    if bytes.is_empty() {
        return out.push(b'-');
    }
    push_digits(out, bytes)
}

// Without a jump, so that many octets are tested in one go.
#[inline]
fn is_digit(octet: u8) -> bool
    ensures { result ≡ is_lower_digit octet }
{
    ((b'0' <= octet) & (octet <= b'9')) | ((b'a' <= octet) & (octet <= b'f'))
}

// The loop goes on after another octet, which costs less than to stop at it.
fn are_digits(field: &[u8]) -> bool
    ensures { result ≡ list_all is_lower_digit field.now }
{
    let mut all = true;
    for octet in field {
        all &= is_digit(*octet);
    }
    all
}

// Whether two digits stand for each of some octets.
fn are_pairs(field: &[u8]) -> bool
    ensures { result ≡ ((length field.now % 2 == 0)
        && (nat_lt 0 (length field.now) && list_all is_lower_digit field.now)) }
{
    field.len() % 2 == 0 && !field.is_empty() && are_digits(field)
}

/// Whether the field is octets in hexadecimal digits. It takes no memory.
#[tactic(auto, using(crate::proofs::HexPairs::is_hex_test))]
pub fn is_hex(field: &[u8]) -> bool
    ensures { result ≡ is_some (hex_of field.now) }
{
    field == b"-".as_slice() || are_pairs(field)
}

// The octet of the pair of digits at this place, or a greater number where they aren't both digits.
#[inline(always)]
fn pair(digits: &[u8], i: usize) -> u16
    requires { 2 * i + 1 < length digits.now }
    ensures { result ≡ pair_row digits.now i }
{
    16 * digit_row(digits[2 * i]) + digit_row(digits[2 * i + 1])
}

// The octets of pairs of digits. Whether all are digits: the loops go on after another octet, which costs less than to
// stop at it.
fn decode(buffer: &mut [u8], digits: &[u8]) -> bool
    requires two { length digits.now ≡ 2 * length buffer.old }
    requires some { 0 < length buffer.old }
    ensures { (if result then Some buffer.new else None) ≡ hex_of digits.now }
{
    let mut all: u16 = 0;
    let mut i: usize = 0;
    'fours: while 4 <= buffer.len() - i {
        let first = pair(digits, i);
        let second = pair(digits, i + 1);
        let third = pair(digits, i + 2);
        let fourth = pair(digits, i + 3);
        all = all | first | second | third | fourth;
        buffer[i] = (first % 256) as u8;
        buffer[i + 1] = (second % 256) as u8;
        buffer[i + 2] = (third % 256) as u8;
        buffer[i + 3] = (fourth % 256) as u8;
        i += 4;
    }
    'pairs: while i < buffer.len() {
        let octet = pair(digits, i);
        all |= octet;
        buffer[i] = (octet % 256) as u8;
        i += 1;
    }
    all < 256
}

// Of few octets, which need no memory.
#[inline(always)]
fn decode_few(alloc: Global, digits: &[u8]) -> Result<Option<Octets>, OutOfMemory>
    // What a caller knows.
    requires even { length digits.now % 2 ≡ 0 }
    requires some { 0 < length digits.now }
    requires few { length digits.now ≤ 64 }
    // What a call that is done gives.
    ensures { IfOk result (λ found. found ≡ hex_of digits.now) }
{
    let mut buffer = [0u8; FEW];
    let octets = &mut buffer[..digits.len() / 2];
    if !decode(octets, digits) {
        return Ok(None);
    }
    Ok(Some(Octets::copy(alloc, octets)?))
}

#[inline(never)]
fn decode_many(alloc: Global, digits: &[u8]) -> Result<Option<Octets>, OutOfMemory>
    requires even { length digits.now % 2 ≡ 0 }
    requires some { 0 < length digits.now }
    ensures { IfOk result (λ found. found ≡ hex_of digits.now) }
{
    let mut octets = vec![in alloc; 0u8; digits.len() / 2]?;
    if !decode(octets.as_mut_slice(), digits) {
        return Ok(None);
    }
    Ok(Some(Octets::from_vec(octets)))
}

/// The octets of a field. Up to 32 need no memory; more take it before their digits are looked at.
#[inline(always)]
pub fn hex(alloc: Global, field: &[u8]) -> Result<Option<Octets>, OutOfMemory>
    ensures { IfOk result (λ found. found ≡ hex_of field.now) }
{
    if field == b"-".as_slice() {
        return Ok(Some(Octets::new(alloc)));
    }
    if field.is_empty() || field.len() % 2 != 0 {
        return Ok(None);
    }
    if field.len() <= 2 * FEW {
        return decode_few(alloc, field);
    }
    decode_many(alloc, field)
}

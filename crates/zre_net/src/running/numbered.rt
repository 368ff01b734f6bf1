//! Messages, and the octets in which their numbers stand.

ghost use Rattle.std.specs.Prelude.{◌≡◌, ◌%◌, ◌++◌, List as Values, ℕ, IfOk, IfSome};
ghost use Rattle.std.specs.Bool.{OnTrue};
ghost use Rattle.std.specs.Int.{w16, to_be_bytes};
ghost use Rattle.zre_net.specs.Texts.{has_number, numbered};

use bytes::Bytes;
use std::alloc::Global;
use zre_values::OutOfMemory;

// The two octets of the number of a message.
fn number_octets(number: u64) -> [u8; 2]
    ensures { result ≡ to_be_bytes w16 (number % 65536) }
{
    ((number % 65536) as u16).to_be_bytes()
}

// Whether the number of a message stands in a text.
fn has_number(octets: &[u8], at: u8) -> bool
    ensures { result ≡ has_number (record { octets = octets.now; at = at }) }
{
    0 < at && at as usize + 2 <= octets.len()
}

/// Whether the number of a message stands in what its text begins with, or nowhere.
pub(crate) fn is_in_head(head: &[u8], at: u8) -> bool
    ensures { OnTrue result ((number : ℕ) → (rest : Values ℕ) →
        numbered number (record { octets = head.now ++ rest; at = at })
        ≡ numbered number (record { octets = head.now; at = at }) ++ rest) }
{
    at == 0 || at as usize + 2 <= head.len()
}

/// What comes after these octets, where octets begin with them.
pub(crate) fn after<'a>(octets: &'a [u8], front: &[u8]) -> Option<&'a [u8]>
    ensures { IfSome result (λ rest. front.now ++ rest.now ≡ octets.now) }
{
    if octets.len() < front.len() {
        return None;
    }
    let (head, rest) = octets.split_at(front.len());
    if head == front { Some(rest) } else { None }
}

/// What comes after a text with this number, where a message begins with it.
pub(crate) fn after_numbered<'a>(
    message: &'a [u8],
    octets: &[u8],
    at: u8,
    number: u64,
) -> Option<&'a [u8]>
    ensures { IfSome result (λ rest.
        numbered number (record { octets = octets.now; at = at }) ++ rest.now ≡ message.now) }
{
    if !has_number(octets, at) {
        return after(message, octets);
    }
    let at = at as usize;
    let own = number_octets(number);
    let later = after(message, &octets[..at])?;
    let last = after(later, &own)?;
    after(last, &octets[at + 2..])
}

/// Whether a message with this number has this text.
pub(crate) fn is_numbered(octets: &[u8], at: u8, number: u64, message: &[u8]) -> bool
    ensures { OnTrue result (numbered number (record { octets = octets.now; at = at }) ≡ message.now) }
{
    match after_numbered(message, octets, at, number) {
        Some(rest) => rest.is_empty(),
        None => false,
    }
}

/// After how many octets the number of a message stands in it, as ZRE is framed in ZMTP: after flags, a size of one
/// octet or of eight, signature, command and version. 0 where this number isn't there.
pub(crate) fn place_of_number(message: &[u8], number: u64) -> u8
    ensures { numbered number (record { octets = message.now; at = result }) ≡ message.now }
{
    let at = match message.first() {
        Some(flags) if *flags >= 2 => 13,
        _ => 6,
    };
    if is_numbered(message, at, number, message) {
        at
    } else {
        0
    }
}

/// The octets of a text with this number, and where they end: all of it, where the number doesn't stand in it.
pub(crate) fn write(alloc: Global, octets: &[u8], at: u8, number: u64) -> Result<Bytes, OutOfMemory>
    ensures { IfOk result (λ b. b ≡ numbered number (record { octets = octets.now; at = at })) }
{
    if !has_number(octets, at) {
        return Ok(Bytes::copy_from_slice(alloc, octets)?);
    }
    let at = at as usize;
    let mut message = Vec::with_capacity(alloc, octets.len())?;
    message.extend_from_slice(&octets[..at])?;
    message.extend_from_slice(&number_octets(number))?;
    message.extend_from_slice(&octets[at + 2..])?;
    Ok(Bytes::from_vec(message)?)
}

/// A text with this number: what ends with the number, and what comes after it, which is shared.
pub(crate) fn share(
    alloc: Global,
    text: &Bytes,
    at: u8,
    number: u64,
) -> Result<(Bytes, Bytes), OutOfMemory>
    ensures { IfOk result (λ s. s.0 ++ s.1 ≡ numbered number (record { octets = text.now; at = at })) }
{
    let mut shared = text.clone()?;
    if !has_number(text.as_slice(), at) {
        return Ok((Bytes::new(), shared));
    }
    let at = at as usize;
    let mut own = Vec::with_capacity(alloc, at + 2)?;
    own.extend_from_slice(&text.as_slice()[..at])?;
    own.extend_from_slice(&number_octets(number))?;
    shared.advance(at + 2);
    Ok((Bytes::from_vec(own)?, shared))
}

//! Octets read back from their quoted text.

ghost use Rattle.std.specs.Prelude.{◌≡◌, ℕ, ◌<◌, ◌^◌, [], ◌∷◌, ◌++◌, List, length, All, IfOk, IfSome, IsSomeAnd};
ghost use Rattle.std.specs.Prelude.{IsTrue, ◌↔◌, Some, flat_map};
ghost use Rattle.std.specs.List.{list_all};
ghost use Rattle.zre_values.specs.Text.{hex_digit, is_plain, quoted_octet, quoted};

use crate::quoting::{are_plain, is_plain};
use crate::{Octets, OutOfMemory};
use std::alloc::Global;

// The number below sixteen that an upper-case digit stands for.
fn digit_value(digit: u8) -> Option<u8>
    ensures value { IfSome result (λ n. (n < 16) × (digit ≡ hex_digit n)) }
    ensures back { (n : ℕ) → n < 16 → digit ≡ hex_digit n → result ≡ Some n }
{
    match digit {
        b'0'..=b'9' => Some(digit - b'0'),
        b'A'..=b'F' => Some(digit - b'A' + 10),
        _ => None,
    }
}

// The octet that two digits stand for, unless it stands for itself.
fn escaped(high: u8, low: u8) -> Option<u8>
    ensures value { IfSome result (λ b. quoted_octet b ≡ 37 ∷ high ∷ low ∷ []) }
    ensures back { (b : ℕ) → b < 2 ^ 8 → quoted_octet b ≡ 37 ∷ high ∷ low ∷ [] → result ≡ Some b }
{
    let octet = digit_value(high)? * 16 + digit_value(low)?;
    if is_plain(octet) { None } else { Some(octet) }
}

// The octet whose two digits stand at the front, after a `%`.
fn octet_after(text: &[u8]) -> Option<(u8, &[u8])>
    ensures value { IfSome result (λ x. 37 ∷ text.now ≡ quoted_octet x.0 ++ x.1.now) }
    ensures back { (b : ℕ) (y : List ℕ) → b < 2 ^ 8 → 37 ∷ text.now ≡ quoted_octet b ++ y
        → IsSomeAnd result (λ x. (x.0 ≡ b) × (x.1.now ≡ y)) }
{
    let [high, low, ..] = text else { return None };
    let octet = escaped(*high, *low)?;
    let (_, rest) = text.split_at(2);
    Some((octet, rest))
}

// The octet whose quoted text stands at the front, and what stands after that.
fn octet_at(text: &[u8]) -> Option<(u8, &[u8])>
    // The octet, and what is left.
    ensures octet { IfSome result (λ x. x.0 < 2 ^ 8) }
    ensures value { IfSome result (λ x. text.now ≡ quoted_octet x.0 ++ x.1.now) }
    ensures shorter { IfSome result (λ x. length x.1.now < length text.now) }
    // Its text.
    ensures back { (b : ℕ) (y : List ℕ) → b < 2 ^ 8 → text.now ≡ quoted_octet b ++ y
        → IsSomeAnd result (λ x. (x.0 ≡ b) × (x.1.now ≡ y)) }
{
    let (first, rest) = text.split_first()?;
    if *first == b'%' {
        return octet_after(rest);
    }
    if is_plain(*first) {
        Some((*first, rest))
    } else {
        None
    }
}

// Octets whose quoted texts stand one after the other.
fn unquote_octets(alloc: Global, text: &[u8]) -> Result<Option<Octets>, OutOfMemory>
    ensures value { IfOk result (λ found. IfSome found (λ octets. text.now ≡ flat_map quoted_octet octets)) }
    ensures back { (v : List ℕ) → All (λ b. b < 2 ^ 8) v → text.now ≡ flat_map quoted_octet v
        → IfOk result (λ found. found ≡ Some v) }
{
    let mut octets = Octets::new(alloc);
    let mut rest = text;
    'octets: while !rest.is_empty() {
        let Some((octet, later)) = octet_at(rest) else {
            return Ok(None);
        };
        octets.push(octet)?;
        rest = later;
    }
    Ok(Some(octets))
}

/// Reads octets from the text that [`quote`](crate::quote) gives them, or tells that no octets have this text. Each
/// octet has one text alone: `%41`, `%7e` and a bare `=` or `,` are none.
pub fn unquote(alloc: Global, text: &[u8]) -> Result<Option<Octets>, OutOfMemory>
    ensures value { IfOk result (λ found. IfSome found (λ octets. text.now ≡ quoted octets)) }
    ensures back { (v : List ℕ) → All (λ b. b < 2 ^ 8) v → text.now ≡ quoted v
        → IfOk result (λ found. found ≡ Some v) }
{
    if text.is_empty() {
        return Ok(None);
    }
    if text == b"~".as_slice() {
        return Ok(Some(Octets::new(alloc)));
    }
    if are_plain(text) {
        return Ok(Some(Octets::copy(alloc, text)?));
    }
    unquote_octets(alloc, text)
}

// Whether quoted texts of octets stand one after the other.
fn are_quoted_octets(text: &[u8]) -> bool
    ensures { IsTrue result ↔ ((v : List ℕ) × All (λ b. b < 2 ^ 8) v × (text.now ≡ flat_map quoted_octet v)) }
{
    let mut rest = text;
    'octets: while !rest.is_empty() {
        let Some((_, later)) = octet_at(rest) else {
            return false;
        };
        rest = later;
    }
    true
}

/// Whether some octets have this quoted text, that is, whether [`unquote`] finds them. It takes no memory.
pub fn is_quoted(text: &[u8]) -> bool
    ensures { IsTrue result ↔ ((v : List ℕ) × All (λ b. b < 2 ^ 8) v × (text.now ≡ quoted v)) }
{
    !text.is_empty() && (text == b"~".as_slice() || are_quoted_octets(text))
}

/// A law, for callers that compare quoted texts in place of octets: no two lists of octets have the same one.
#[inline]
pub fn octets_are_quoted_once()
    ensures { (u v : List ℕ) → All (λ b. b < 2 ^ 8) u → All (λ b. b < 2 ^ 8) v
        → quoted u ≡ quoted v → v ≡ u }
{}

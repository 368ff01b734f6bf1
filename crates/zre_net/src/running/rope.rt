//! Long texts, in parts. HELLOs that differ in a few groups share the parts in which they don't.

ghost use Rattle.std.specs.Prelude.{◌≡◌, ◌<◌, ◌≤◌, ◌++◌, length, take, IfOk, IfSome};
ghost use Rattle.std.specs.Bool.{OnTrue};
ghost use Rattle.zre_net.specs.Lists.{joined};
ghost use Rattle.zre_net.specs.Texts.{numbered};

use crate::running::numbered::{after, after_numbered, is_in_head, share};
use crate::running::spelling::Spelling;
use bytes::Bytes;
use std::alloc::Global;
use std::marker::Model;
use zre_values::{List, OutOfMemory, take_apart};

/// A part has so many octets at least, but for the last ones, and twice or three times as many in the mean.
const LEAST: usize = 256;

/// Among so many parts of another text one is looked for. Groups keep their order, so it is missed only where as many
/// parts before it have changed.
const NEAR: usize = 64;

/// The last parts may end where a longer text goes on: what comes after the groups, and the groups before it.
const OPEN: usize = 2;

/// A text: what it begins with, and the parts that come after it. They are shared with those who have them too.
pub(crate) struct Rope {
    head: Bytes,
    parts: List<Bytes>,
}

impl Drop for Rope {
    fn drop(self) {
        take_apart!(self, Rope: head, parts);
    }
}

impl Model for Rope {
    ghost use Rattle.std.specs.Prelude.{◌++◌, ℕ, List};
    ghost use Rattle.zre_net.specs.Lists.{joined};

    ghost Value = { List ℕ };

    ghost view = { λ r. r.head ++ joined r.parts };
}

// How many octets a string has after its length, and these four; or 0, where octets don't begin with a string.
fn string_len(octets: &[u8]) -> usize
    ensures { result ≤ length octets.now }
{
    if octets.len() < 4 {
        return 0;
    }
    let (size, rest) = octets.split_at(4);
    let count = u32::from_be_bytes([size[0], size[1], size[2], size[3]]) as usize;
    if count <= rest.len() { count + 4 } else { 0 }
}

// Whether a part may end after this string, as one may after `2 * LEAST` octets in the mean. The string alone decides:
// so parts end at the same strings again, soon after strings that differ.
fn may_end(string: &[u8]) -> bool {
    let mut sum = 0u32;
    for octet in string {
        sum = sum.wrapping_mul(31).wrapping_add(*octet as u32);
    }
    let picked = sum.wrapping_mul(0x9E37_79B1) >> 23;
    (picked as usize) < string.len()
}

// How many octets the first part of these has: strings, as a HELLO has its groups, or what comes after all strings.
fn part_len(octets: &[u8]) -> usize
    ensures few { result ≤ length octets.now }
    ensures some { 0 < length octets.now → 0 < result }
{
    let mut count = 0;
    'strings: while count < octets.len() {
        let size = string_len(&octets[count..]);
        if size == 0 {
            return if count == 0 { octets.len() } else { count };
        }
        let end = count + size;
        if end >= LEAST && may_end(&octets[count..end]) {
            return end;
        }
        count = end;
    }
    count
}

// Where what comes before the groups of a HELLO ends, in a frame of ZMTP with a size of eight octets: after the
// endpoint and the number of groups.
fn head_len(message: &[u8]) -> usize
    ensures { result ≤ length message.now }
{
    let endpoint = match message.get(15) {
        Some(size) => *size as usize,
        None => 0,
    };
    message.len().min(20 + endpoint)
}

// The first of some parts that is these octets, and its place.
fn find<'a>(parts: &'a [Bytes], octets: &[u8]) -> Option<(usize, &'a Bytes)>
    ensures { IfSome result (λ r. (r.0 < length parts.now) × (r.1.now ≡ octets.now)) }
{
    for (place, part) in parts.iter().enumerate() {
        if part.as_slice() == octets {
            return Some((place, part));
        }
    }
    None
}

// The first of the parts from this place on that is these octets, among so many that it costs little, and its place.
fn find_near<'a>(parts: &'a [Bytes], from: usize, octets: &[u8]) -> Option<(usize, &'a Bytes)>
    ensures { IfSome result (λ r. (r.0 < length parts.now) × (r.1.now ≡ octets.now)) }
{
    let from = from.min(parts.len());
    let (_, later) = parts.split_at(from);
    let (near, _) = later.split_at(later.len().min(NEAR));
    let (place, part) = find(near, octets)?;
    Some((from + place, part))
}

// The first part of these octets, and the place after it: the part at this place among those of another text, or one
// soon after it, or a copy.
fn first_part(
    alloc: Global,
    octets: &[u8],
    parts: &[Bytes],
    place: usize,
) -> Result<(Bytes, usize), OutOfMemory>
    ensures is { IfOk result (λ r. r.0 ≡ take (length r.0) octets.now) }
    ensures few { IfOk result (λ r. length r.0 ≤ length octets.now) }
    ensures some { 0 < length octets.now → IfOk result (λ r. 0 < length r.0) }
{
    if place < parts.len().saturating_sub(OPEN) {
        let part = &parts[place];
        if !part.is_empty() && after(octets, part.as_slice()).is_some() {
            return Ok((part.clone()?, place + 1));
        }
    }
    let front = &octets[..part_len(octets)];
    match find_near(parts, place, front) {
        Some((found, part)) => Ok((part.clone()?, found + 1)),
        None => Ok((Bytes::copy_from_slice(alloc, front)?, place)),
    }
}

// The parts of these octets, of which some are among these of another text.
fn parts_of(alloc: Global, octets: &[u8], parts: &[Bytes]) -> Result<List<Bytes>, OutOfMemory>
    ensures { IfOk result (λ now. joined now ≡ octets.now) }
{
    let mut now = List::from_vec(Vec::with_capacity(alloc, parts.len())?);
    let mut from = 0;
    let mut place = 0;
    'parts: while from < octets.len() {
        let (part, next) = first_part(alloc, &octets[from..], parts, place)?;
        from += part.len();
        place = next;
        now.push(part)?;
    }
    Ok(now)
}

// Whether these octets are those of some parts.
fn is_joined(octets: &[u8], parts: &[Bytes]) -> bool
    ensures { OnTrue result (joined parts.now ≡ octets.now) }
{
    let mut rest = octets;
    for part in parts {
        let Some(later) = after(rest, part.as_slice()) else {
            return false;
        };
        rest = later;
    }
    rest.is_empty()
}

// A list of its own that shares the octets of the parts.
fn share_all(alloc: Global, parts: &[Bytes]) -> Result<List<Bytes>, OutOfMemory>
    ensures { IfOk result (λ now. now ≡ parts.now) }
{
    let mut now = List::from_vec(Vec::with_capacity(alloc, parts.len())?);
    for part in parts {
        now.push(part.clone()?)?;
    }
    Ok(now)
}

impl Rope {
    /// A text as it is, in one part.
    pub fn whole(alloc: Global, text: Bytes) -> Rope
        ensures { result ≡ text }
    {
        Rope {
            head: text,
            parts: List::new(alloc),
        }
    }

    /// A text, which shares the parts that it has in common with another one, where there is one.
    pub fn beside(alloc: Global, text: &[u8], other: Option<&Rope>) -> Result<Rope, OutOfMemory>
        ensures { IfOk result (λ r. r ≡ text.now) }
    {
        let (front, rest) = text.split_at(head_len(text));
        let parts = match other {
            Some(rope) => parts_of(alloc, rest, rope.parts.as_slice())?,
            None => parts_of(alloc, rest, &[])?,
        };
        Ok(Rope {
            head: Bytes::copy_from_slice(alloc, front)?,
            parts,
        })
    }

    /// Whether a message with this number has this text.
    pub fn is(&self, at: u8, number: u64, message: &[u8]) -> bool
        ensures { OnTrue result (numbered number (record { octets = self.now; at = at }) ≡ message.now) }
    {
        let head = self.head.as_slice();
        if !is_in_head(head, at) {
            return false;
        }
        match after_numbered(message, head, at, number) {
            Some(rest) => is_joined(rest, self.parts.as_slice()),
            None => false,
        }
    }

    /// The message with this number that has this text. What comes after the number is shared.
    pub fn spell(&self, alloc: Global, at: u8, number: u64) -> Result<Spelling, OutOfMemory>
        ensures { IfOk result (λ s. s ≡ numbered number (record { octets = self.now; at = at })) }
    {
        if !is_in_head(self.head.as_slice(), at) {
            return Err(OutOfMemory);
        }
        let (own, shared) = share(alloc, &self.head, at, number)?;
        let parts = share_all(alloc, self.parts.as_slice())?;
        Spelling::new(own, shared, parts)
    }
}

//! Octets that wait.

ghost use Rattle.std.specs.Prelude.{◌≡◌, ◌<◌, ◌-◌, [], ◌++◌, length, drop, All, IfOk, OnOk, OnErr};
ghost use Rattle.std.specs.List.{concat};
ghost use Rattle.std.specs.VecDeque.{deque_len, deque_capacity};
ghost use Rattle.zre_link.specs.Front.{IsFront, HasOctets};

use bytes::{Bytes, BytesMut};
use std::alloc::Global;
use std::collections::VecDeque;
use std::marker::Model;
use zre_values::{OutOfMemory, take_apart};

/// A newest part with room for as many octets is full where a further text doesn't fit; and a text with as many is a
/// part alone.
const PART: usize = 16 * 1024;

/// Octets that wait to go out, in parts. Texts are appended to the newest part, which nothing else holds; the parts
/// before it are shared with those who hold the same. Octets are removed at the front without moving the others.
pub struct Queue {
    alloc: Global,
    /// The parts before the newest: none of them is empty.
    parts: VecDeque<Bytes>,
    newest: BytesMut,
    /// How many octets all parts have.
    count: usize,
}

impl Drop for Queue {
    fn drop(self) {
        take_apart!(self, Queue: alloc, parts, newest, count);
    }
}

impl Model for Queue {
    ghost use Rattle.std.specs.Prelude.{◌≡◌, ℕ, ◌++◌, List, length, All};
    ghost use Rattle.std.specs.List.{concat};
    ghost use Rattle.zre_link.specs.Front.{HasOctets};

    ghost Value = { List ℕ };

    ghost view = { λ queue. concat queue.parts.items ++ queue.newest.items };

    ghost invariant = { λ queue. (queue.count ≡ length (concat queue.parts.items ++ queue.newest.items))
        × All HasOctets queue.parts.items };
}

// Makes the newest part one of those before it, and room for one more.
fn close(parts: &mut VecDeque<Bytes>, newest: &mut BytesMut) -> Result<(), OutOfMemory>
    // What a call that is done gives.
    ensures ok { OnOk result ((newest.new.items ≡ [])
        × (concat parts.new.items ≡ concat parts.old.items ++ newest.old.items)) }
    ensures reserved { OnOk result (deque_len parts.new < deque_capacity parts.new) }
    ensures have_octets { All HasOctets parts.old.items → All HasOctets parts.new.items }
    // What a refusal tells, and what it leaves.
    ensures err { OnErr result ((newest.new.items ≡ newest.old.items) × (parts.new.items ≡ parts.old.items)) }
{
    parts.reserve(2)?;
    let len = newest.len();
    if len == 0 {
        return Ok(());
    }
    let part = newest.freeze_to(len)?;
    parts.push_back_reserved(part);
    Ok(())
}

// Appends a text and then a part, or nothing.
fn put(
    parts: &mut VecDeque<Bytes>,
    newest: &mut BytesMut,
    text: &[u8],
    part: Bytes,
) -> Result<(), OutOfMemory>
    // The part has octets.
    requires { HasOctets part }
    // Both are appended, or nothing is.
    ensures ok { OnOk result ((newest.new.items ≡ [])
        × (concat parts.new.items ≡ ((concat parts.old.items ++ newest.old.items) ++ text.now) ++ part)) }
    ensures have_octets { All HasOctets parts.old.items → All HasOctets parts.new.items }
    ensures err { OnErr result ((newest.new.items ≡ newest.old.items) × (parts.new.items ≡ parts.old.items)) }
{
    let len = newest.len();
    newest.extend_from_slice(text)?;
    match close(parts, newest) {
        Ok(()) => {
            parts.push_back_reserved(part);
            Ok(())
        }
        Err(fault) => {
            newest.truncate(len);
            Err(fault)
        }
    }
}

// Begins a new part, where the newest has no room for a text. One with less room than a part has grows with the text.
#[inline(never)]
fn make_room(
    alloc: Global,
    parts: &mut VecDeque<Bytes>,
    newest: &mut BytesMut,
) -> Result<(), OutOfMemory>
    ensures unchanged { concat parts.new.items ++ newest.new.items ≡ concat parts.old.items ++ newest.old.items }
    ensures have_octets { All HasOctets parts.old.items → All HasOctets parts.new.items }
{
    if newest.capacity() < PART {
        return Ok(());
    }
    close(parts, newest)?;
    *newest = BytesMut::with_capacity(alloc, PART)?;
    Ok(())
}

// Appends a copy of these octets, or nothing.
fn add(
    alloc: Global,
    parts: &mut VecDeque<Bytes>,
    newest: &mut BytesMut,
    octets: &[u8],
) -> Result<(), OutOfMemory>
    ensures ok { OnOk result (concat parts.new.items ++ newest.new.items
        ≡ (concat parts.old.items ++ newest.old.items) ++ octets.now) }
    ensures have_octets { All HasOctets parts.old.items → All HasOctets parts.new.items }
    ensures err { OnErr result (concat parts.new.items ++ newest.new.items
        ≡ concat parts.old.items ++ newest.old.items) }
{
    if octets.len() >= PART {
        let part = Bytes::copy_from_slice(alloc, octets)?;
        return put(parts, newest, &[], part);
    }
    if newest.capacity().saturating_sub(newest.len()) < octets.len() {
        make_room(alloc, parts, newest)?;
    }
    newest.extend_from_slice(octets)?;
    Ok(())
}

// Removes so many octets from the front, or all, and tells how many fewer they were.
fn remove_parts(parts: &mut VecDeque<Bytes>, count: usize) -> usize
    ensures removed { concat parts.new.items ≡ drop count (concat parts.old.items) }
    ensures missing { result ≡ count - length (concat parts.old.items) }
    ensures have_octets { All HasOctets parts.old.items → All HasOctets parts.new.items }
{
    let mut left = count;
    'parts: while left > 0 {
        let Some(mut part) = parts.pop_front() else {
            return left;
        };
        let len = part.len();
        if left < len {
            part.advance(left);
            parts.push_front_reserved(part);
            return 0;
        }
        left -= len;
    }
    left
}

// Removes so many octets from the front of the newest part, or all: then it has all its room again.
fn remove_newest(newest: &mut BytesMut, count: usize)
    ensures { newest.new.items ≡ drop count newest.old.items }
{
    if count < newest.len() {
        newest.advance(count);
    } else {
        newest.clear();
    }
}

// Where the last octets of some parts begin, so many or all: in which part, and after how many of its octets.
fn place_of_last(parts: &VecDeque<Bytes>, count: usize) -> (usize, usize)
    ensures { drop result.1 (concat (drop result.0 parts.now.items))
        ≡ drop (length (concat parts.now.items) - count) (concat parts.now.items) }
{
    let mut first = parts.len();
    let mut left = count;
    'parts: while first > 0 {
        let len = parts[first - 1].len();
        if left < len {
            return (first - 1, len - left);
        }
        left -= len;
        first -= 1;
    }
    (0, 0)
}

// Appends the octets of the parts from this one on, without so many of the first of them.
fn copy_parts(
    parts: &VecDeque<Bytes>,
    first: usize,
    skipped: usize,
    out: &mut Vec<u8>,
) -> Result<(), OutOfMemory>
    ensures { OnOk result (out.new.items ≡ out.old.items ++ drop skipped (concat (drop first parts.now.items))) }
{
    let mut next = first;
    let mut skip = skipped;
    'parts: while next < parts.len() {
        let part = parts[next].as_slice();
        let at = skip.min(part.len());
        let (_, rest) = part.split_at(at);
        out.extend_from_slice(rest)?;
        skip -= at;
        next += 1;
    }
    Ok(())
}

impl Queue {
    /// A copy of these octets waits.
    pub fn new(alloc: Global, octets: &[u8]) -> Result<Self, OutOfMemory>
        ensures { IfOk result (λ queue. queue ≡ octets.now) }
    {
        Ok(Queue {
            alloc,
            parts: VecDeque::new(alloc),
            newest: BytesMut::copy_from_slice(alloc, octets)?,
            count: octets.len(),
        })
    }

    /// How many octets wait.
    #[inline]
    pub fn len(&self) -> usize
        ensures { result ≡ length self.now }
    {
        self.count
    }

    /// What is left of the first part.
    pub fn front(&self) -> &[u8]
        ensures { IsFront self.now result.now }
    {
        match self.parts.front() {
            Some(part) => part.as_slice(),
            None => self.newest.as_slice(),
        }
    }

    /// A copy of the last octets, so many or all. It looks at the parts that hold them, and at no others.
    pub fn last(&self, count: usize) -> Result<Bytes, OutOfMemory>
        ensures { IfOk result (λ last. last ≡ drop (length self.now - count) self.now) }
    {
        let newest = self.newest.as_slice();
        if count <= newest.len() {
            return Ok(Bytes::copy_from_slice(self.alloc, &newest[newest.len() - count..])?);
        }
        let mut octets = Vec::with_capacity(self.alloc, count.min(self.count))?;
        let (first, skipped) = place_of_last(&self.parts, count - newest.len());
        copy_parts(&self.parts, first, skipped, &mut octets)?;
        octets.extend_from_slice(newest)?;
        Ok(Bytes::from_vec(octets)?)
    }

    /// Appends a copy of these octets, or nothing.
    pub fn append(&mut self, octets: &[u8]) -> Result<(), OutOfMemory>
        ensures ok { OnOk result (self.new ≡ self.old ++ octets.now) }
        ensures err { OnErr result (self.new ≡ self.old) }
    {
        let Some(count) = self.count.checked_add(octets.len()) else {
            return Err(OutOfMemory);
        };
        add(self.alloc, &mut self.parts, &mut self.newest, octets)?;
        self.count = count;
        Ok(())
    }

    /// Appends a copy of a text, and then this part as it is; or nothing.
    pub fn share(&mut self, text: &[u8], part: Bytes) -> Result<(), OutOfMemory>
        ensures ok { OnOk result (self.new ≡ (self.old ++ text.now) ++ part) }
        ensures err { OnErr result (self.new ≡ self.old) }
    {
        if part.is_empty() {
            return self.append(text);
        }
        let size = text.len().saturating_add(part.len());
        let Some(count) = self.count.checked_add(size) else {
            return Err(OutOfMemory);
        };
        put(&mut self.parts, &mut self.newest, text, part)?;
        self.count = count;
        Ok(())
    }

    /// Removes so many octets from the front, or all.
    pub fn remove(&mut self, count: usize)
        ensures { self.new ≡ drop count self.old }
    {
        let left = remove_parts(&mut self.parts, count);
        remove_newest(&mut self.newest, left);
        self.count -= count.min(self.count);
    }
}

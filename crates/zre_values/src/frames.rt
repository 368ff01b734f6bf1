ghost use Rattle.std.specs.Prelude.{◌≡◌, ◌<◌, ◌-◌, ◌^◌, ℕ, List, [], ◌∷◌, ◌++◌, length, min, remove, sum_by, IfOk};
ghost use Rattle.std.specs.Prelude.{OnOk, OnErr, MatchOption, slice_get, slice_set, slice_index_or, Some};
ghost use Rattle.std.specs.List.{list_any};
ghost use Rattle.std.specs.Str.{bytes_eq};
ghost use Rattle.zre_values.specs.Lists.{without};

use crate::{Octets, OutOfMemory, take_apart};
use smallvec::SmallVec;
use std::alloc::Global;
use std::marker::Model;

/// A list of frames, or of other lists of octets: the parts of a message, the groups of a peer. Up to two lie in
/// the value itself, as the frames of most messages are.
#[derive(Debug)]
pub struct Frames {
    items: SmallVec<Octets, 2>,
}

impl Drop for Frames {
    fn drop(self) {
        take_apart!(self, Frames: items);
    }
}

impl Model for Frames {
    ghost Value = { List (List ℕ) };

    ghost view = { λ frames. frames.items.items };
}

impl Frames {
    /// The empty list, which takes no memory.
    pub fn new(alloc: Global) -> Self
        ensures { result ≡ [] }
    {
        Frames {
            items: SmallVec::new(alloc),
        }
    }

    /// The list of this one alone, which takes no memory.
    pub fn of(alloc: Global, frame: Octets) -> Self
        ensures { result ≡ frame ∷ [] }
    {
        let mut items = SmallVec::new(alloc);
        items.push_reserved(frame);
        Frames { items }
    }

    /// A copy of the frames, in memory of their own.
    pub fn copy(alloc: Global, frames: &[Octets]) -> Result<Self, OutOfMemory>
        ensures { IfOk result (λ copied. copied ≡ frames.now) }
    {
        let mut copied = Frames::new(alloc);
        for frame in frames {
            copied.push(Octets::copy(alloc, frame.as_slice())?)?;
        }
        Ok(copied)
    }

    /// How many members there are.
    pub fn len(&self) -> usize
        ensures { result ≡ length self.now }
    {
        self.items.len()
    }

    /// The octets of the member at this place, counted from 0.
    pub fn get(&self, i: usize) -> &[u8]
        requires { i < length self.now }
        ensures { slice_get self.now i ≡ Some result.now }
    {
        self.items.as_slice()[i].as_slice()
    }

    /// The members, to be gone over by `for`.
    pub fn as_slice(&self) -> &[Octets]
        ensures { result.now ≡ self.now }
    {
        self.items.as_slice()
    }

    /// Appends a member, or nothing.
    #[inline(always)]
    pub fn push(&mut self, frame: Octets) -> Result<(), OutOfMemory>
        ensures ok { OnOk result (self.new ≡ self.old ++ frame ∷ []) }
        ensures err { OnErr result (self.new ≡ self.old) }
    {
        self.items.reserve(1)?;
        self.items.push_reserved(frame);
        Ok(())
    }

    /// Appends octets to the member at this place, which takes them where it lies.
    pub fn append_at(&mut self, i: usize, octets: &[u8]) -> Result<(), OutOfMemory>
        requires { i < length self.old }
        ensures { OnOk result (self.new ≡ slice_set self.old i (slice_index_or self.old i [] ++ octets.now)) }
    {
        self.items.as_mut_slice()[i].append(octets)
    }

    /// Removes the member at this place, and gives it.
    pub fn remove(&mut self, i: usize) -> Octets
        requires { i < length self.old }
        ensures value { slice_get self.old i ≡ Some result }
        ensures members { self.new ≡ remove self.old i }
    {
        self.items.remove(i)
    }

    /// The sum of the lengths, or the greatest u64 where the sum is above that.
    pub fn total(&self) -> u64
        ensures { result ≡ min (sum_by length self.now) (2 ^ 64 - 1) }
    {
        let mut total: u64 = 0;
        for frame in self.as_slice() {
            total = total.saturating_add(frame.len() as u64);
        }
        total
    }

    /// Whether a member equals this one. It looks at one member after the other.
    pub fn contains(&self, frame: &[u8]) -> bool
        ensures { result ≡ list_any (λ x. bytes_eq x frame.now) self.now }
    {
        self.as_slice().iter().any(|x| x.as_slice() == frame)
    }

    /// Where the first member that equals this one stands, if there is one.
    #[inline(always)]
    pub fn place_of(&self, frame: &[u8]) -> Option<usize>
        ensures { MatchOption result (without frame.now self.now ≡ self.now)
            (λ i. (i < length self.now) × (without frame.now self.now ≡ remove self.now i)) }
    {
        place_of(self.as_slice(), frame)
    }

    /// Removes the first member that equals this one, if there is one.
    pub fn remove_first(&mut self, frame: &[u8])
        ensures { self.new ≡ without frame.now self.old }
    {
        if let Some(i) = self.place_of(frame) {
            let _ = self.remove(i);
        }
    }
}

#[inline(always)]
fn place_of(items: &[Octets], frame: &[u8]) -> Option<usize>
    ensures { MatchOption result (without frame.now items.now ≡ items.now)
        (λ i. (i < length items.now) × (without frame.now items.now ≡ remove items.now i)) }
{
    for (i, x) in items.iter().enumerate() {
        if x.as_slice() == frame {
            return Some(i);
        }
    }
    None
}

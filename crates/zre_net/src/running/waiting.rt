//! What a connection has yet to hand in.

ghost use Rattle.std.specs.Prelude.{◌≡◌, ◌++◌, ◌≤◌, ◌<◌, [], All, length, take, drop, OnOk, IfOk};
ghost use Rattle.zre_link.specs.Front.{HasOctets};
ghost use Rattle.zre_net.specs.Lists.{joined};

use crate::running::spelling::Spelling;
use bytes::Bytes;
use std::alloc::Global;
use std::collections::VecDeque;
use std::marker::Model;
use zre_values::{List, OutOfMemory, take_apart};

/// Octets that wait: the rest of one part, and the parts after it. Parts are shared with those who hold the same.
pub(crate) struct Waiting {
    front: Bytes,
    /// The parts after it: none of them is empty.
    parts: VecDeque<Bytes>,
    count: u64,
}

impl Drop for Waiting {
    fn drop(self) {
        take_apart!(self, Waiting: front, parts, count);
    }
}

impl Model for Waiting {
    ghost use Rattle.std.specs.Prelude.{◌≡◌, ◌++◌, ℕ, List, All, length};
    ghost use Rattle.zre_link.specs.Front.{HasOctets};
    ghost use Rattle.zre_net.specs.Lists.{joined};

    ghost Value = { List ℕ };

    ghost view = { λ w. w.front ++ joined w.parts.items };

    ghost invariant = { λ w. (w.count ≡ length (w.front ++ joined w.parts.items)) × All HasOctets w.parts.items };
}

// Where the part at the front is taken whole, the next one stands there.
fn refill(front: &mut Bytes, parts: &mut VecDeque<Bytes>)
    // The parts after the front have octets, before and after.
    requires { All HasOctets parts.old.items }
    ensures parts { All HasOctets parts.new.items }
    // The octets are the same. Where there are any, the front has some.
    ensures unchanged { front.new ++ joined parts.new.items ≡ front.old ++ joined parts.old.items }
    ensures some { HasOctets (front.new ++ joined parts.new.items) → HasOctets front.new }
{
    if !front.is_empty() {
        return;
    }
    if let Some(part) = parts.pop_front() {
        *front = part;
    }
}

impl Waiting {
    /// None wait.
    pub fn new(alloc: Global) -> Waiting
        ensures { result ≡ [] }
    {
        Waiting {
            front: Bytes::new(),
            parts: VecDeque::new(alloc),
            count: 0,
        }
    }

    /// How many wait.
    pub fn len(&self) -> u64
        ensures { result ≡ length self.now }
    {
        self.count
    }

    // Some octets more wait.
    fn push(&mut self, octets: Bytes) -> Result<(), OutOfMemory>
        ensures { OnOk result (self.new ≡ self.old ++ octets) }
    {
        if octets.is_empty() {
            return Ok(());
        }
        let Some(count) = self.count.checked_add(octets.len() as u64) else {
            return Err(OutOfMemory);
        };
        self.parts.push_back(octets)?;
        self.count = count;
        Ok(())
    }

    // The octets of some parts more wait.
    fn push_all(&mut self, parts: List<Bytes>) -> Result<(), OutOfMemory>
        ensures { OnOk result (self.new ≡ self.old ++ joined parts) }
    {
        for part in parts.into_vec() {
            self.push(part)?;
        }
        Ok(())
    }

    /// One part more waits.
    pub fn add(&mut self, part: Spelling) -> Result<(), OutOfMemory>
        ensures { OnOk result (self.new ≡ self.old ++ part) }
    {
        let (own, shared, more) = part.apart();
        self.push(own)?;
        self.push(shared)?;
        self.push_all(more)
    }

    /// The next octets, of one part: so many of them at most, and one at least where any wait.
    pub fn take(&mut self, most: u64) -> Result<Bytes, OutOfMemory>
        // Which octets it gives, and how many.
        ensures next { IfOk result (λ b. b ≡ take (length b) self.old) }
        ensures few { IfOk result (λ b. length b ≤ most) }
        ensures some { 0 < most → HasOctets self.old → IfOk result (λ b. HasOctets b) }
        // What waits after it.
        ensures dropped { IfOk result (λ b. self.new ≡ drop (length b) self.old) }
    {
        refill(&mut self.front, &mut self.parts);
        let count = most.min(self.front.len() as u64);
        let octets = self.front.split_to(count as usize)?;
        self.count -= count;
        Ok(octets)
    }
}

ghost use Rattle.std.specs.Prelude.{◌≡◌, ◌<◌, ℕ, List, [], ◌∷◌, ◌++◌, length, IfOk, OnOk, OnErr, slice_get, Some};
ghost use Rattle.std.specs.List.{list_any};
ghost use Rattle.std.specs.Str.{bytes_eq};

use crate::{Octets, OutOfMemory, take_apart};
use std::alloc::Global;
use std::marker::Model;

/// A list of names with their values, as the headers of a peer. A name may stand more than once.
#[derive(Debug)]
pub struct Pairs {
    items: Vec<(Octets, Octets)>,
}

impl Drop for Pairs {
    fn drop(self) {
        take_apart!(self, Pairs: items);
    }
}

impl Model for Pairs {
    ghost Value = { List (List ℕ × List ℕ) };

    ghost view = { λ pairs. pairs.items.items };
}

impl Pairs {
    /// The empty list, which takes no memory.
    pub fn new(alloc: Global) -> Self
        ensures { result ≡ [] }
    {
        Pairs {
            items: Vec::new(alloc),
        }
    }

    /// A copy of the list, in memory of its own.
    pub fn copy(alloc: Global, pairs: &Pairs) -> Result<Self, OutOfMemory>
        ensures { IfOk result (λ copied. copied ≡ pairs.now) }
    {
        let mut copied = Pairs::new(alloc);
        for pair in pairs.as_slice() {
            copied.push_copy(alloc, pair.0.as_slice(), pair.1.as_slice())?;
        }
        Ok(copied)
    }

    /// How many pairs there are, those of one name counted each.
    pub fn len(&self) -> usize
        ensures { result ≡ length self.now }
    {
        self.items.len()
    }

    /// The name and the value of the pair at this place, counted from 0.
    pub fn get(&self, i: usize) -> (&[u8], &[u8])
        requires { i < length self.now }
        ensures { slice_get self.now i ≡ Some (result.0.now, result.1.now) }
    {
        let pair = &self.items[i];
        (pair.0.as_slice(), pair.1.as_slice())
    }

    /// The members, to be gone over by `for`.
    pub fn as_slice(&self) -> &[(Octets, Octets)]
        ensures { result.now ≡ self.now }
    {
        self.items.as_slice()
    }

    /// Appends a pair, or nothing.
    pub fn push(&mut self, name: Octets, value: Octets) -> Result<(), OutOfMemory>
        ensures ok { OnOk result (self.new ≡ self.old ++ (name, value) ∷ []) }
        ensures err { OnErr result (self.new ≡ self.old) }
    {
        self.items.push((name, value))?;
        Ok(())
    }

    /// Appends a pair in memory of its own, or nothing.
    pub fn push_copy(&mut self, alloc: Global, name: &[u8], value: &[u8]) -> Result<(), OutOfMemory>
        ensures ok { OnOk result (self.new ≡ self.old ++ (name.now, value.now) ∷ []) }
        ensures err { OnErr result (self.new ≡ self.old) }
    {
        let name = Octets::copy(alloc, name)?;
        let value = Octets::copy(alloc, value)?;
        self.push(name, value)
    }

    /// Whether a member has this name. It looks at one member after the other.
    pub fn has_name(&self, name: &[u8]) -> bool
        ensures { result ≡ list_any (λ pair. bytes_eq pair.0 name.now) self.now }
    {
        self.items.iter().any(|pair| pair.0.as_slice() == name)
    }
}

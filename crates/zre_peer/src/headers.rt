ghost use Rattle.std.specs.Prelude.{◌≡◌, ◌<◌, ◌≤◌, ℕ, List, [], ◌∷◌, ◌++◌, length, IfOk, OnOk, OnErr, map, nat_le};
ghost use Rattle.std.specs.Prelude.{slice_get, Some};
ghost use Rattle.zre_peer.specs.Members.{with_header};

use indexmap::IndexMap;
use std::alloc::Global;
use std::marker::Model;
use zre_values::limits::HEADERS;
use zre_values::{Octets, OutOfMemory, Pairs, take_apart};

/// The headers of a peer in the order in which it told them, of equal names the first. One is found by the hash of its
/// name, with no look at the others.
#[derive(Debug)]
pub struct Headers {
    named: IndexMap<Vec<u8>, Octets>,
}

impl Drop for Headers {
    fn drop(self) {
        take_apart!(self, Headers: named);
    }
}

impl Model for Headers {
    ghost Value = { List (List ℕ × List ℕ) };

    ghost view = { λ headers. map (λ header. (header.0.items, header.1)) headers.named.entries };
}

impl Headers {
    /// No headers, which take no memory.
    pub fn new(alloc: Global) -> Self
        ensures { result ≡ [] }
    {
        Headers {
            named: IndexMap::new(alloc),
        }
    }

    /// The name and the value at a place.
    pub fn get(&self, i: usize) -> (&[u8], &[u8])
        requires { i < length self.now }
        ensures { slice_get self.now i ≡ Some (result.0.now, result.1.now) }
    {
        let (name, value) = self.named.get_index(i).unwrap();
        (name.as_slice(), value.as_slice())
    }

    /// How many there are, by distinct names.
    pub fn len(&self) -> usize
        ensures { result ≡ length self.now }
    {
        self.named.len()
    }

    /// Whether the headers stay within the limit with one of this name. Where they are fewer than the limit, none is
    /// looked at.
    pub fn can_add(&self, name: &[u8]) -> bool
        requires { length self.now ≤ HEADERS }
        ensures { (value : List ℕ) → result ≡ nat_le (length (with_header self.now (name.now, value))) HEADERS }
    {
        self.len() < HEADERS || self.named.contains_key(name)
    }

    /// Adds a header at the end, unless its name is there. After an error nothing has changed.
    pub fn insert(&mut self, alloc: Global, name: &[u8], value: &[u8]) -> Result<(), OutOfMemory>
        ensures ok { OnOk result (self.new ≡ with_header self.old (name.now, value.now)) }
        ensures err { OnErr result (self.new ≡ self.old) }
    {
        if self.named.contains_key(name) {
            return Ok(());
        }
        let name = Vec::from_slice(alloc, name)?;
        self.named.insert(name, Octets::copy(alloc, value)?)?;
        Ok(())
    }

    /// The headers as pairs, in memory of their own.
    pub fn to_pairs(&self, alloc: Global) -> Result<Pairs, OutOfMemory>
        ensures { IfOk result (λ pairs. pairs ≡ self.now) }
    {
        let mut pairs = Pairs::new(alloc);
        for i in 0..self.len() {
            let (name, value) = self.get(i);
            pairs.push_copy(alloc, name, value)?;
        }
        Ok(pairs)
    }
}

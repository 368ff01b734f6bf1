ghost use Rattle.std.specs.Prelude.{◌≡◌, ◌==◌, ◌^◌, ◌<◌, ℕ, List, [], length, map, remove, OnOk, OnErr, IfSome};
ghost use Rattle.std.specs.Prelude.{MatchOption, slice_get, Some};
ghost use Rattle.std.specs.List.{list_any};
ghost use Rattle.std.specs.Str.{bytes_eq};
ghost use Rattle.zre_values.specs.Lists.{without};
ghost use Rattle.zre_peer.specs.Members.{with_group};

use indexmap::IndexSet;
use std::alloc::Global;
use std::marker::Model;
use zre_values::{OutOfMemory, take_apart};

/// Many groups, each once, in the order of joining. One is found by its hash, with no look at the others.
#[derive(Debug)]
pub(crate) struct GroupTable {
    names: IndexSet<Vec<u8>>,
}

impl Drop for GroupTable {
    fn drop(self) {
        take_apart!(self, GroupTable: names);
    }
}

impl Model for GroupTable {
    ghost Value = { List (List ℕ) };

    ghost view = { λ table. map (λ name. name.items) table.names.keys };
}

impl GroupTable {
    /// No groups, which take no memory.
    pub(crate) fn new(alloc: Global) -> Self
        ensures { result ≡ [] }
    {
        GroupTable {
            names: IndexSet::new(alloc),
        }
    }

    pub(crate) fn len(&self) -> usize
        ensures len { result ≡ length self.now }
        ensures small { result < 2 ^ 63 }
    {
        self.names.len()
    }

    pub(crate) fn is_empty(&self) -> bool
        ensures { result ≡ (length self.now == 0) }
    {
        self.names.len() == 0
    }

    pub(crate) fn get(&self, i: usize) -> &[u8]
        requires { i < length self.now }
        ensures { slice_get self.now i ≡ Some result.now }
    {
        self.names.as_slice()[i].as_slice()
    }

    pub(crate) fn contains(&self, group: &[u8]) -> bool
        ensures { result ≡ list_any (λ x. bytes_eq x group.now) self.now }
    {
        self.names.contains(group)
    }

    /// Adds a group at the end, unless it is there. After an error nothing has changed.
    pub(crate) fn insert(&mut self, alloc: Global, group: &[u8]) -> Result<(), OutOfMemory>
        ensures ok { OnOk result (self.new ≡ with_group self.old group.now) }
        ensures err { OnErr result (self.new ≡ self.old) }
    {
        self.names.insert(Vec::from_slice(alloc, group)?)?;
        Ok(())
    }

    /// Where a group stands, if it is there.
    pub(crate) fn place_of(&self, group: &[u8]) -> Option<usize>
        ensures place { MatchOption result (without group.now self.now ≡ self.now)
            (λ i. (i < length self.now) × (without group.now self.now ≡ remove self.now i)) }
        ensures small { IfSome result (λ i. i < 2 ^ 63) }
    {
        // `len` is called for its clause that there are not that many.
        let _len = self.names.len();
        self.names.get_index_of(group)
    }

    /// Removes the group at a place. The others keep their order.
    pub(crate) fn remove_at(&mut self, i: usize)
        requires { i < length self.old }
        ensures { self.new ≡ remove self.old i }
    {
        let _ = self.names.shift_remove_index(i);
    }
}

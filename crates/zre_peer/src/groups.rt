ghost use Rattle.std.specs.Prelude.{◌≡◌, ◌<◌, ◌≤◌, ℕ, List, [], ◌∷◌, ◌++◌, length, remove, OnOk, OnErr};
ghost use Rattle.std.specs.Prelude.{MatchOption, slice_get, Some, true};
ghost use Rattle.std.specs.List.{list_any};
ghost use Rattle.std.specs.Str.{bytes_eq};
ghost use Rattle.zre_values.specs.Lists.{without};
ghost use Rattle.zre_peer.specs.Members.{are_few, with_group};
ghost use Rattle.zre_peer.specs.declared.groups.TheConstants.{FEW};

use crate::group_table::GroupTable;
use std::alloc::Global;
use std::marker::Model;
use zre_values::limits::{GROUP_OCTETS, GROUPS};
use zre_values::{Frames, Octets, OutOfMemory, take_apart};

/// So many groups are looked through one by one.
const FEW: usize = 8;

/// The groups of a peer, each once, in the order in which it joined them. A few lie in a list, and those that were
/// joined after them have an index, so that finding one of many looks at a few.
#[derive(Debug)]
pub struct Groups {
    few: Frames,
    more: GroupTable,
}

impl Drop for Groups {
    fn drop(self) {
        take_apart!(self, Groups: few, more);
    }
}

impl Model for Groups {
    ghost Value = { List (List ℕ) };

    ghost view = { λ groups. groups.few ++ groups.more };

    ghost invariant = { λ groups. length groups.few ≤ FEW };
}

impl Groups {
    /// No groups, which take no memory.
    pub fn new(alloc: Global) -> Self
        ensures { result ≡ [] }
    {
        Groups {
            few: Frames::new(alloc),
            more: GroupTable::new(alloc),
        }
    }

    /// How many there are.
    pub fn len(&self) -> usize
        ensures { result ≡ length self.now }
    {
        self.few.len() + self.more.len()
    }

    /// A group, in the order of joining.
    pub fn get(&self, i: usize) -> &[u8]
        requires { i < length self.now }
        ensures { slice_get self.now i ≡ Some result.now }
    {
        let few = self.few.len();
        if i < few {
            self.few.get(i)
        } else {
            self.more.get(i - few)
        }
    }

    /// Whether a group is there. A few are looked through, and further ones are found by their hash.
    pub fn contains(&self, group: &[u8]) -> bool
        ensures { result ≡ list_any (λ x. bytes_eq x group.now) self.now }
    {
        self.few.contains(group) || self.more.contains(group)
    }

    /// Whether the groups stay within the limits with one more. Where they are fewer than the limit, none is looked at.
    pub fn can_add(&self, group: &[u8]) -> bool
        requires { are_few self.now ≡ true }
        ensures { result ≡ are_few (with_group self.now group.now) }
    {
        group.len() <= GROUP_OCTETS && (self.len() < GROUPS || self.contains(group))
    }

    /// Adds a group at the end, unless it is there. After an error nothing has changed.
    pub fn insert(&mut self, alloc: Global, group: &[u8]) -> Result<(), OutOfMemory>
        ensures ok { OnOk result (self.new ≡ with_group self.old group.now) }
        ensures err { OnErr result (self.new ≡ self.old) }
    {
        if self.few.contains(group) {
            return Ok(());
        }
        if self.more.is_empty() && self.few.len() < FEW {
            return self.few.push(Octets::copy(alloc, group)?);
        }
        self.more.insert(alloc, group)
    }

    /// Where a group stands, if it is there.
    #[inline]
    pub fn place_of(&self, group: &[u8]) -> Option<usize>
        ensures { MatchOption result (without group.now self.now ≡ self.now)
            (λ i. (i < length self.now) × (without group.now self.now ≡ remove self.now i)) }
    {
        match self.few.place_of(group) {
            Some(i) => Some(i),
            None => {
                let i = self.more.place_of(group)?;
                Some(self.few.len() + i)
            }
        }
    }

    /// Removes the group at a place. The others keep their order.
    #[inline]
    pub fn remove_at(&mut self, i: usize)
        requires { i < length self.old }
        ensures { self.new ≡ remove self.old i }
    {
        let few = self.few.len();
        if i < few {
            let _ = self.few.remove(i);
        } else {
            self.more.remove_at(i - few);
        }
    }
}

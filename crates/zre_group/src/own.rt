ghost use Rattle.std.specs.Prelude.{◌≡◌, ◌<◌, ◌≤◌, ◌↔◌, false, length, Err, Some, IfOk, IfErr, OnOk, OnErr, IsErr};
ghost use Rattle.std.specs.Prelude.{◌-◌, ◌^◌, IsTrue, min, slice_get, sum_by};
ghost use Rattle.zre_group.specs.Own.{OwnGroups, none_joined, is_joined, next_status, with_joined, with_left};

use std::alloc::Global;
use std::marker::Model;
use zre_values::limits::{GROUP_OCTETS, OWN_GROUPS};
use zre_values::{Frames, Octets, OutOfMemory};

/// The groups that this node is in, in the order of joining.
#[derive(Debug, Drop)]
pub struct Own {
    groups: Frames,
    status: u8,
    alloc: Global,
}

impl Model for Own {
    ghost use Rattle.std.specs.Prelude.{length, ◌≤◌};
    ghost use Rattle.zre_group.specs.Own.{OwnGroups};
    ghost use Rattle.zre_values.specs.declared.limits.TheConstants.{OWN_GROUPS};

    ghost Value = { OwnGroups };

    ghost view = { λ own. record { groups = own.groups; status = own.status } };

    ghost invariant = { λ own. length own.groups ≤ OWN_GROUPS };
}

/// Why a group isn't joined. Nothing has changed then.
#[derive(Clone, Copy, Debug, PartialEq, Eq)]
pub enum JoinFault {
    /// The group is joined already.
    Same,
    /// `OWN_GROUPS` others are joined.
    Limit,
    /// No memory was left for its name.
    OutOfMemory,
}

impl From<OutOfMemory> for JoinFault {
    ghost use Rattle.zre_group.specs.declared.own.JoinFault.{JoinFault};

    ghost from_gives = { λ _ fault. fault ≡ JoinFault.OutOfMemory };

    fn from(_: OutOfMemory) -> Self {
        JoinFault::OutOfMemory
    }
}

/// The group to be left isn't joined. Nothing has changed.
#[derive(Clone, Copy, Debug, PartialEq, Eq)]
pub struct NoGroup;

impl Own {
    ghost use Rattle.zre_group.specs.JoinFault.{IsCause};

    /// No group, with the status 0. It takes no memory.
    pub fn new(alloc: Global) -> Self
        ensures { result ≡ none_joined }
    {
        Own {
            groups: Frames::new(alloc),
            status: 0,
            alloc,
        }
    }

    /// The number of joins and leaves that were done, modulo 256.
    pub fn status(&self) -> u8
        ensures { result ≡ self.now.status }
    {
        self.status
    }

    /// How many groups there are, at most 1,024.
    pub fn len(&self) -> usize
        ensures exact { result ≡ length self.now.groups }
        ensures limit { result ≤ OWN_GROUPS }
    {
        self.groups.len()
    }

    /// The name of the group at this place, counted from 0 in the order of joining.
    pub fn get(&self, i: usize) -> &[u8]
        requires { i < length self.now.groups }
        ensures { slice_get self.now.groups i ≡ Some result.now }
    {
        self.groups.get(i)
    }

    /// How many octets their names have, or the greatest number where they are more.
    pub fn octets(&self) -> u64
        ensures { result ≡ min (sum_by length self.now.groups) (2 ^ 64 - 1) }
    {
        self.groups.total()
    }

    /// Joins a group of at most `GROUP_OCTETS` octets and answers the new status.
    pub fn join(&mut self, group: &[u8]) -> Result<u8, JoinFault>
        requires { length group.now ≤ GROUP_OCTETS }
        // What a call that is done gives.
        ensures ok { OnOk result (self.new ≡ with_joined self.old group.now) }
        ensures status { IfOk result (λ status. status ≡ next_status self.old) }
        ensures same { IsTrue (is_joined self.old group.now) → result ≡ Err JoinFault.Same }
        // What a refusal tells, and what it leaves.
        ensures limit { is_joined self.old group.now ≡ false → length self.old.groups ≡ OWN_GROUPS
            → result ≡ Err JoinFault.Limit }
        ensures cause { IfErr result (IsCause self.old group.now) }
        ensures err { OnErr result (self.new ≡ self.old) }
    {
        if self.groups.contains(group) {
            return Err(JoinFault::Same);
        }
        if self.groups.len() == OWN_GROUPS {
            return Err(JoinFault::Limit);
        }
        self.groups.push(Octets::copy(self.alloc, group)?)?;
        self.status = self.status.wrapping_add(1);
        Ok(self.status)
    }

    /// Leaves a group and answers the new status. The others keep their order.
    pub fn leave(&mut self, group: &[u8]) -> Result<u8, NoGroup>
        // What a call that is done gives.
        ensures ok { OnOk result (self.new ≡ with_left self.old group.now) }
        ensures status { IfOk result (λ status. status ≡ next_status self.old) }
        // What a refusal tells, and what it leaves.
        ensures no_group { IsErr result ↔ (is_joined self.old group.now ≡ false) }
        ensures err { OnErr result (self.new ≡ self.old) }
    {
        if !self.groups.contains(group) {
            return Err(NoGroup);
        }
        self.groups.remove_first(group);
        self.status = self.status.wrapping_add(1);
        Ok(self.status)
    }
}

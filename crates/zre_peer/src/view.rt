ghost use Rattle.std.specs.Prelude.{◌≡◌, ◌<◌, length, slice_get, Some, IfOk};
ghost use Rattle.std.specs.List.{list_any};
ghost use Rattle.std.specs.Str.{bytes_eq};

use crate::groups::Groups;
use crate::headers::Headers;
use zre_values::{Octets, OutOfMemory, take_apart};

/// What a peer has told of itself by its HELLO and the messages after it.
#[derive(Debug)]
pub struct View {
    /// Its name, in any octets.
    pub name: Octets,
    /// Where its mailbox is.
    pub endpoint: Octets,
    /// What its HELLO says of it beside its name, by names.
    pub headers: Headers,
    /// The groups that it is in.
    pub groups: Groups,
    /// The number of its joins and leaves, modulo 256, as it stated it last.
    pub status: u8,
}

impl Drop for View {
    fn drop(self) {
        take_apart!(self, View: name, endpoint, headers, groups, status);
    }
}

impl View {
    /// Its name, which may be any octets.
    pub fn name(&self) -> &[u8]
        ensures { result.now ≡ self.now.name }
    {
        self.name.as_slice()
    }

    /// A copy of its name.
    #[inline(always)]
    pub fn copy_name(&self) -> Result<Octets, OutOfMemory>
        ensures { IfOk result (λ name. name ≡ self.now.name) }
    {
        self.name.try_clone()
    }

    /// Where its mailbox is, as its HELLO says it.
    pub fn endpoint(&self) -> &[u8]
        ensures { result.now ≡ self.now.endpoint }
    {
        self.endpoint.as_slice()
    }

    /// How many headers it has, by distinct names.
    pub fn headers_len(&self) -> usize
        ensures { result ≡ length self.now.headers }
    {
        self.headers.len()
    }

    /// The name and the value of a header.
    pub fn header(&self, i: usize) -> (&[u8], &[u8])
        requires { i < length self.now.headers }
        ensures { slice_get self.now.headers i ≡ Some (result.0.now, result.1.now) }
    {
        self.headers.get(i)
    }

    /// The number of its joins and leaves, modulo 256, as it stated it last.
    pub fn status(&self) -> u8
        ensures { result ≡ self.now.status }
    {
        self.status
    }

    /// How many groups it is in.
    pub fn groups_len(&self) -> usize
        ensures { result ≡ length self.now.groups }
    {
        self.groups.len()
    }

    /// A group, in the order of joining.
    pub fn group(&self, i: usize) -> &[u8]
        requires { i < length self.now.groups }
        ensures { slice_get self.now.groups i ≡ Some result.now }
    {
        self.groups.get(i)
    }

    /// Whether it has told that it is in this group.
    pub fn in_group(&self, group: &[u8]) -> bool
        ensures { result ≡ list_any (λ x. bytes_eq x group.now) self.now.groups }
    {
        self.groups.contains(group)
    }
}

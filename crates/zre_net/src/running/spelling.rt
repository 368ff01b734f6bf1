//! The octets of what a connection is made to carry.

ghost use Rattle.std.specs.Prelude.{◌≡◌, ◌+◌, length, IfOk};
ghost use Rattle.zre_net.specs.Lists.{joined};

use bytes::Bytes;
use std::alloc::Global;
use std::marker::Model;
use zre_values::{List, OutOfMemory, take_apart};

/// The octets of a part: some of its own, and after them some that are shared with those who hold the same.
pub(crate) struct Spelling {
    own: Bytes,
    shared: Bytes,
    more: List<Bytes>,
    count: usize,
}

impl Drop for Spelling {
    fn drop(self) {
        take_apart!(self, Spelling: own, shared, more, count);
    }
}

impl Model for Spelling {
    ghost use Rattle.std.specs.Prelude.{◌≡◌, ◌++◌, ℕ, List, length};
    ghost use Rattle.zre_net.specs.Lists.{joined};

    ghost Value = { List ℕ };

    ghost view = { λ s. (s.own ++ s.shared) ++ joined s.more };

    ghost invariant = { λ s. s.count ≡ length ((s.own ++ s.shared) ++ joined s.more) };
}

// How many octets some parts have, and these besides.
fn count_all(parts: &[Bytes], besides: usize) -> Result<usize, OutOfMemory>
    ensures { IfOk result (λ count. count ≡ besides + length (joined parts.now)) }
{
    let mut count = besides;
    for part in parts {
        let Some(more) = count.checked_add(part.len()) else {
            return Err(OutOfMemory);
        };
        count = more;
    }
    Ok(count)
}

impl Spelling {
    ghost use Rattle.std.specs.Prelude.{◌≡◌, ◌++◌, length, IfOk};
    ghost use Rattle.zre_net.specs.Lists.{joined};

    /// Octets of its own, and after them some that are shared: these, and those of parts.
    pub fn new(own: Bytes, shared: Bytes, more: List<Bytes>) -> Result<Spelling, OutOfMemory>
        ensures { IfOk result (λ spelling. spelling ≡ (own ++ shared) ++ joined more) }
    {
        let count = count_all(more.as_slice(), own.len() + shared.len())?;
        Ok(Spelling {
            own,
            shared,
            more,
            count,
        })
    }

    /// Octets of its own alone.
    pub fn of(alloc: Global, own: Bytes) -> Spelling
        ensures { result ≡ own }
    {
        let count = own.len();
        Spelling {
            own,
            shared: Bytes::new(),
            more: List::new(alloc),
            count,
        }
    }

    /// A copy of these.
    pub fn copy(alloc: Global, octets: &[u8]) -> Result<Spelling, OutOfMemory>
        ensures { IfOk result (λ spelling. spelling ≡ octets.now) }
    {
        Ok(Spelling::of(alloc, Bytes::copy_from_slice(alloc, octets)?))
    }

    /// Those of its own, and those that are shared.
    pub fn apart(self) -> (Bytes, Bytes, List<Bytes>)
        ensures { (result.0 ++ result.1) ++ joined result.2 ≡ self }
    {
        let Spelling {
            own,
            shared,
            more,
            count: _,
        } = self;
        (own, shared, more)
    }

    /// How many they are.
    pub fn len(&self) -> usize
        ensures { result ≡ length self.now }
    {
        self.count
    }
}

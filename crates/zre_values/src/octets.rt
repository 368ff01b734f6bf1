ghost use Rattle.std.specs.Prelude.{◌≡◌, ◌==◌, ◌<◌, ◌≤◌, [], ◌∷◌, ◌++◌, flat_map, length, IfOk, OnOk};
ghost use Rattle.std.specs.Prelude.{OnErr, Some, slice_get};
ghost use Rattle.zre_values.specs.Text.{quoted_octet};

use crate::long::Long;
use crate::quoting::CHUNK;
use crate::{FewOctets, OutOfMemory};
use std::alloc::Global;
use std::default::MadeWith;
use std::marker::Model;

/// As many octets as most names, groups, first frames and short contents have.
const INLINE: usize = 32;

#[derive(Debug, Drop)]
enum Buffer {
    Inline(FewOctets<INLINE>),
    Heap(Long),
}

/// A list of octets that owns its memory: a name, a group, a frame, or a text that grows. Up to 32 octets lie in the
/// value itself, and take none.
#[derive(Debug, Drop)]
pub struct Octets {
    store: Buffer,
    alloc: Global,
}

impl Model for Octets {
    ghost use Rattle.std.specs.Prelude.{ℕ, List};

    ghost Value = { List ℕ };

    ghost use Rattle.zre_values.specs.Stored.{stored};

    ghost view = { λ octets. stored octets.store };
}

impl Octets {
    /// The empty list, which takes no memory.
    #[inline]
    pub fn new(alloc: Global) -> Self
        ensures { result ≡ [] }
    {
        Octets {
            store: Buffer::Inline(FewOctets::new()),
            alloc,
        }
    }

    /// A copy of the octets, in memory of their own.
    #[inline]
    pub fn copy(alloc: Global, bytes: &[u8]) -> Result<Self, OutOfMemory>
        ensures { IfOk result (λ octets. octets ≡ bytes.now) }
    {
        if bytes.len() > INLINE {
            return Ok(Octets {
                store: Buffer::Heap(Long::new(Vec::from_slice(alloc, bytes)?)),
                alloc,
            });
        }
        Ok(Octets {
            store: Buffer::Inline(FewOctets::of(bytes)),
            alloc,
        })
    }

    /// A copy of the list, in memory of its own.
    #[inline(always)]
    pub fn try_clone(&self) -> Result<Self, OutOfMemory>
        ensures { IfOk result (λ octets. octets ≡ self.now) }
    {
        match &self.store {
            Buffer::Inline(short) => Ok(Octets {
                store: Buffer::Inline(short.twin()),
                alloc: self.alloc,
            }),
            Buffer::Heap(long) => Octets::copy(self.alloc, long.as_slice()),
        }
    }

    /// The octets of a vector. Its memory is kept where they don't fit into the value.
    pub fn from_vec(items: Vec<u8>) -> Self
        ensures { result ≡ items.items }
    {
        let alloc = *items.allocator();
        if items.len() > INLINE {
            return Octets {
                store: Buffer::Heap(Long::new(items)),
                alloc,
            };
        }
        Octets {
            store: Buffer::Inline(FewOctets::of(items.as_slice())),
            alloc,
        }
    }

    /// The octets, where they lie.
    #[inline]
    pub fn as_slice(&self) -> &[u8]
        ensures { result.now ≡ self.now }
    {
        match &self.store {
            Buffer::Inline(short) => short.as_slice(),
            Buffer::Heap(long) => long.as_slice(),
        }
    }

    /// How many octets there are.
    #[inline]
    pub fn len(&self) -> usize
        ensures { result ≡ length self.now }
    {
        match &self.store {
            Buffer::Inline(short) => short.len(),
            Buffer::Heap(long) => long.len(),
        }
    }

    /// Whether there are none.
    #[inline]
    pub fn is_empty(&self) -> bool
        ensures { result ≡ (length self.now == 0) }
    {
        self.len() == 0
    }

    /// The octet at this place, counted from 0.
    #[inline]
    pub fn get(&self, i: usize) -> &u8
        requires { i < length self.now }
        ensures { slice_get self.now i ≡ Some result.now }
    {
        &self.as_slice()[i]
    }

    /// Appends an octet, or nothing where no memory is left.
    #[inline]
    pub fn push(&mut self, octet: u8) -> Result<(), OutOfMemory>
        ensures ok { OnOk result (self.new ≡ self.old ++ octet ∷ []) }
        ensures err { OnErr result (self.new ≡ self.old) }
    {
        match &mut self.store {
            Buffer::Heap(long) => long.push(octet),
            Buffer::Inline(_) => self.append_inline(&[octet]),
        }
    }

    /// Appends a copy of these octets, or nothing.
    #[inline]
    pub fn append(&mut self, bytes: &[u8]) -> Result<(), OutOfMemory>
        ensures ok { OnOk result (self.new ≡ self.old ++ bytes.now) }
        ensures err { OnErr result (self.new ≡ self.old) }
    {
        match &mut self.store {
            Buffer::Heap(long) => long.append(bytes),
            Buffer::Inline(_) => self.append_inline(bytes),
        }
    }

    // Appends a copy of these octets, or nothing, to a list that lies in the value.
    #[inline(never)]
    fn append_inline(&mut self, bytes: &[u8]) -> Result<(), OutOfMemory>
        ensures ok { OnOk result (self.new ≡ self.old ++ bytes.now) }
        ensures err { OnErr result (self.new ≡ self.old) }
    {
        if let Buffer::Inline(short) = &mut self.store {
            if short.has_room(bytes.len()) {
                short.append(bytes);
                return Ok(());
            }
        }
        self.spill(bytes)
    }

    // Appends the quoted text of each octet, where it will stand. After an error the list is as it was.
    #[inline]
    pub(crate) fn append_quoted(&mut self, bytes: &[u8]) -> Result<(), OutOfMemory>
        requires { length bytes.now ≤ CHUNK }
        ensures ok { OnOk result (self.new ≡ self.old ++ flat_map quoted_octet bytes.now) }
        ensures err { OnErr result (self.new ≡ self.old) }
    {
        match &mut self.store {
            Buffer::Heap(long) => long.append_quoted(bytes),
            Buffer::Inline(_) => self.spill_quoted(bytes),
        }
    }

    // Appends the quoted text of each octet, or nothing, to a list that lies in the value. The whole list goes into
    // memory of its own.
    #[cold]
    #[inline(never)]
    fn spill_quoted(&mut self, bytes: &[u8]) -> Result<(), OutOfMemory>
        requires { length bytes.now ≤ CHUNK }
        ensures ok { OnOk result (self.new ≡ self.old ++ flat_map quoted_octet bytes.now) }
        ensures err { OnErr result (self.new ≡ self.old) }
    {
        let mut long = Long::new(with_both(self.alloc, self.as_slice(), &[])?);
        long.append_quoted(bytes)?;
        self.store = Buffer::Heap(long);
        Ok(())
    }

    // Appends some octets as they are, the quoted text of others, and one octet, or nothing.
    #[inline(always)]
    pub(crate) fn append_field(
        &mut self,
        before: &[u8],
        field: &[u8],
        after: u8,
    ) -> Result<(), OutOfMemory>
        // Both texts are short.
        requires before { length before.now ≤ CHUNK }
        requires field { length field.now ≤ CHUNK }
        // What is appended.
        ensures ok { OnOk result (self.new ≡ self.old ++ before.now ++ flat_map quoted_octet field.now ++ after ∷ []) }
        ensures err { OnErr result (self.new ≡ self.old) }
    {
        match &mut self.store {
            Buffer::Heap(long) => long.append_field(before, field, after),
            Buffer::Inline(_) => self.spill_field(before, field, after),
        }
    }

    // Appends a field to a list that lies in the value. The whole list goes into memory of its own.
    #[cold]
    #[inline(never)]
    fn spill_field(&mut self, before: &[u8], field: &[u8], after: u8) -> Result<(), OutOfMemory>
        // Both texts are short.
        requires before { length before.now ≤ CHUNK }
        requires field { length field.now ≤ CHUNK }
        // What is appended.
        ensures ok { OnOk result (self.new ≡ self.old ++ before.now ++ flat_map quoted_octet field.now ++ after ∷ []) }
        ensures err { OnErr result (self.new ≡ self.old) }
    {
        let mut long = Long::new(with_both(self.alloc, self.as_slice(), &[])?);
        long.append_field(before, field, after)?;
        self.store = Buffer::Heap(long);
        Ok(())
    }

    // Appends octets for which the value has no room: all of them go into memory of their own.
    #[cold]
    #[inline(never)]
    fn spill(&mut self, bytes: &[u8]) -> Result<(), OutOfMemory>
        ensures ok { OnOk result (self.new ≡ self.old ++ bytes.now) }
        ensures err { OnErr result (self.new ≡ self.old) }
    {
        let items = with_both(self.alloc, self.as_slice(), bytes)?;
        self.store = Buffer::Heap(Long::new(items));
        Ok(())
    }

    /// Empties the list. It keeps its memory, so that a buffer is filled again without a new allocation.
    #[inline]
    pub fn clear(&mut self)
        ensures { self.new ≡ [] }
    {
        match &mut self.store {
            Buffer::Inline(short) => short.clear(),
            Buffer::Heap(long) => long.clear(),
        }
    }
}

// Octets and more after them, in memory of their own.
fn with_both(alloc: Global, front: &[u8], more: &[u8]) -> Result<Vec<u8>, OutOfMemory>
    ensures { IfOk result (λ items. items.items ≡ front.now ++ more.now) }
{
    let mut items = Vec::with_capacity(alloc, 2 * INLINE)?;
    items.extend_from_slice(front)?;
    items.extend_from_slice(more)?;
    Ok(items)
}

impl MadeWith<Global> for Octets {
    ghost use Rattle.std.specs.Prelude.{◌≡◌, []};

    ghost is_made_with = { λ octets. octets ≡ [] };

    fn made_with(alloc: Global) -> Self {
        Octets::new(alloc)
    }
}

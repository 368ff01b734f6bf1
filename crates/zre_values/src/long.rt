//! Many octets, in memory of their own. Its end is filled with zeros, so texts are written where they will stand.

ghost use Rattle.std.specs.Prelude.{◌≡◌, ◌≤◌, [], ◌∷◌, ◌++◌, ◌+◌, flat_map, length, take, OnOk, OnErr};
ghost use Rattle.zre_values.specs.Stored.{MakesRoom};
ghost use Rattle.zre_values.specs.Text.{quoted_octet};

use crate::OutOfMemory;
use crate::quoting::{CHUNK, write_octets};
use std::marker::Model;

#[derive(Debug, Drop)]
pub(crate) struct Long {
    items: Vec<u8>,
    count: usize,
}

impl Model for Long {
    ghost use Rattle.std.specs.Prelude.{◌≤◌, ℕ, List, length, take};

    ghost Value = { List ℕ };

    ghost view = { λ long. take long.count long.items.items };

    ghost invariant = { λ long. long.count ≤ length long.items.items };
}

// How many octets are filled with zeros at most beyond those that are needed.
const SPARE: usize = 4_096;

// Makes room for so many octets more after so many, and for some that may follow. The vector itself takes twice as much
// memory where it takes more; of that no more is touched.
#[cold]
#[inline(never)]
fn grow(items: &mut Vec<u8>, count: usize, more: usize) -> Result<(), OutOfMemory>
    requires { count ≤ length items.old.items }
    ensures { MakesRoom result count more items.old.items items.new.items }
{
    let Some(size) = count.checked_add(more) else {
        return Err(OutOfMemory);
    };
    items.resize(size.saturating_add(size.min(SPARE)), 0)?;
    Ok(())
}

// Makes room for so many octets more after so many where it isn't there.
#[inline(always)]
fn make_room(items: &mut Vec<u8>, count: usize, more: usize) -> Result<(), OutOfMemory>
    requires { count ≤ length items.old.items }
    ensures { MakesRoom result count more items.old.items items.new.items }
{
    if more <= items.len() - count {
        return Ok(());
    }
    grow(items, count, more)
}

// Writes octets as they are at a place, and gives the place after them.
#[inline(always)]
fn write_plain(text: &mut [u8], at: usize, bytes: &[u8]) -> usize
    // There is room for the octets.
    requires { at + length bytes.now ≤ length text.old }
    // What is written, and where it ends.
    ensures text { take result text.new ≡ take at text.old ++ bytes.now }
    ensures place { result ≡ at + length bytes.now }
    ensures size { length text.new ≡ length text.old }
{
    if bytes.is_empty() {
        return at;
    }
    let end = at + bytes.len();
    let room = &mut text[at..end];
    room.copy_from_slice(bytes);
    end
}

impl Long {
    // The octets of a vector, which keeps its memory.
    #[inline]
    pub(crate) fn new(items: Vec<u8>) -> Self
        ensures { result ≡ items.items }
    {
        let count = items.len();
        Long { items, count }
    }

    #[inline]
    pub(crate) fn as_slice(&self) -> &[u8]
        ensures { result.now ≡ self.now }
    {
        &self.items[..self.count]
    }

    #[inline]
    pub(crate) fn len(&self) -> usize
        ensures { result ≡ length self.now }
    {
        self.count
    }

    #[inline]
    pub(crate) fn clear(&mut self)
        ensures { self.new ≡ [] }
    {
        self.count = 0;
    }

    #[inline]
    pub(crate) fn push(&mut self, octet: u8) -> Result<(), OutOfMemory>
        ensures ok { OnOk result (self.new ≡ self.old ++ octet ∷ []) }
        ensures err { OnErr result (self.new ≡ self.old) }
    {
        make_room(&mut self.items, self.count, 1)?;
        self.items[self.count] = octet;
        self.count += 1;
        Ok(())
    }

    #[inline]
    pub(crate) fn append(&mut self, bytes: &[u8]) -> Result<(), OutOfMemory>
        ensures ok { OnOk result (self.new ≡ self.old ++ bytes.now) }
        ensures err { OnErr result (self.new ≡ self.old) }
    {
        make_room(&mut self.items, self.count, bytes.len())?;
        let end = self.count + bytes.len();
        let room = &mut self.items[self.count..end];
        room.copy_from_slice(bytes);
        self.count = end;
        Ok(())
    }

    // Appends the quoted text of each octet, or nothing.
    pub(crate) fn append_quoted(&mut self, bytes: &[u8]) -> Result<(), OutOfMemory>
        requires { length bytes.now ≤ CHUNK }
        ensures ok { OnOk result (self.new ≡ self.old ++ flat_map quoted_octet bytes.now) }
        ensures err { OnErr result (self.new ≡ self.old) }
    {
        make_room(&mut self.items, self.count, 3 * bytes.len() + 1)?;
        self.count = write_octets(self.items.as_mut_slice(), self.count, bytes);
        Ok(())
    }

    // Appends some octets as they are, the quoted text of others, and one octet, or nothing.
    pub(crate) fn append_field(
        &mut self,
        before: &[u8],
        field: &[u8],
        after: u8,
    ) -> Result<(), OutOfMemory>
        // Both texts are short.
        requires before { length before.now ≤ CHUNK }
        requires field { length field.now ≤ CHUNK }
        // What is appended.
        ensures ok { OnOk result (self.new ≡ self.old ++ before.now ++ flat_map quoted_octet field.now ++ after ∷ []) }
        ensures err { OnErr result (self.new ≡ self.old) }
    {
        make_room(
            &mut self.items,
            self.count,
            before.len() + 3 * field.len() + 1,
        )?;
        let start = write_plain(self.items.as_mut_slice(), self.count, before);
        let end = write_octets(self.items.as_mut_slice(), start, field);
        self.items[end] = after;
        self.count = end + 1;
        Ok(())
    }
}

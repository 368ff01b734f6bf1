//! The fields of a frame, and the write that they make.

ghost use Rattle.std.specs.Prelude.{◌≡◌, ◌≤◌, None, codes, IfOk, MatchOption};
ghost use Rattle.std.specs.Str.{bytes_eq};
ghost use Rattle.zre_shared.specs.Writes.{short_of, pair_of, said_by as said, write_of};

use crate::write::{KEY_OCTETS, VALUE_OCTETS, Write};
use std::alloc::Global;
use zre_capture::{both, group, id, number, split_once};
use zre_values::{Octets, OutOfMemory};

/// What stands after the word `zre-set`, between single spaces.
#[derive(Clone, Copy)]
pub(crate) struct Fields<'a> {
    count: &'a [u8],
    id: &'a [u8],
    key: &'a [u8],
    value: &'a [u8],
}

impl<'a> Fields<'a> {
    /// The fields of a frame that begins with the word and has as many as a write.
    pub(crate) fn of(frame: &'a [u8]) -> Option<Fields<'a>>
        ensures { MatchOption result (write_of frame.now ≡ None)
            (λ f. write_of frame.now ≡ said f.count.now f.id.now f.key.now f.value.now) }
    {
        let (word, rest) = split_once(frame, b' ')?;
        let (count, rest) = split_once(rest, b' ')?;
        let (id, rest) = split_once(rest, b' ')?;
        let (key, value) = split_once(rest, b' ')?;
        if !is_word(word) {
            return None;
        }
        match split_once(value, b' ') {
            None => Some(Fields {
                count,
                id,
                key,
                value,
            }),
            Some(_) => None,
        }
    }
}

fn is_word(field: &[u8]) -> bool
    ensures { result ≡ bytes_eq field.now (codes "zre-set") }
{
    field == b"zre-set".as_slice()
}

// Octets from their quoted text, if they are at most so many. A text that is too long for them takes no memory.
#[tactic(auto, unfolding(crate::specs::Writes::short_of))]
fn short(alloc: Global, field: &[u8], most: usize) -> Result<Option<Octets>, OutOfMemory>
    requires { most ≤ VALUE_OCTETS }
    ensures { IfOk result (λ found. found ≡ short_of most field.now) }
{
    if field.len() > 3 * most + 1 {
        return Ok(None);
    }
    match group(alloc, field)? {
        Some(octets) if octets.len() <= most => Ok(Some(octets)),
        _ => Ok(None),
    }
}

#[tactic(auto, unfolding(crate::specs::Writes::pair_of))]
fn pair(alloc: Global, key: &[u8], value: &[u8]) -> Result<Option<(Octets, Octets)>, OutOfMemory>
    ensures { IfOk result (λ found. found ≡ pair_of key.now value.now) }
{
    let Some(key) = short(alloc, key, KEY_OCTETS)? else {
        return Ok(None);
    };
    both(key, short(alloc, value, VALUE_OCTETS))
}

/// The write of these fields, if each has the form of its own.
#[tactic(auto, unfolding(crate::specs::Writes::said_by))]
pub(crate) fn said_by(alloc: Global, fields: Fields<'_>) -> Result<Option<Write>, OutOfMemory>
    ensures { IfOk result (λ found. found ≡ said fields.entry.count.now fields.entry.id.now fields.entry.key.now
        fields.entry.value.now) }
{
    let Some(count) = number(fields.count) else {
        return Ok(None);
    };
    let Some(id) = id(fields.id) else {
        return Ok(None);
    };
    match pair(alloc, fields.key, fields.value) {
        Ok(Some((key, value))) => Ok(Some(Write {
            key,
            count,
            id,
            value,
        })),
        Ok(None) => Ok(None),
        Err(OutOfMemory) => Err(OutOfMemory),
    }
}

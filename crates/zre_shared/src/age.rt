//! Which of two writes of a key lasts.

ghost use Rattle.std.specs.Prelude.{◌≡◌};
ghost use Rattle.std.specs.Ordering.{is_lt};
ghost use Rattle.zre_shared.specs.Tables.{by_age, by_octets, greater};

use crate::write::Write;
use std::cmp::Ordering;

// By the identities, and then by the values.
fn is_below_by_octets(held: &Write, write: &Write) -> bool
    ensures { result ≡ is_lt (by_octets held.now write.now) }
{
    match held.id.0.as_slice().cmp(write.id.0.as_slice()) {
        Ordering::Less => true,
        Ordering::Equal => held.value.as_slice().cmp(write.value.as_slice()) == Ordering::Less,
        Ordering::Greater => false,
    }
}

// Whether a write is greater than one of its key that is held.
fn is_below(held: &Write, write: &Write) -> bool
    ensures { result ≡ is_lt (by_age held.now write.now) }
{
    match held.count.cmp(&write.count) {
        Ordering::Less => true,
        Ordering::Equal => is_below_by_octets(held, write),
        Ordering::Greater => false,
    }
}

/// Puts a write in the place of one of its key that is held, where it is greater.
pub(crate) fn replace(held: &mut Write, write: Write)
    ensures { held.new ≡ greater write held.old }
{
    if is_below(held, &write) {
        *held = write;
    }
}

//! Whether a second capture is of the same node as the first, seen in pieces.

ghost use Rattle.std.specs.Prelude.{◌≡◌, ◌++◌, ℕ, List, [], Option, Some, option_map, nat_eq, IfOk, OnOk};
ghost use Rattle.zre_values.specs.declared.settings.Settings.{Settings as SettingsValue};
ghost use Rattle.zre_records.specs.audit.Again.{IsSeen};
ghost use Rattle.zre_records.specs.audit.Audit.{is_again, own_front};

use std::alloc::Global;
use zre_capture::Settings;
use zre_values::{Octets, OutOfMemory, take_apart};

/// What the head of a capture of the same node begins with, and as much of what came in its place.
pub(crate) struct Again {
    own: Octets,
    front: Octets,
}

impl Drop for Again {
    fn drop(self) {
        take_apart!(self, Again: own, front);
    }
}

// What the head of another capture of this node begins with.
fn own_front_of(alloc: Global, settings: &Settings) -> Result<Octets, OutOfMemory>
    ensures { IfOk result (λ own. own ≡ own_front settings.now) }
{
    let mut own = Octets::copy(alloc, b"zre-capture 2 ")?;
    settings.id.push_to(&mut own)?;
    Ok(own)
}

/// Before any octet of the second capture.
pub(crate) fn unseen(alloc: Global, told: Option<&Settings>) -> Result<Option<Again>, OutOfMemory>
    ensures { IfOk result (λ again. IsSeen (option_map (λ s. s.now) told.entry) [] again) }
{
    match told {
        Some(settings) => Ok(Some(Again {
            own: own_front_of(alloc, settings)?,
            front: Octets::new(alloc),
        })),
        None => Ok(None),
    }
}

/// Takes more octets of the second capture.
pub(crate) fn see(again: &mut Option<Again>, piece: &[u8]) -> Result<(), OutOfMemory>
    ensures { (told : Option SettingsValue) (o : List ℕ) → IsSeen told o again.old
        → OnOk result (IsSeen told (o ++ piece.now) again.new) }
{
    match again {
        Some(again) => {
            let room = again.own.len().saturating_sub(again.front.len());
            again.front.append(&piece[..room.min(piece.len())])
        }
        None => Ok(()),
    }
}

/// Whether it is of the same node.
pub(crate) fn is_same(again: &Option<Again>) -> bool
    ensures { (told : Option SettingsValue) (o : List ℕ) → IsSeen told o again.now → result ≡ is_again told o }
{
    match again {
        Some(again) => again.front.as_slice().starts_with(again.own.as_slice()),
        None => false,
    }
}

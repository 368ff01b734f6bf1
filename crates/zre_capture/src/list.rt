//! Frames in their quoted texts.

ghost use Rattle.std.specs.Prelude.{◌≡◌, true, false, [], ◌∷◌, ◌++◌, is_some, map, IfOk, MatchOption};
ghost use Rattle.std.specs.Bool.{OnTrue};
ghost use Rattle.zre_capture.specs.Parts.{between};
ghost use Rattle.zre_capture.specs.Values.{are_groups, frames_of, group_of, unquoted};

use crate::for_members;
use crate::value::{group, is_group};
use std::alloc::Global;
use zre_values::{Frames, OutOfMemory};

// Whether quoted texts stand between commas.
fn are_members(field: &[u8]) -> bool
    ensures { result ≡ are_groups (between 44 field.now) }
{
    for_members!(member in field => {
        if !is_group(member) {
            return false;
        }
    });
    true
}

/// Whether the field is a list of quoted frames. It takes no memory.
#[tactic(auto, using(crate::proofs::QuotedMembers::frames_test))]
pub fn are_frames(field: &[u8]) -> bool
    ensures { result ≡ is_some (frames_of field.now) }
{
    field == b"%".as_slice() || are_members(field)
}

// Reads one more member.
fn push_member(alloc: Global, frames: &mut Frames, member: &[u8]) -> Result<bool, OutOfMemory>
    ensures test { IfOk result (λ is. is ≡ is_some (group_of member.now)) }
    ensures pushed { IfOk result (λ is. OnTrue is (frames.new ≡ frames.old ++ unquoted member.now ∷ [])) }
{
    let Some(frame) = group(alloc, member)? else {
        return Ok(false);
    };
    frames.push(frame)?;
    Ok(true)
}

// What the texts between commas stand for.
fn members(alloc: Global, field: &[u8]) -> Result<Option<Frames>, OutOfMemory>
    ensures { IfOk result (λ found. MatchOption found (are_groups (between 44 field.now) ≡ false)
        (λ members. (are_groups (between 44 field.now) ≡ true) × (members ≡ map unquoted (between 44 field.now)))) }
{
    let mut frames = Frames::new(alloc);
    for_members!(member in field => {
        if !push_member(alloc, &mut frames, member)? {
            return Ok(None);
        }
    });
    Ok(Some(frames))
}

/// The frames of a field.
pub fn frames(alloc: Global, field: &[u8]) -> Result<Option<Frames>, OutOfMemory>
    ensures { IfOk result (λ found. found ≡ frames_of field.now) }
{
    if field == b"%".as_slice() {
        return Ok(Some(Frames::new(alloc)));
    }
    members(alloc, field)
}

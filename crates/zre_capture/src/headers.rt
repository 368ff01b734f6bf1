//! Headers in their quoted texts.

ghost use Rattle.std.specs.Prelude.{◌≡◌, ◌==◌, ℕ, ◌∷◌, List, None, nat_le, is_some, length, if◌then◌else◌, IfOk};
ghost use Rattle.std.specs.List.{count_by};
ghost use Rattle.zre_capture.specs.Headers.{header_of, headers_in, name_in, have_name, are_named_apart, are_listed};
ghost use Rattle.zre_capture.specs.Headers.{headers_of, with_more};
ghost use Rattle.zre_capture.specs.Parts.{between};

use crate::pairs::both;
use crate::read::two_parts;
use crate::split::{first_part, split_once};
use crate::value::{is_short, short};
use crate::{for_members, found};
use std::alloc::Global;
use zre_values::limits::HEADERS;
use zre_values::{NAME_OCTETS, Octets, OutOfMemory, Pairs, VALUE_OCTETS};

#[tactic(auto, unfolding(crate::specs::Headers::header_in))]
fn is_header(member: &[u8]) -> bool
    ensures { result ≡ is_some (header_of member.now) }
{
    match two_parts(member, b'=') {
        Some((name, value)) => is_short(NAME_OCTETS, name) && is_short(VALUE_OCTETS, value),
        None => false,
    }
}

// Whether headers stand between commas.
#[tactic(auto, using(crate::proofs::HeaderLists::some_headers, crate::proofs::HeaderLists::none_in))]
fn are_members(field: &[u8]) -> bool
    ensures { result ≡ is_some (headers_in (between 44 field.now)) }
{
    for_members!(member in field => {
        if !is_header(member) {
            return false;
        }
    });
    true
}

// The quoted name of a header.
fn name_in(member: &[u8]) -> &[u8]
    ensures { result.now ≡ name_in member.now }
{
    match split_once(member, b'=') {
        Some((name, _)) => name,
        None => member,
    }
}

// Whether one of the members has this quoted name.
fn have_name(name: &[u8], field: &[u8]) -> bool
    ensures { result ≡ have_name name.now (between 44 field.now) }
{
    for_members!(member in field => {
        if name_in(member) == name {
            return true;
        }
    });
    false
}

// Whether no two members have one name. There are few of them, so each is compared with all after it.
fn are_named_apart(field: &[u8]) -> bool
    ensures { result ≡ are_named_apart (between 44 field.now) }
{
    let mut rest = field;
    'members: while let Some((member, after)) = first_part(rest, b',') {
        if have_name(name_in(member), after) {
            return false;
        }
        rest = after;
    }
    true
}

fn commas(field: &[u8]) -> usize
    ensures { result ≡ count_by (λ b. b == 44) field.now }
{
    field.iter().filter(|octet| **octet == b',').count()
}

// Whether there are few members, however long the field is.
fn are_few(field: &[u8]) -> bool
    ensures { result ≡ nat_le (length (between 44 field.now)) 256 }
{
    commas(field) < HEADERS
}

fn are_listed(field: &[u8]) -> bool
    ensures { result ≡ are_listed (between 44 field.now) }
{
    are_few(field) && are_named_apart(field)
}

/// Whether the field is a dictionary of headers that a node can have. It takes no memory.
#[tactic(auto, unfolding(crate::specs::Headers::headers_of))]
pub(crate) fn are_headers(field: &[u8]) -> bool
    ensures { result ≡ is_some (headers_of field.now) }
{
    if field == b"%".as_slice() {
        return true;
    }
    if are_listed(field) {
        are_members(field)
    } else {
        false
    }
}

// Reads a header, if the member is one.
#[tactic(auto, unfolding(crate::specs::Headers::header_in))]
fn header(alloc: Global, member: &[u8]) -> Result<Option<(Octets, Octets)>, OutOfMemory>
    ensures { IfOk result (λ found. found ≡ header_of member.now) }
{
    let (name, value) = found!(two_parts(member, b'='));
    let name = found!(short(alloc, NAME_OCTETS, name)?);
    both(name, short(alloc, VALUE_OCTETS, value))
}

// Reads one more.
#[tactic(auto, using(crate::proofs::HeaderLists::header_pushed, crate::proofs::HeaderLists::no_header_pushed))]
fn push_header(alloc: Global, headers: &mut Pairs, member: &[u8]) -> Result<bool, OutOfMemory>
    ensures { (more : List (List ℕ)) → IfOk result (λ is. with_more headers.old (headers_in (member.now ∷ more))
        ≡ (if is then with_more headers.new (headers_in more) else None)) }
{
    let Some((name, value)) = header(alloc, member)? else {
        return Ok(false);
    };
    headers.push(name, value)?;
    Ok(true)
}

// The headers between commas.
#[tactic(auto, using(crate::proofs::HeaderLists::with_none, crate::proofs::HeaderLists::all_read))]
fn members(alloc: Global, field: &[u8]) -> Result<Option<Pairs>, OutOfMemory>
    ensures { IfOk result (λ found. found ≡ headers_in (between 44 field.now)) }
{
    let mut headers = Pairs::new(alloc);
    for_members!(member in field => {
        if !push_header(alloc, &mut headers, member)? {
            return Ok(None);
        }
    });
    Ok(Some(headers))
}

/// The headers of a field. What is read of a field that is none is no more than its limits allow.
#[tactic(auto, unfolding(crate::specs::Headers::headers_of))]
pub(crate) fn headers(alloc: Global, field: &[u8]) -> Result<Option<Pairs>, OutOfMemory>
    ensures { IfOk result (λ found. found ≡ headers_of field.now) }
{
    if field == b"%".as_slice() {
        return Ok(Some(Pairs::new(alloc)));
    }
    if are_listed(field) {
        members(alloc, field)
    } else {
        Ok(None)
    }
}

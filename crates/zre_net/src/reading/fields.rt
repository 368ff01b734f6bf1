//! The values of the fields of moves.

ghost use Rattle.std.specs.Prelude.{◌≡◌, option_map, IfOk};
ghost use Rattle.zre_capture.specs.Reading.{fields_in};
ghost use Rattle.zre_net.specs.Fields.{node_in, port_in, name_of, part_of, cut, number_then, one_node};
ghost use Rattle.zre_net.specs.Fields.{node_and_number_then, node_and_number, number_and_node};
ghost use Rattle.zre_net.specs.Fields.{three_numbers, host_and_port};

use crate::limits::{NAME_OCTETS, NODES};
use crate::moves::Part;
use std::alloc::Global;
use zre_capture::{address, first_field, group, number, one_number, two_fields, two_numbers};
use zre_values::{Octets, OutOfMemory, is_word};

/// The first field, and the text of those after it, of which there is one at least.
pub(crate) fn cut(text: &[u8]) -> Option<(&[u8], &[u8])>
    ensures { option_map (λ p. (p.0.now, fields_in p.1.now)) result ≡ cut (fields_in text.now) }
{
    first_field(text)
}

fn node(n: u64) -> Option<u8>
    ensures { result ≡ node_in n }
{
    if 1 <= n && n <= NODES {
        Some(n as u8)
    } else {
        None
    }
}

fn port(n: u64) -> Option<u16>
    ensures { result ≡ port_in n }
{
    if n < 65536 { Some(n as u16) } else { None }
}

/// A number, and the text of the fields after it.
#[tactic(auto, unfolding(crate::specs::Fields::number_then))]
pub(crate) fn number_then(text: &[u8]) -> Option<(u64, &[u8])>
    ensures { option_map (λ p. (p.0, fields_in p.1.now)) result ≡ number_then (fields_in text.now) }
{
    let (first, rest) = cut(text)?;
    Some((number(first)?, rest))
}

/// The number of a node and another number, and the text of the fields after them.
#[tactic(auto, unfolding(crate::specs::Fields::node_and_number_then))]
pub(crate) fn node_and_number_then(text: &[u8]) -> Option<(u8, (u64, &[u8]))>
    ensures { option_map (λ p. (p.0, (p.1.0, fields_in p.1.1.now))) result ≡ node_and_number_then (fields_in text.now) }
{
    let (n, rest) = number_then(text)?;
    Some((node(n)?, number_then(rest)?))
}

/// The number of a node, alone.
#[tactic(auto, unfolding(crate::specs::Fields::one_node))]
pub(crate) fn one_node(text: &[u8]) -> Option<u8>
    ensures { result ≡ one_node (fields_in text.now) }
{
    node(one_number(text)?)
}

/// The number of a node and another number.
#[tactic(auto, unfolding(crate::specs::Fields::node_and_number))]
pub(crate) fn node_and_number(text: &[u8]) -> Option<(u8, u64)>
    ensures { result ≡ node_and_number (fields_in text.now) }
{
    let (n, at) = two_numbers(text)?;
    Some((node(n)?, at))
}

/// A number, and then those.
#[tactic(auto, unfolding(crate::specs::Fields::number_and_node))]
pub(crate) fn number_and_node(text: &[u8]) -> Option<(u64, (u8, u64))>
    ensures { result ≡ number_and_node (fields_in text.now) }
{
    let (n, rest) = number_then(text)?;
    Some((n, node_and_number(rest)?))
}

#[tactic(auto, unfolding(crate::specs::Fields::three_numbers))]
pub(crate) fn three_numbers(text: &[u8]) -> Option<(u64, (u64, u64))>
    ensures { result ≡ three_numbers (fields_in text.now) }
{
    let (n, rest) = number_then(text)?;
    Some((n, two_numbers(rest)?))
}

/// An address and a port.
#[tactic(auto, unfolding(crate::specs::Fields::host_and_port))]
pub(crate) fn host_and_port(text: &[u8]) -> Option<([u8; 4], u16)>
    ensures { result ≡ host_and_port (fields_in text.now) }
{
    let (first, second) = two_fields(text)?;
    Some((address(first)?, port(number(second)?)?))
}

/// A quoted name of at most 255 octets.
#[tactic(auto, unfolding(crate::specs::Fields::name_of))]
pub(crate) fn name(alloc: Global, field: &[u8]) -> Result<Option<Octets>, OutOfMemory>
    ensures { IfOk result (λ found. found ≡ name_of field.now) }
{
    match group(alloc, field)? {
        Some(name) if name.len() <= NAME_OCTETS => Ok(Some(name)),
        _ => Ok(None),
    }
}

/// What a connection is made to carry.
#[tactic(auto, unfolding(crate::specs::Fields::part_of))]
pub(crate) fn part(field: &[u8]) -> Option<Part>
    ensures { result ≡ part_of field.now }
{
    if is_word(field, b"greeting") {
        Some(Part::Greeting)
    } else if is_word(field, b"ready") {
        Some(Part::Ready)
    } else {
        number(field).map(|number| Part::Message { number })
    }
}

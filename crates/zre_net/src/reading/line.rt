//! The moves of lines.

ghost use Rattle.std.specs.Prelude.{◌≡◌, IfOk, option_map};
ghost use Rattle.zre_capture.specs.Reading.{fields_in};
ghost use Rattle.zre_net.specs.Fields.{who_and_place, start_in, do_in, carry_in, reply_in};
ghost use Rattle.zre_net.specs.Fields.{move_from, move_of};

use crate::moves::Move;
use crate::reading::fields::{
    cut, host_and_port, name, node_and_number, node_and_number_then, number_and_node, number_then,
    one_node, part, three_numbers,
};
use crate::word::{MoveWord, move_word};
use std::alloc::Global;
use zre_capture::{command, id, number, number_and_hex, two_fields, two_numbers};
use zre_values::{OutOfMemory, PeerId};

// An identity, the field of a name, and where its node is.
#[tactic(auto, unfolding(crate::specs::Fields::who_and_place))]
fn who_and_place(text: &[u8]) -> Option<(PeerId, (&[u8], ([u8; 4], u16)))>
    ensures { option_map (λ p. (p.0, (p.1.0.now, p.1.1))) result ≡ who_and_place (fields_in text.now) }
{
    let (first, rest) = cut(text)?;
    let id = id(first)?;
    let (second, rest) = cut(rest)?;
    Some((id, (second, host_and_port(rest)?)))
}

#[tactic(auto, unfolding(crate::specs::Fields::start_in))]
fn start(alloc: Global, text: &[u8]) -> Result<Option<Move>, OutOfMemory>
    ensures { IfOk result (λ found. found ≡ start_in (fields_in text.now)) }
{
    let Some((node, (at, rest))) = node_and_number_then(text) else {
        return Ok(None);
    };
    let Some((id, (field, place))) = who_and_place(rest) else {
        return Ok(None);
    };
    let (host, port) = place;
    match name(alloc, field)? {
        Some(name) => Ok(Some(Move::Start {
            node,
            at,
            id,
            name,
            host,
            port,
        })),
        None => Ok(None),
    }
}

#[tactic(auto, unfolding(crate::specs::Fields::do_in))]
fn ask(alloc: Global, text: &[u8]) -> Result<Option<Move>, OutOfMemory>
    ensures { IfOk result (λ found. found ≡ do_in (fields_in text.now)) }
{
    let Some((node, (at, rest))) = node_and_number_then(text) else {
        return Ok(None);
    };
    match command(alloc, rest)? {
        Some(command) => Ok(Some(Move::Do { node, at, command })),
        None => Ok(None),
    }
}

#[tactic(auto, unfolding(crate::specs::Fields::carry_in))]
fn carry(text: &[u8]) -> Option<Move>
    ensures { result ≡ carry_in (fields_in text.now) }
{
    let (first, second) = two_fields(text)?;
    let conn = number(first)?;
    let part = part(second)?;
    Some(Move::Carry { conn, part })
}

#[tactic(auto, unfolding(crate::specs::Fields::reply_in))]
fn reply(alloc: Global, text: &[u8]) -> Result<Option<Move>, OutOfMemory>
    ensures { IfOk result (λ found. found ≡ reply_in (fields_in text.now)) }
{
    let Some((link, rest)) = number_then(text) else {
        return Ok(None);
    };
    match number_and_hex(alloc, rest)? {
        Some((at, bytes)) => Ok(Some(Move::Reply { link, at, bytes })),
        None => Ok(None),
    }
}

// The move of a word and the fields after it, of which there is one at least.
fn move_with(alloc: Global, word: MoveWord, rest: &[u8]) -> Result<Option<Move>, OutOfMemory>
    ensures { IfOk result (λ found. found ≡ move_from word (fields_in rest.now)) }
{
    match word {
        MoveWord::Start => start(alloc, rest),
        MoveWord::Crash => Ok(one_node(rest).map(|node| Move::Crash { node })),
        MoveWord::Tick => Ok(node_and_number(rest).map(|(node, at)| Move::Tick { node, at })),
        MoveWord::Do => ask(alloc, rest),
        MoveWord::Beacon => Ok(number_and_node(rest).map(|(beacon, (node, at))| Move::Beacon {
            beacon,
            node,
            at,
        })),
        MoveWord::Open => {
            Ok(number_and_node(rest).map(|(link, (node, at))| Move::Open { link, node, at }))
        }
        MoveWord::Carry => Ok(carry(rest)),
        MoveWord::Piece => {
            Ok(three_numbers(rest).map(|(conn, (count, at))| Move::Piece { conn, count, at }))
        }
        MoveWord::Shut => Ok(two_numbers(rest).map(|(conn, at)| Move::Shut { conn, at })),
        MoveWord::Linked => Ok(two_numbers(rest).map(|(link, at)| Move::Linked { link, at })),
        MoveWord::Unlinked => Ok(two_numbers(rest).map(|(link, at)| Move::Unlinked { link, at })),
        MoveWord::Reply => reply(alloc, rest),
        MoveWord::Took => {
            Ok(three_numbers(rest).map(|(link, (count, at))| Move::Took { link, count, at }))
        }
    }
}

/// The move of a line, if the line, without its line feed, is that of one.
#[tactic(auto, unfolding(crate::specs::Fields::move_in))]
pub(crate) fn read_move(alloc: Global, text: &[u8]) -> Result<Option<Move>, OutOfMemory>
    ensures { IfOk result (λ found. found ≡ move_of text.now) }
{
    let Some((field, rest)) = cut(text) else {
        return Ok(None);
    };
    match move_word(field) {
        Some(word) => move_with(alloc, word, rest),
        None => Ok(None),
    }
}

//! Entries read from their lines.

ghost use Rattle.std.specs.Prelude.{◌≡◌, [], ◌∷◌, Option, Some, None, option_map, IfOk, MatchOption};
ghost use Rattle.zre_capture.specs.Parts.{between, one, two};
ghost use Rattle.zre_capture.specs.Reading.{fields_in, one_number, one_group, two_numbers, number_and_hex};
ghost use Rattle.zre_capture.specs.Reading.{address_and_hex, id_and_frames, group_and_frames, command_from};
ghost use Rattle.zre_capture.specs.Reading.{command_in, input_from, input_in, entry_of};
ghost use Rattle.zre_capture.specs.Values.{number_of, reading_of, address_of, id_of, group_of, frames_of, hex_of};

use crate::format::Format;
use crate::found;
use crate::hexadecimal::hex;
use crate::list::frames;
use crate::pairs::both;
use crate::split::{first_part, split_once};
use crate::value::{address, group, id, number, reading};
use crate::word::{CommandWord, InputWord, command_word, input_word};
use std::alloc::Global;
use zre_outside::{Command, Entry, Input};
use zre_values::{Frames, Octets, OutOfMemory, PeerId};

/// The first field, and the text of those after it, if there are any.
pub fn first_field(text: &[u8]) -> Option<(&[u8], &[u8])>
    ensures { MatchOption result (fields_in text.now ≡ text.now ∷ [])
        (λ p. fields_in text.now ≡ p.0.now ∷ fields_in p.1.now) }
{
    first_part(text, b' ')
}

/// A part with no other after it, where this octet stands between parts.
pub(crate) fn one_part(text: &[u8], octet: u8) -> Option<&[u8]>
    ensures { option_map (λ f. f.now) result ≡ one (between octet text.now) }
{
    match split_once(text, octet) {
        None => Some(text),
        Some(_) => None,
    }
}

/// Two parts with no other after them.
pub(crate) fn two_parts(text: &[u8], octet: u8) -> Option<(&[u8], &[u8])>
    ensures { option_map (λ p. (p.0.now, p.1.now)) result ≡ two (between octet text.now) }
{
    let (first, rest) = split_once(text, octet)?;
    let second = one_part(rest, octet)?;
    Some((first, second))
}

/// Two fields with no other after them.
pub fn two_fields(text: &[u8]) -> Option<(&[u8], &[u8])>
    ensures { option_map (λ p. (p.0.now, p.1.now)) result ≡ two (fields_in text.now) }
{
    two_parts(text, b' ')
}

/// A number, alone.
#[tactic(auto, unfolding(crate::specs::Reading::one_number))]
pub fn one_number(text: &[u8]) -> Option<u64>
    ensures { result ≡ one_number (fields_in text.now) }
{
    number(one_part(text, b' ')?)
}

/// Two numbers with no field after them.
#[tactic(auto, unfolding(crate::specs::Reading::two_numbers))]
pub fn two_numbers(text: &[u8]) -> Option<(u64, u64)>
    ensures { result ≡ two_numbers (fields_in text.now) }
{
    let (first, second) = two_parts(text, b' ')?;
    Some((number(first)?, number(second)?))
}

#[tactic(auto, unfolding(crate::specs::Reading::one_group))]
fn one_group(alloc: Global, text: &[u8]) -> Result<Option<Octets>, OutOfMemory>
    ensures { IfOk result (λ found. found ≡ one_group (fields_in text.now)) }
{
    group(alloc, found!(one_part(text, b' ')))
}

/// A number, and octets in hexadecimal digits.
#[tactic(auto, unfolding(crate::specs::Reading::number_and_hex))]
pub fn number_and_hex(alloc: Global, text: &[u8]) -> Result<Option<(u64, Octets)>, OutOfMemory>
    ensures { IfOk result (λ found. found ≡ number_and_hex (fields_in text.now)) }
{
    let (first, second) = found!(two_parts(text, b' '));
    both(found!(number(first)), hex(alloc, second))
}

#[tactic(auto, unfolding(crate::specs::Reading::address_and_hex))]
fn address_and_hex(alloc: Global, text: &[u8]) -> Result<Option<([u8; 4], Octets)>, OutOfMemory>
    ensures { IfOk result (λ found. found ≡ address_and_hex (fields_in text.now)) }
{
    let (first, second) = found!(two_parts(text, b' '));
    both(found!(address(first)), hex(alloc, second))
}

#[tactic(auto, unfolding(crate::specs::Reading::id_and_frames))]
fn id_and_frames(alloc: Global, text: &[u8]) -> Result<Option<(PeerId, Frames)>, OutOfMemory>
    ensures { IfOk result (λ found. found ≡ id_and_frames (fields_in text.now)) }
{
    let (first, second) = found!(two_parts(text, b' '));
    both(found!(id(first)), frames(alloc, second))
}

#[tactic(auto, unfolding(crate::specs::Reading::group_and_frames))]
fn group_and_frames(alloc: Global, text: &[u8]) -> Result<Option<(Octets, Frames)>, OutOfMemory>
    ensures { IfOk result (λ found. found ≡ group_and_frames (fields_in text.now)) }
{
    let (first, second) = found!(two_parts(text, b' '));
    both(found!(group(alloc, first)?), frames(alloc, second))
}

// The command of a word and the fields after it, of which there is one at least.
fn command_with(
    alloc: Global,
    word: CommandWord,
    rest: &[u8],
) -> Result<Option<Command>, OutOfMemory>
    ensures { IfOk result (λ found. found ≡ command_from word (fields_in rest.now)) }
{
    match word {
        CommandWord::Join => Ok(one_group(alloc, rest)?.map(|group| Command::Join { group })),
        CommandWord::Leave => Ok(one_group(alloc, rest)?.map(|group| Command::Leave { group })),
        CommandWord::Whisper => Ok(id_and_frames(alloc, rest)?.map(|(
            peer,
            content,
        )| Command::Whisper { peer, content })),
        CommandWord::Shout => Ok(group_and_frames(alloc, rest)?.map(|(
            group,
            content,
        )| Command::Shout { group, content })),
        CommandWord::Bad => Ok(one_number(rest).map(|line| Command::Bad { line })),
        CommandWord::Quit => Ok(None),
    }
}

// The command of a word that no field stands after.
fn command_alone(word: CommandWord) -> Option<Command>
    ensures { result ≡ command_from word [] }
{
    match word {
        CommandWord::Quit => Some(Command::Quit),
        _ => None,
    }
}

/// The command of some fields.
#[tactic(auto, unfolding(crate::specs::Reading::command_in))]
pub fn command(alloc: Global, text: &[u8]) -> Result<Option<Command>, OutOfMemory>
    ensures { IfOk result (λ found. found ≡ command_in (fields_in text.now)) }
{
    match first_field(text) {
        None => Ok(command_alone(found!(command_word(text)))),
        Some((field, rest)) => command_with(alloc, found!(command_word(field)), rest),
    }
}

// What happened, of a word and the fields after it, of which there is one at least.
fn input_with(alloc: Global, word: InputWord, rest: &[u8]) -> Result<Option<Input>, OutOfMemory>
    ensures { IfOk result (λ found. found ≡ input_from word (fields_in rest.now)) }
{
    match word {
        InputWord::Datagram => Ok(address_and_hex(alloc, rest)?.map(|(
            from,
            bytes,
        )| Input::Datagram { from, bytes })),
        InputWord::Opened => Ok(one_number(rest).map(|conn| Input::Opened { conn })),
        InputWord::Piece => {
            Ok(number_and_hex(alloc, rest)?.map(|(conn, bytes)| Input::Piece { conn, bytes }))
        }
        InputWord::Shut => Ok(one_number(rest).map(|conn| Input::Shut { conn })),
        InputWord::Linked => Ok(one_number(rest).map(|link| Input::Linked { link })),
        InputWord::Reply => {
            Ok(number_and_hex(alloc, rest)?.map(|(link, bytes)| Input::Reply { link, bytes }))
        }
        InputWord::Unlinked => Ok(one_number(rest).map(|link| Input::Unlinked { link })),
        InputWord::Took => Ok(two_numbers(rest).map(|(link, count)| Input::Took { link, count })),
        InputWord::Do => Ok(command(alloc, rest)?.map(Input::Do)),
        InputWord::Tick => Ok(None),
        InputWord::End => Ok(None),
    }
}

// What happened, of a word that no field stands after.
fn input_alone(word: InputWord) -> Option<Input>
    ensures { result ≡ input_from word [] }
{
    match word {
        InputWord::Tick => Some(Input::Tick),
        InputWord::End => Some(Input::End),
        _ => None,
    }
}

#[tactic(auto, unfolding(crate::specs::Reading::input_in))]
fn input(alloc: Global, text: &[u8]) -> Result<Option<Input>, OutOfMemory>
    ensures { IfOk result (λ found. found ≡ input_in (fields_in text.now)) }
{
    match first_field(text) {
        None => Ok(input_alone(found!(input_word(text)))),
        Some((field, rest)) => input_with(alloc, found!(input_word(field)), rest),
    }
}

/// The entry of a line, if the line, without its line feed, is that of one, after an entry with this reading.
#[tactic(auto, unfolding(crate::specs::Reading::entry_in))]
pub fn entry(
    alloc: Global,
    format: Format,
    before: u64,
    text: &[u8],
) -> Result<Option<Entry>, OutOfMemory>
    ensures { IfOk result (λ found. found ≡ entry_of format before text.now) }
{
    let (field, rest) = found!(first_field(text));
    let at = found!(reading(format, before, field));
    let input = found!(input(alloc, rest)?);
    Ok(Some(Entry { at, input }))
}

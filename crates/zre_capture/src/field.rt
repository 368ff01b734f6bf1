//! The fields of lines, and what is required of each.

ghost use Rattle.std.specs.Prelude.{◌≡◌, ◌≤◌, ◌<◌, ◌+◌, ◌^◌, length, true, false, if◌then◌else◌};
ghost use Rattle.zre_capture.specs.Reading.{is_field, input_form, command_form, meets, after, after_field};
ghost use Rattle.zre_capture.specs.Reading.{given_after, given_by, form, head_form, entry_form, bad_field};
ghost use Rattle.zre_capture.specs.Reading.{but_last, fields_in};

use crate::format::Format;
use crate::headers::are_headers;
use crate::hexadecimal::is_hex;
use crate::line_start::LineStart;
use crate::list::are_frames;
use crate::split::split_once;
use crate::value::{address, id, is_group, is_short, number, number_within, reading_after};
use crate::word::{CommandWord, InputWord, command_word, input_word};
use zre_values::{DAY, NAME_OCTETS};

/// What a field has to be.
#[derive(Clone, Copy)]
pub enum Field {
    /// `zre-capture`.
    Mark,
    /// The number of format 1.
    First,
    /// That of format 2.
    Second,
    /// A number of 64 bits in decimal digits.
    Number,
    /// What a reading differs by from the one before.
    Difference,
    /// A word of what happened.
    Input,
    /// A word of a command.
    Command,
    Address,
    /// Octets in hexadecimal digits.
    Hex,
    /// A quoted group.
    Group,
    /// A list of quoted frames.
    Frames,
    /// An identity.
    Id,
    /// The quoted name of a node.
    Name,
    /// The number of a port.
    Port,
    /// Milliseconds of silence after which a peer is evasive.
    Evasive,
    /// Those after which it has expired, no fewer.
    Expired,
    /// A dictionary of headers.
    Headers,
}

// A field may rest on a number that is given by what came before it.
fn is_field(given: u64, field: Field, text: &[u8]) -> bool
    ensures { result ≡ is_field given field text.now }
{
    match field {
        Field::Mark => text == b"zre-capture".as_slice(),
        Field::First => text == b"1".as_slice(),
        Field::Second => text == b"2".as_slice(),
        Field::Number => number(text).is_some(),
        Field::Difference => reading_after(given, text).is_some(),
        Field::Input => input_word(text).is_some(),
        Field::Command => command_word(text).is_some(),
        Field::Address => address(text).is_some(),
        Field::Hex => is_hex(text),
        Field::Group => is_group(text),
        Field::Frames => are_frames(text),
        Field::Id => id(text).is_some(),
        Field::Name => is_short(NAME_OCTETS, text),
        Field::Port => number_within(1, 65535, text).is_some(),
        Field::Evasive => number_within(1, DAY, text).is_some(),
        Field::Expired => number_within(given, DAY, text).is_some(),
        Field::Headers => are_headers(text),
    }
}

fn command_form(word: CommandWord) -> &'static [Field]
    ensures { result.now ≡ command_form word }
{
    match word {
        CommandWord::Join | CommandWord::Leave => &[Field::Group],
        CommandWord::Whisper => &[Field::Id, Field::Frames],
        CommandWord::Shout => &[Field::Group, Field::Frames],
        CommandWord::Bad => &[Field::Number],
        CommandWord::Quit => &[],
    }
}

fn input_form(word: InputWord) -> &'static [Field]
    ensures { result.now ≡ input_form word }
{
    match word {
        InputWord::Datagram => &[Field::Address, Field::Hex],
        InputWord::Opened | InputWord::Shut | InputWord::Linked | InputWord::Unlinked => {
            &[Field::Number]
        }
        InputWord::Piece | InputWord::Reply => &[Field::Number, Field::Hex],
        InputWord::Took => &[Field::Number, Field::Number],
        InputWord::Do => &[Field::Command],
        InputWord::Tick | InputWord::End => &[],
    }
}

fn head_form(format: Format) -> &'static [Field]
    ensures { result.now ≡ head_form format }
{
    match format {
        Format::First => &[Field::Mark, Field::First],
        Format::Second => &[
            Field::Mark,
            Field::Second,
            Field::Id,
            Field::Name,
            Field::Address,
            Field::Port,
            Field::Evasive,
            Field::Expired,
            Field::Headers,
        ],
    }
}

fn entry_form(format: Format) -> &'static [Field]
    ensures { result.now ≡ entry_form format }
{
    match format {
        Format::First => &[Field::Number, Field::Input],
        Format::Second => &[Field::Difference, Field::Input],
    }
}

// The fields that a line begins with.
fn form(place: LineStart) -> &'static [Field]
    ensures { result.now ≡ form place }
{
    if place.line == 1 {
        head_form(place.format)
    } else {
        entry_form(place.format)
    }
}

fn meets(given: u64, required: &[Field], text: &[u8]) -> bool
    ensures { result ≡ meets given required.now text.now }
{
    match required {
        [] => false,
        [field, ..] => is_field(given, *field, text),
    }
}

fn given_by(field: Field, given: u64, text: &[u8]) -> u64
    ensures { result ≡ given_by field given text.now }
{
    match field {
        Field::Evasive => number_within(1, DAY, text).unwrap_or(given),
        Field::Mark => given,
        Field::First => given,
        Field::Second => given,
        Field::Number => given,
        Field::Difference => given,
        Field::Input => given,
        Field::Command => given,
        Field::Address => given,
        Field::Hex => given,
        Field::Group => given,
        Field::Frames => given,
        Field::Id => given,
        Field::Name => given,
        Field::Port => given,
        Field::Expired => given,
        Field::Headers => given,
    }
}

// What is given after a field.
fn given_after(given: u64, required: &[Field], text: &[u8]) -> u64
    ensures { result ≡ given_after given required.now text.now }
{
    match required {
        [] => given,
        [field, ..] => given_by(*field, given, text),
    }
}

fn after_field(field: Field, more: &'static [Field], text: &[u8]) -> &'static [Field]
    ensures { result.now ≡ after_field field more.now text.now }
{
    match field {
        Field::Input => match input_word(text) {
            Some(word) => input_form(word),
            None => &[],
        },
        Field::Command => match command_word(text) {
            Some(word) => command_form(word),
            None => &[],
        },
        Field::Mark => more,
        Field::First => more,
        Field::Second => more,
        Field::Number => more,
        Field::Difference => more,
        Field::Address => more,
        Field::Hex => more,
        Field::Group => more,
        Field::Frames => more,
        Field::Id => more,
        Field::Name => more,
        Field::Port => more,
        Field::Evasive => more,
        Field::Expired => more,
        Field::Headers => more,
    }
}

fn after(required: &'static [Field], text: &[u8]) -> &'static [Field]
    ensures { result.now ≡ after required.now text.now }
{
    match required {
        [] => required,
        [field, more @ ..] => after_field(*field, more, text),
    }
}

/// The column, from 1, of the first field of a line that isn't as required. The last field, after the last space, is
/// looked at only where it is whole.
pub fn first_bad(place: LineStart, text: &[u8], whole: bool) -> Option<u64>
    requires { length text.now < 2 ^ 32 }
    ensures { result ≡ bad_field place (if whole then fields_in text.now else but_last (fields_in text.now)) }
{
    let mut given = place.before;
    let mut required = form(place);
    let mut rest = text;
    let mut column: u64 = 1;
    'fields: while let Some((field, others)) = split_once(rest, b' ') {
        if !meets(given, required, field) {
            return Some(column);
        }
        given = given_after(given, required, field);
        required = after(required, field);
        column += field.len() as u64 + 1;
        rest = others;
    }
    if !whole {
        return None;
    }
    if meets(given, required, rest) {
        None
    } else {
        Some(column)
    }
}

//! The command of a line.

ghost use Rattle.std.specs.Prelude.{◌≡◌, [], ◌∷◌, IfOk};
ghost use Rattle.zre_capture.specs.Reading.{fields_in};
ghost use Rattle.zre_console.specs.lines.Orders.{word_alone, with_group, with_text, order_from, order_of};

use std::alloc::Global;
use zre_capture::{group, id, split_once};
use zre_outside::Command;
use zre_values::{Frames, Octets, OutOfMemory};

/// The most octets of a line. A longer one is a bad line.
pub const LINE_OCTETS: usize = 65536;

fn word_alone(word: &[u8]) -> Option<Command>
    ensures { result ≡ word_alone word.now }
{
    if word == b"quit".as_slice() {
        Some(Command::Quit)
    } else {
        None
    }
}

fn with_group(alloc: Global, word: &[u8], text: &[u8]) -> Result<Option<Command>, OutOfMemory>
    ensures { IfOk result (λ found. found ≡ with_group word.now text.now) }
{
    if word == b"join".as_slice() {
        let Some(group) = group(alloc, text)? else {
            return Ok(None);
        };
        return Ok(Some(Command::Join { group }));
    }
    if word == b"leave".as_slice() {
        let Some(group) = group(alloc, text)? else {
            return Ok(None);
        };
        return Ok(Some(Command::Leave { group }));
    }
    Ok(None)
}

// The content of a message: one frame.
fn one_frame(alloc: Global, text: &[u8]) -> Result<Frames, OutOfMemory>
    ensures { IfOk result (λ content. content ≡ text.now ∷ []) }
{
    let text = Octets::copy(alloc, text)?;
    let mut content = Frames::new(alloc);
    content.push(text)?;
    Ok(content)
}

fn with_text(
    alloc: Global,
    word: &[u8],
    to: &[u8],
    text: &[u8],
) -> Result<Option<Command>, OutOfMemory>
    ensures { IfOk result (λ found. found ≡ with_text word.now to.now text.now) }
{
    if word == b"shout".as_slice() {
        let Some(group) = group(alloc, to)? else {
            return Ok(None);
        };
        let Ok(content) = one_frame(alloc, text) else {
            drop(group);
            return Err(OutOfMemory);
        };
        return Ok(Some(Command::Shout { group, content }));
    }
    if word == b"whisper".as_slice() {
        let Some(peer) = id(to) else {
            return Ok(None);
        };
        let content = one_frame(alloc, text)?;
        return Ok(Some(Command::Whisper { peer, content }));
    }
    Ok(None)
}

fn order_in(alloc: Global, line: &[u8]) -> Result<Option<Command>, OutOfMemory>
    ensures { IfOk result (λ found. found ≡ order_from (fields_in line.now)) }
{
    let Some((word, rest)) = split_once(line, b' ') else {
        return Ok(word_alone(line));
    };
    let Some((to, text)) = split_once(rest, b' ') else {
        return with_group(alloc, word, rest);
    };
    with_text(alloc, word, to, text)
}

/// The command of a line, without its line feed. A line that is none, or is too long, is a bad one with this number.
pub fn order(alloc: Global, number: u64, line: &[u8]) -> Result<Command, OutOfMemory>
    ensures { IfOk result (λ command. command ≡ order_of number line.now) }
{
    if line.len() > LINE_OCTETS {
        return Ok(Command::Bad { line: number });
    }
    match order_in(alloc, line)? {
        Some(command) => Ok(command),
        None => Ok(Command::Bad { line: number }),
    }
}

//! Entries and scripts from the lines of captures.

use crate::error::RowError;
use crate::text::Text;
use std::alloc::Global;
use zre_capture::{CaptureFault, CaptureReader, HEAD};
use zre_outside::{Entries, Script, Turn};

/// The entry of a line of a capture, without its line feed. The answer fails where it has none.
pub fn entries_of(alloc: Global, line: &[u8], answer: &mut Text) -> Entries {
    let mut text = Text::new(alloc);
    text.put(HEAD);
    text.line(line);
    let mut entries = Entries::new(alloc);
    if text.is_whole(answer) {
        feed(alloc, text.as_slice(), &mut entries, answer);
    }
    entries
}

// Reads a capture.
fn feed(alloc: Global, text: &[u8], entries: &mut Entries, answer: &mut Text) {
    match CaptureReader::new(alloc).feed(text, entries) {
        Ok(()) => {}
        Err(CaptureFault::Bad(_)) => answer.fail(RowError::BadArgument),
        Err(CaptureFault::OutOfMemory) => answer.fail(RowError::OutOfMemory),
    }
}

// A line `look`, or that of an entry.
fn push_turn(alloc: Global, script: &mut Script, line: &[u8], answer: &mut Text) {
    if line == b"look".as_slice() {
        answer.note(script.push(Turn::Look));
    } else {
        for entry in entries_of(alloc, line, answer).into_vec() {
            answer.note(script.push(Turn::Entry(entry)));
        }
    }
}

/// The script of some lines, each with its line feed. The answer fails where one of them isn't a turn.
pub fn script_of(alloc: Global, text: &[u8], answer: &mut Text) -> Script {
    let mut script = Script::new(alloc);
    for line in text.split(|octet| *octet == b'\n') {
        if !line.is_empty() {
            push_turn(alloc, &mut script, line, answer);
        }
    }
    script
}

//! Captures: texts that are read in pieces, and the lines of their entries.

use crate::error::RowError;
use crate::subject::{Subject, steps};
use crate::text::Text;
use crate::words::Words;
use std::alloc::Global;
use zre_capture::{BadCapture, CaptureFault, CaptureReader};
use zre_outside::Entries;
use zre_values::OutOfMemory;

/// `on capture`: the text of a capture. `line TEXT` appends to it with a line feed, `text TEXT` without one,
/// `octets HEX` octets, and `many N HEX` the same octets so many times.
#[derive(Drop)]
pub struct CaptureSubject {
    /// The octets of the capture so far.
    pub text: Text,
}

impl Subject for CaptureSubject {
    fn step(&mut self, words: &mut Words<'_>, answer: &mut Text) {
        steps!(self, words, answer; read, place, line, text, octets, many)
    }
}

impl CaptureSubject {
    fn line(&mut self, words: &mut Words<'_>, _answer: &mut Text) {
        self.text.line(words.take_rest());
    }

    fn text(&mut self, words: &mut Words<'_>, _answer: &mut Text) {
        self.text.put(words.take_rest());
    }

    fn octets(&mut self, words: &mut Words<'_>, _answer: &mut Text) {
        self.text.put(words.octets().as_slice());
    }

    fn many(&mut self, words: &mut Words<'_>, _answer: &mut Text) {
        let times = words.number();
        let octets = words.octets();
        for _ in 0..times {
            self.text.put(octets.as_slice());
        }
    }

    // `read SIZE SIZE ..`: the lines of the entries that are read, and where the text is bad, or `whole`, in pieces of
    // each of these sizes.
    fn read(&self, words: &mut Words<'_>, answer: &mut Text) {
        self.compare(words.alloc(), words.numbers().as_slice(), true, answer);
    }

    // `place SIZE SIZE ..`: the same without the lines.
    fn place(&self, words: &mut Words<'_>, answer: &mut Text) {
        self.compare(words.alloc(), words.numbers().as_slice(), false, answer);
    }

    fn compare(&self, alloc: Global, sizes: &[u64], is_listed: bool, answer: &mut Text) {
        self.text.is_whole(answer);
        if let Some((first, others)) = sizes.split_first() {
            let text = self.told(alloc, *first, is_listed);
            answer.add(&text);
            for size in others {
                let other = self.told(alloc, *size, is_listed);
                if !answer.is_same(&text, &other) {
                    answer.line(b"other sizes read otherwise");
                }
            }
        }
    }

    fn told(&self, alloc: Global, size: u64, is_listed: bool) -> Text {
        let mut lines = Text::new(alloc);
        let mut entries = Entries::new(alloc);
        let read = read_in_pieces(alloc, self.text.as_slice(), size, &mut entries);
        if is_listed {
            for entry in entries.as_slice() {
                lines.entry(entry);
            }
        }
        push_place(&mut lines, read);
        lines
    }
}

// Reads a text in pieces of this size, of one octet at least, and says where it is bad.
fn read_in_pieces(
    alloc: Global,
    text: &[u8],
    size: u64,
    entries: &mut Entries,
) -> Result<Option<BadCapture>, OutOfMemory> {
    let mut reader = CaptureReader::new(alloc);
    let mut rest = text;
    'pieces: while !rest.is_empty() {
        let (piece, later) = rest.split_at(rest.len().min((size as usize).max(1)));
        match reader.feed(piece, entries) {
            Ok(()) => rest = later,
            Err(CaptureFault::Bad(bad)) => return Ok(Some(bad)),
            Err(CaptureFault::OutOfMemory) => return Err(OutOfMemory),
        }
    }
    Ok(reader.finish().err())
}

// `bad LINE COLUMN`, or `whole`.
fn push_place(out: &mut Text, read: Result<Option<BadCapture>, OutOfMemory>) {
    match read {
        Ok(Some(BadCapture { line, column })) => {
            out.count(b"bad", line);
            out.count(b"", column);
        }
        Ok(None) => out.put(b"whole"),
        Err(OutOfMemory) => out.fail(RowError::OutOfMemory),
    }
    out.end();
}

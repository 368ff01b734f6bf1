//! The quoted texts of octets.

use crate::error::RowError;
use crate::subject::{Subject, steps};
use crate::text::Text;
use crate::words::Words;
use zre_values::{Octets, OutOfMemory, is_quoted, quote, unquote};

/// `on quoting`: both ways, of one text at a time.
#[derive(Drop)]
pub struct QuotingSubject;

impl Subject for QuotingSubject {
    fn step(&mut self, words: &mut Words<'_>, answer: &mut Text) {
        steps!(self, words, answer; quote, unquote)
    }
}

impl QuotingSubject {
    // `quote HEX` answers the text.
    fn quote(&self, words: &mut Words<'_>, answer: &mut Text) {
        if let Some(text) = answer.made(quote(words.alloc(), words.octets().as_slice())) {
            answer.line(text.as_slice());
        }
    }

    // `unquote TEXT` answers the octets, or `none`. The text is the rest of the line as it stands, and may be empty.
    fn unquote(&self, words: &mut Words<'_>, answer: &mut Text) {
        let text = words.take_rest();
        push_unquoted(&unquote(words.alloc(), text), is_quoted(text), answer);
    }
}

fn push_unquoted(
    unquoted: &Result<Option<Octets>, OutOfMemory>,
    is_quoted: bool,
    answer: &mut Text,
) {
    match unquoted {
        Ok(Some(octets)) => answer.hex(octets.as_slice()),
        Ok(None) => answer.put(b"none"),
        Err(OutOfMemory) => answer.fail(RowError::OutOfMemory),
    }
    if matches!(unquoted, Ok(Some(_))) != is_quoted {
        answer.put(b" but unquote and is_quoted differ");
    }
    answer.end();
}

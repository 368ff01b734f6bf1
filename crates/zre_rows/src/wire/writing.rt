//! What is written of a stream.

use crate::error::RowError;
use crate::subject::{Subject, steps};
use crate::text::Text;
use crate::words::Words;
use zre_values::{Octets, OutOfMemory};
use zre_zmtp::{SocketType, context_of, greeting, pong, ready, write_message};

fn push_written(answer: &mut Text, written: Result<Octets, OutOfMemory>) {
    if let Some(octets) = answer.made(written) {
        answer.hex_line(octets.as_slice());
    }
}

/// `on writing`: the greeting, READY, PONG, and the frames of messages.
#[derive(Drop)]
pub struct WritingSubject;

impl Subject for WritingSubject {
    fn step(&mut self, words: &mut Words<'_>, answer: &mut Text) {
        steps!(self, words, answer; greeting, router, dealer, pong, context, message)
    }
}

impl WritingSubject {
    // `greeting`
    fn greeting(&self, _words: &mut Words<'_>, answer: &mut Text) {
        answer.hex_line(&greeting());
    }

    // `router`: READY of a mailbox.
    fn router(&self, words: &mut Words<'_>, answer: &mut Text) {
        push_written(answer, ready(words.alloc(), SocketType::Router, None));
    }

    // `dealer ID`: READY of the node with this identity.
    fn dealer(&self, words: &mut Words<'_>, answer: &mut Text) {
        let id = Some(words.id());
        push_written(answer, ready(words.alloc(), SocketType::Dealer, id));
    }

    // `pong HEX`: PONG with this context.
    fn pong(&self, words: &mut Words<'_>, answer: &mut Text) {
        let context = words.octets();
        push_written(answer, pong(words.alloc(), context.as_slice()));
    }

    // `context HEX HEX`: the context of the command with this name and these octets after it, or `none`.
    fn context(&self, words: &mut Words<'_>, answer: &mut Text) {
        let name = words.octets();
        let rest = words.octets();
        match context_of(name.as_slice(), rest.as_slice()) {
            Some(context) => answer.hex_line(context),
            None => answer.line(b"none"),
        }
    }

    // `message HEX ..`: the octets of frames with these bodies, of which there is one at least.
    fn message(&self, words: &mut Words<'_>, answer: &mut Text) {
        let frames = words.frames();
        if frames.len() < 1 {
            answer.fail(RowError::BadArgument);
        } else {
            push_written(answer, write_message(words.alloc(), &frames));
        }
    }
}

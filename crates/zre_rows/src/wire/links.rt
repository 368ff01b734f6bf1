//! Outgoing connections.

use crate::error::RowError;
use crate::subject::{Subject, steps};
use crate::text::Text;
use crate::wire::texts::push_fault;
use crate::words::Words;
use std::alloc::Global;
use zre_link::{Link, PushFault, ReplyFault, Tail};
use zre_msg::{Body, Message};
use zre_values::{Frames, Octets};
use zre_zmtp::FeedFault;

/// More octets than this aren't whispered by a step.
const CONTENT: u64 = 2097152;

/// `on links ID`: the link of the node with this identity.
#[derive(Drop)]
pub struct LinkSubject {
    link: Link,
}

// `slow UNSENT SIZE`
fn push_slow(answer: &mut Text, unsent: u64, size: u64) {
    answer.count(b"slow", unsent);
    answer.count(b"", size);
    answer.end();
}

fn push_pushed(answer: &mut Text, pushed: Result<(), PushFault>) {
    match pushed {
        Ok(()) => {}
        Err(PushFault::Slow { unsent, size }) => push_slow(answer, unsent, size),
        Err(PushFault::OutOfMemory) => answer.fail(RowError::OutOfMemory),
    }
}

fn push_heard(answer: &mut Text, heard: Result<(), ReplyFault>) {
    match heard {
        Ok(()) => {}
        Err(ReplyFault::Zmtp(fault)) => push_fault(answer, FeedFault::Zmtp(fault)),
        Err(ReplyFault::Slow { unsent, size }) => push_slow(answer, unsent, size),
        Err(ReplyFault::OutOfMemory) => answer.fail(RowError::OutOfMemory),
    }
}

// Puts the body of a message, whose own number counts for nothing.
fn push(link: &mut Link, message: &mut Message, answer: &mut Text) {
    if message.fits() {
        push_pushed(answer, link.push(&mut message.body));
    } else {
        answer.fail(RowError::BadArgument);
    }
}

// Puts a SHOUT to a group, whose content is that of the tail.
fn shout(link: &mut Link, group: &[u8], tail: &Tail, answer: &mut Text) {
    if group.len() < 256 {
        push_pushed(answer, link.push_shout(group, tail));
    } else {
        answer.fail(RowError::BadArgument);
    }
}

// Takes what may go out, at most so many octets at a time.
fn drain(link: &mut Link, most: usize, out: &mut Text) {
    for _ in 0..1024 {
        let front = link.front();
        let count = front.len().min(most);
        out.put(&front[..count]);
        link.took(count as u64);
    }
}

fn reply(link: &mut Link, piece: &[u8]) -> Result<(), ReplyFault> {
    if link.is_linked() {
        link.reply(piece)
    } else {
        Ok(())
    }
}

// A WHISPER of one frame.
fn whisper_of(alloc: Global, frame: Octets) -> Message {
    let content = Frames::of(alloc, frame);
    Message {
        sequence: 0,
        body: Body::Whisper { content },
    }
}

impl Subject for LinkSubject {
    fn step(&mut self, words: &mut Words<'_>, answer: &mut Text) {
        steps!(self, words, answer; push, whisper, shout, linked, reply, took, talk, counts)
    }
}

impl LinkSubject {
    pub fn make(words: &mut Words<'_>, answer: &mut Text) -> Option<Self> {
        match Link::new(words.alloc(), words.id()) {
            Ok(link) => Some(LinkSubject { link }),
            Err(_) => answer.refuse(RowError::OutOfMemory),
        }
    }

    // `push HEX ..`: puts the body of the message with these frames.
    fn push(&mut self, words: &mut Words<'_>, answer: &mut Text) {
        match Message::from_frames(words.alloc(), words.frames()) {
            Ok(mut message) => push(&mut self.link, &mut message, answer),
            Err(_) => answer.fail(RowError::BadArgument),
        }
    }

    // `whisper COUNT`: puts a WHISPER of a frame of so many zeros.
    fn whisper(&mut self, words: &mut Words<'_>, answer: &mut Text) {
        let count = words.number();
        if count > CONTENT {
            answer.fail(RowError::BadArgument);
        } else {
            self.whisper_zeros(words.alloc(), count as usize, answer);
        }
    }

    fn whisper_zeros(&mut self, alloc: Global, count: usize, answer: &mut Text) {
        match Vec::from_elem(alloc, 0u8, count) {
            Ok(zeros) => {
                let mut message = whisper_of(alloc, Octets::from_vec(zeros));
                push(&mut self.link, &mut message, answer);
            }
            Err(_) => answer.fail(RowError::OutOfMemory),
        }
    }

    // `shout HEX HEX ..`: puts a SHOUT to this group with these frames of content.
    fn shout(&mut self, words: &mut Words<'_>, answer: &mut Text) {
        let group = words.octets();
        match Tail::of(words.alloc(), &words.frames()) {
            Ok(tail) => shout(&mut self.link, group.as_slice(), &tail, answer),
            Err(_) => answer.fail(RowError::OutOfMemory),
        }
    }

    // `took COUNT`: so many octets have gone out.
    fn took(&mut self, words: &mut Words<'_>, _answer: &mut Text) {
        self.link.took(words.number());
    }

    // `linked`
    fn linked(&mut self, _words: &mut Words<'_>, _answer: &mut Text) {
        self.link.linked();
    }

    // `reply HEX`: hears a piece of replies, and takes nothing of what may go out. It answers why it was refused.
    fn reply(&mut self, words: &mut Words<'_>, answer: &mut Text) {
        let heard = reply(&mut self.link, words.octets().as_slice());
        push_heard(answer, heard);
    }

    // `talk MOST HEX`: hears replies in pieces of at most so many octets, and takes what may go out before and after
    // each, at most so many octets at a time. It answers the octets that went out, and what is wrong with the last
    // piece.
    fn talk(&mut self, words: &mut Words<'_>, answer: &mut Text) {
        let most = usize::try_from(words.number()).unwrap_or(usize::MAX).max(1);
        let replies = words.octets();
        let mut out = Text::new(words.alloc());
        let heard = self.hear(replies.as_slice(), most, &mut out);
        if out.is_whole(answer) {
            answer.hex_line(out.as_slice());
        }
        push_heard(answer, heard);
    }

    fn hear(&mut self, replies: &[u8], most: usize, out: &mut Text) -> Result<(), ReplyFault> {
        let mut heard = Ok(());
        drain(&mut self.link, most, out);
        for piece in replies.chunks(most.max(1)) {
            heard = reply(&mut self.link, piece);
            drain(&mut self.link, most, out);
        }
        heard
    }

    // `counts` answers how many bodies were put, how many octets wait and may go out, and how many are kept of the
    // replies.
    fn counts(&self, _words: &mut Words<'_>, answer: &mut Text) {
        answer.count(b"sent", self.link.sent());
        answer.count(b" unsent", self.link.unsent());
        answer.count(b" front", self.link.front().len() as u64);
        answer.count(b" kept", self.link.kept());
        answer.end();
    }
}

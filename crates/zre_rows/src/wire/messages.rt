//! Messages and their frames, read and written again, one message at a time.

use crate::error::RowError;
use crate::subject::{Subject, steps};
use crate::text::Text;
use crate::wire::body::push_body;
use crate::words::Words;
use std::alloc::Global;
use zre_msg::{Bad, BadWhy, Body, LentBody, LentContent, LentMessage, Message, ReadFault};
use zre_values::{Frames, Octets, OutOfMemory};

fn why_text(why: BadWhy) -> &'static [u8] {
    match why {
        BadWhy::Signature => b"Signature",
        BadWhy::Version => b"Version",
        BadWhy::Short => b"Short",
        BadWhy::Trailing => b"Trailing",
        BadWhy::ExtraFrames => b"ExtraFrames",
    }
}

fn push_bad(out: &mut Text, bad: Bad) {
    out.count(why_text(bad.why), u64::from(bad.frame));
    out.count(b"", u64::from(bad.place));
    out.end();
}

fn push_fault(out: &mut Text, fault: ReadFault) {
    match fault {
        ReadFault::Bad(bad) => push_bad(out, bad),
        ReadFault::OutOfMemory => out.fail(RowError::OutOfMemory),
    }
}

// The message, or what is wrong with the frames.
fn push_read(out: &mut Text, read: Result<Message, ReadFault>) {
    match read {
        Ok(message) => {
            push_body(out, message.sequence, &message.body);
            out.end();
        }
        Err(fault) => push_fault(out, fault),
    }
}

fn len_of(content: &LentContent<'_>) -> u64 {
    match content {
        LentContent::Frames(frames) => frames.len() as u64,
        LentContent::One(Some(_)) => 1,
        LentContent::One(None) => 0,
    }
}

// The message that lies in frames: `lent`, its number and that of the frames after the first.
fn push_lent(out: &mut Text, lent: &LentMessage<'_>) {
    out.count(b"lent", u64::from(lent.sequence));
    out.count(b"", len_of(&lent.content));
    push_command(out, &lent.command);
    out.end();
}

fn push_group(out: &mut Text, word: &[u8], group: &[u8], status: u8) {
    out.put(word);
    out.hex(group);
    out.count(b"", u64::from(status));
}

fn push_command(out: &mut Text, command: &LentBody<'_>) {
    match command {
        LentBody::Whisper => out.put(b" whisper"),
        LentBody::Shout { group } => {
            out.put(b" shout ");
            out.hex(group);
        }
        LentBody::Join { group, status } => push_group(out, b" join ", group, *status),
        LentBody::Leave { group, status } => push_group(out, b" leave ", group, *status),
        LentBody::Ping => out.put(b" ping"),
        LentBody::PingOk => out.put(b" ping-ok"),
        LentBody::Other { number, rest } => {
            out.count(b" other", u64::from(*number));
            out.octet(b' ');
            out.hex(rest);
        }
    }
}

fn push_seen(out: &mut Text, frames: &Frames) {
    match Message::see(frames) {
        Ok(Some(lent)) => push_lent(out, &lent),
        Ok(None) => out.line(b"begins as HELLO does"),
        Err(fault) => push_fault(out, fault),
    }
}

// The octets of a message that fits on a connection, their number, and its frames where they are asked for.
fn push_octets_of(alloc: Global, out: &mut Text, message: &Message, with_frames: bool) {
    if !message.fits() {
        return out.line(b"fits no frames");
    }
    let mut octets = Octets::new(alloc);
    out.note(message.push_to(&mut octets));
    push_measured(out, octets.as_slice(), message);
    drop(octets);
    if with_frames {
        push_frames(out, message.write(alloc));
    }
}

fn push_measured(out: &mut Text, octets: &[u8], message: &Message) {
    out.hex(octets);
    out.count(b"", message.octets_len());
    out.line(if message.is_big() { b" big" } else { b" fits" });
}

fn push_frames(out: &mut Text, frames: Result<Frames, OutOfMemory>) {
    if let Some(frames) = out.made(frames) {
        for frame in frames.as_slice() {
            out.put(b"frame ");
            out.hex_line(frame.as_slice());
        }
    }
}

/// `on messages`: each step is of one message.
#[derive(Drop)]
pub struct MessageSubject;

impl Subject for MessageSubject {
    fn step(&mut self, words: &mut Words<'_>, answer: &mut Text) {
        steps!(self, words, answer; read, spell, join, whisper)
    }
}

impl MessageSubject {
    // `read HEX ..` answers what the frames mean; it has to be the same whether they are lent or given. Then what lies
    // in them.
    fn read(&self, words: &mut Words<'_>, answer: &mut Text) {
        let frames = words.frames();
        let mut lent = Text::new(words.alloc());
        push_read(&mut lent, Message::read(words.alloc(), &frames));
        answer.add(&lent);
        push_seen(answer, &frames);
        let mut given = Text::new(words.alloc());
        push_read(&mut given, Message::from_frames(words.alloc(), frames));
        if !answer.is_same(&given, &lent) {
            answer.line(b"not so of frames that are given");
        }
    }

    // `spell HEX ..` answers the octets of the message that the frames mean, and its frames.
    fn spell(&self, words: &mut Words<'_>, answer: &mut Text) {
        let alloc = words.alloc();
        match Message::from_frames(alloc, words.frames()) {
            Ok(message) => push_octets_of(alloc, answer, &message, true),
            Err(_) => answer.fail(RowError::BadArgument),
        }
    }

    // `join HEX`: the octets of a JOIN of this group with the number 9 and the status 0.
    fn join(&self, words: &mut Words<'_>, answer: &mut Text) {
        let group = words.octets();
        push_ninth(words.alloc(), answer, Body::Join { group, status: 0 });
    }

    // `whisper COUNT HEX`: the octets of a WHISPER with so many frames of these octets and the number 9.
    fn whisper(&self, words: &mut Words<'_>, answer: &mut Text) {
        let count = words.number();
        let octets = words.octets();
        let content = copies_of(words.alloc(), count, octets.as_slice(), answer);
        push_ninth(words.alloc(), answer, Body::Whisper { content });
    }
}

fn push_ninth(alloc: Global, answer: &mut Text, body: Body) {
    push_octets_of(alloc, answer, &Message { sequence: 9, body }, false);
}

fn copies_of(alloc: Global, count: u64, octets: &[u8], answer: &mut Text) -> Frames {
    let mut content = Frames::new(alloc);
    for _ in 0..count {
        answer.copy_to(alloc, &mut content, octets);
    }
    content
}

//! Streams of ZMTP, in any pieces.

use crate::error::RowError;
use crate::subject::{Subject, steps};
use crate::text::Text;
use crate::wire::texts::{push_fault, push_fed};
use crate::words::Words;
use std::alloc::Global;
use zre_values::{Frames, Octets, take_apart};
use zre_zmtp::{Item, Items, Reader, Want, What};

/// `on streams traffic`, `any`, `router` or `dealer ID`, where the identity is the node's own: a reader with the items
/// of the last step, and what it wants; traffic alone where it wants nothing.
pub struct StreamSubject {
    want: Option<Want>,
    reader: Reader,
    items: Items,
}

impl Drop for StreamSubject {
    fn drop(self) {
        take_apart!(self, StreamSubject: want, reader, items);
    }
}

fn reader_of(alloc: Global, want: Option<Want>) -> Reader {
    match want {
        Some(Want::Any) => Reader::stream(alloc),
        Some(want) => Reader::wanting(alloc, want),
        None => Reader::traffic(alloc),
    }
}

fn push_option(out: &mut Text, octets: &Option<Octets>) {
    match octets {
        Some(octets) => out.quoted(octets.as_slice()),
        None => out.octet(b'?'),
    }
}

fn push_greeting(out: &mut Text, major: u8, minor: u8) {
    out.count(b" greeting", u64::from(major));
    out.octet(b'.');
    out.number(u64::from(minor));
}

fn push_ready(out: &mut Text, size: u64, socket_type: &Option<Octets>, identity: &Option<Octets>) {
    out.count(b" ready", size);
    out.octet(b' ');
    push_option(out, socket_type);
    out.octet(b' ');
    push_option(out, identity);
}

fn push_command(out: &mut Text, size: u64, name: &Octets, body: &Octets) {
    out.count(b" command", size);
    out.octet(b' ');
    out.quoted(name.as_slice());
    out.count(b"", body.len() as u64);
}

fn push_message(out: &mut Text, frames: &Frames) {
    out.count(b" message", frames.len() as u64);
    out.count(b"", frames.total());
}

fn push_what(out: &mut Text, what: &What) {
    match what {
        What::Greeting { major, minor } => push_greeting(out, *major, *minor),
        What::Ready {
            size,
            socket_type,
            identity,
        } => push_ready(out, *size, socket_type, identity),
        What::Command { size, name, body } => push_command(out, *size, name, body),
        What::Message(frames) => push_message(out, frames),
    }
}

// The line of each item: from where to where it goes, and what it says; of a message its frames and their octets.
fn push_items(out: &mut Text, items: &Items) {
    for item in items.as_slice() {
        let Item { start, end, what } = item;
        out.number(*start);
        out.octet(b'-');
        out.number(*end);
        push_what(out, what);
        out.end();
    }
}

fn want_of(kind: &[u8], words: &mut Words<'_>, answer: &mut Text) -> Option<Want> {
    if kind == b"dealer".as_slice() {
        Some(Want::Dealer(words.id()))
    } else if kind == b"router".as_slice() {
        Some(Want::Router)
    } else if kind == b"any".as_slice() {
        Some(Want::Any)
    } else {
        answer.refuse(RowError::BadArgument)
    }
}

impl Subject for StreamSubject {
    fn step(&mut self, words: &mut Words<'_>, answer: &mut Text) {
        steps!(self, words, answer; feed, contents, rest, cuts, octets)
    }
}

impl StreamSubject {
    pub fn make(words: &mut Words<'_>, answer: &mut Text) -> Option<Self> {
        let kind = words.field();
        let want = if kind == b"traffic".as_slice() {
            None
        } else {
            want_of(kind, words, answer)
        };
        Some(StreamSubject::new(words.alloc(), want))
    }

    fn new(alloc: Global, want: Option<Want>) -> Self {
        StreamSubject {
            want,
            reader: reader_of(alloc, want),
            items: Items::new(alloc),
        }
    }

    // `at rest, kept N` or `under way, kept N`.
    fn push_rest(&self, out: &mut Text) {
        let word: &[u8] = if self.reader.at_rest() {
            b"at rest, kept"
        } else {
            b"under way, kept"
        };
        out.count(word, self.reader.kept());
        out.end();
    }

    // Appends the items of a piece, and the fault in it. It gives whether all is well.
    fn feed_piece(&mut self, piece: &[u8], answer: &mut Text) -> bool {
        if self.reader.spent() {
            return false;
        }
        self.items.clear();
        let fed = self.reader.feed(piece, &mut self.items);
        push_items(answer, &self.items);
        match fed {
            Ok(()) => true,
            Err(fault) => {
                push_fault(answer, fault);
                false
            }
        }
    }

    // `feed HEX ..`: reads pieces one after another.
    fn feed(&mut self, words: &mut Words<'_>, answer: &mut Text) {
        self.feed_pieces(&words.frames(), answer);
    }

    fn feed_pieces(&mut self, pieces: &Frames, answer: &mut Text) {
        if self.reader.spent() {
            answer.fail(RowError::BadArgument);
            return;
        }
        self.items.clear();
        let fed = self.reader.feed_pieces(pieces, &mut self.items);
        push_items(answer, &self.items);
        push_fed(answer, fed);
    }

    // `contents`: the frames of each message of the last step.
    fn contents(&self, _words: &mut Words<'_>, answer: &mut Text) {
        for item in self.items.as_slice() {
            if let What::Message(frames) = &item.what {
                answer.frames(frames);
                answer.end();
            }
        }
    }

    // `rest`: whether the stream is at rest, and how many octets are kept.
    fn rest(&self, _words: &mut Words<'_>, answer: &mut Text) {
        self.push_rest(answer);
    }

    // What comes of a piece, and of others of at most so many octets after it.
    fn text_of(&self, alloc: Global, front: &[u8], later: &[u8], most: usize) -> Text {
        let mut text = Text::new(alloc);
        let mut streams = StreamSubject::new(alloc, self.want);
        streams.feed_piece(front, &mut text);
        for piece in later.chunks(most.max(1)) {
            streams.feed_piece(piece, &mut text);
        }
        streams.push_rest(&mut text);
        text
    }

    // `cuts HEX`: what comes of the octets in one piece. Each cut into
    // two pieces, and one octet after another, has to answer the same.
    fn cuts(&self, words: &mut Words<'_>, answer: &mut Text) {
        let octets = words.octets();
        let whole = self.text_of(words.alloc(), octets.as_slice(), &[], 1);
        answer.add(&whole);
        self.compare_cuts(words.alloc(), octets.as_slice(), &whole, answer);
    }

    fn compare_cuts(&self, alloc: Global, octets: &[u8], whole: &Text, answer: &mut Text) {
        for cut in 0..octets.len() {
            let (front, later) = octets.split_at(cut);
            let other = self.text_of(alloc, front, later, octets.len());
            if !answer.is_same(whole, &other) {
                answer.count(b"not so when cut at", cut as u64);
                answer.end();
            }
        }
        let other = self.text_of(alloc, &[], octets, 1);
        if !answer.is_same(whole, &other) {
            answer.line(b"not so octet by octet");
        }
    }

    // `octets HEX`: reads one octet after another up to the first fault, and tells which octet showed it.
    fn octets(&mut self, words: &mut Words<'_>, answer: &mut Text) {
        match self.first_refused(words.octets().as_slice(), answer) {
            Some(i) => {
                answer.count(b"shown by octet", i);
                answer.end();
            }
            None => self.push_rest(answer),
        }
    }

    fn first_refused(&mut self, octets: &[u8], answer: &mut Text) -> Option<u64> {
        for (i, octet) in octets.iter().enumerate() {
            if !self.feed_piece(&[*octet], answer) {
                return Some(i as u64);
            }
        }
        None
    }
}

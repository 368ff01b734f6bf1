//! Incoming connections.

use crate::subject::{Subject, steps};
use crate::text::Text;
use crate::wire::body::push_body;
use crate::wire::texts::push_fed;
use crate::words::Words;
use std::alloc::Global;
use zre_mailbox::{Arrival, Arrivals, Conn};
use zre_values::{PeerId, take_apart};

/// `on conns ID`: a connection to the node with this identity, and what arrived with the last step.
pub struct ConnSubject {
    own: PeerId,
    conn: Conn,
    arrivals: Arrivals,
}

impl Drop for ConnSubject {
    fn drop(self) {
        take_apart!(self, ConnSubject: own, conn, arrivals);
    }
}

fn push_arrivals(out: &mut Text, arrivals: &Arrivals) {
    for arrival in arrivals.as_slice() {
        match arrival {
            Arrival::Greeted => out.put(b"greeted"),
            Arrival::Shaken(peer) => {
                out.put(b"shaken ");
                out.id(*peer);
            }
            Arrival::Ping(context) => {
                out.put(b"ping ");
                out.hex(context.as_slice());
            }
            Arrival::Message(message) => push_body(out, message.sequence, &message.body),
        }
        out.end();
    }
}

impl Subject for ConnSubject {
    fn step(&mut self, words: &mut Words<'_>, answer: &mut Text) {
        steps!(self, words, answer; feed, ignore, state, cuts)
    }
}

impl ConnSubject {
    pub fn make(words: &mut Words<'_>) -> Self {
        ConnSubject::new(words.alloc(), words.id())
    }

    fn new(alloc: Global, own: PeerId) -> Self {
        ConnSubject {
            own,
            conn: Conn::accept(alloc, own),
            arrivals: Arrivals::new(alloc),
        }
    }

    // Appends what arrives with a piece, and the fault in it. One that is spent or ignored takes nothing.
    fn take(&mut self, piece: &[u8], answer: &mut Text) {
        if !self.conn.ignored() && !self.conn.spent() {
            self.arrivals.clear();
            let fed = self.conn.feed(piece, &mut self.arrivals);
            push_arrivals(answer, &self.arrivals);
            push_fed(answer, fed);
        }
    }

    // `kept N`, then whom READY introduced, and whether the connection is spent or ignored.
    fn push_state(&self, answer: &mut Text) {
        answer.count(b"kept", self.conn.kept());
        if let Some(peer) = self.conn.identity() {
            answer.octet(b' ');
            answer.id(peer);
        }
        answer.put(if self.conn.spent() { b" spent" } else { b"" });
        answer.put(if self.conn.ignored() {
            b" ignored"
        } else {
            b""
        });
        answer.end();
    }

    // `feed HEX`
    fn feed(&mut self, words: &mut Words<'_>, answer: &mut Text) {
        self.take(words.octets().as_slice(), answer);
    }

    // `ignore`: it is ignored, and its state.
    fn ignore(&mut self, _words: &mut Words<'_>, answer: &mut Text) {
        self.conn.ignore();
        self.push_state(answer);
    }

    // `state`
    fn state(&self, _words: &mut Words<'_>, answer: &mut Text) {
        self.push_state(answer);
    }

    // What comes of octets in pieces of at most so many, the state of the connection after them, and that when it is
    // ignored.
    fn text_of(&self, alloc: Global, octets: &[u8], most: usize) -> Text {
        let mut text = Text::new(alloc);
        let mut conns = ConnSubject::new(alloc, self.own);
        for piece in octets.chunks(most.max(1)) {
            conns.take(piece, &mut text);
        }
        conns.push_state(&mut text);
        conns.conn.ignore();
        conns.push_state(&mut text);
        text
    }

    // `cuts HEX`: what comes of the octets in one piece. In pieces of a few octets they have to say the same.
    fn cuts(&self, words: &mut Words<'_>, answer: &mut Text) {
        self.compare_cuts(words.alloc(), words.octets().as_slice(), answer);
    }

    fn compare_cuts(&self, alloc: Global, octets: &[u8], answer: &mut Text) {
        let text = self.text_of(alloc, octets, octets.len());
        answer.add(&text);
        for most in [1usize, 2, 7, 64, 100] {
            let other = self.text_of(alloc, octets, most);
            if !answer.is_same(&text, &other) {
                answer.count(b"not so in pieces of", most as u64);
                answer.end();
            }
        }
    }
}

//! A sink that remembers the last line that was written.

use std::str;
use zre_fabric::{Observed, Observer};

/// So many octets of a line are remembered: a line that tells of bad input has fewer.
const LENGTH: usize = 64;

/// The front of the last line.
#[derive(Drop)]
pub(crate) struct LastLine {
    octets: [u8; LENGTH],
    len: usize,
    is_ended: bool,
}

impl LastLine {
    pub(crate) fn new() -> Self {
        LastLine {
            octets: [0; LENGTH],
            len: 0,
            is_ended: false,
        }
    }

    fn push(&mut self, octet: u8) {
        if self.is_ended {
            self.len = 0;
        }
        self.is_ended = octet == b'\n';
        if !self.is_ended && self.len < LENGTH {
            self.octets[self.len] = octet;
            self.len += 1;
        }
    }

    // A line that began before the end of these octets is remembered from there on.
    fn push_end(&mut self, octets: &[u8]) {
        for octet in &octets[octets.len().saturating_sub(LENGTH)..] {
            self.push(*octet);
        }
    }

    /// What follows this front in the line, where that is text.
    pub(crate) fn after(&self, front: &[u8]) -> Option<&str> {
        let line = self.octets.get(..self.len)?;
        match str::from_utf8(line.strip_prefix(front)?) {
            Ok(text) => Some(text),
            Err(_) => None,
        }
    }
}

impl Observer for LastLine {
    fn wrote(&mut self, octets: &[u8]) {
        self.push_end(octets);
    }
}

/// A sink, and the last line that was written to it.
pub(crate) type Remembering<S> = Observed<S, LastLine>;

//! A text that is written with no test at each part.

use crate::error::RowError;
use hex::encode_to_slice;
use std::alloc::Global;
use zre_capture::push_entry;
use zre_outside::Entry;
use zre_peer::{Event, push_lines};
use zre_values::{
    Frames, Octets, OutOfMemory, Pairs, PeerId, push_address, push_decimal, push_quoted,
    push_quoted_frames, push_quoted_pairs, take_apart,
};

/// A text that keeps its first fault: what can't be written is left out, and whoever reads the text asks for its
/// fault once.
pub struct Text {
    pub octets: Octets,
    fault: Option<RowError>,
}

impl Drop for Text {
    fn drop(self) {
        take_apart!(self, Text: octets, fault);
    }
}

impl Text {
    pub fn new(alloc: Global) -> Self {
        Text {
            octets: Octets::new(alloc),
            fault: None,
        }
    }

    pub fn as_slice(&self) -> &[u8] {
        self.octets.as_slice()
    }

    /// Whether there was a fault.
    pub fn has_fault(&self) -> bool {
        self.fault.is_some()
    }

    /// The first fault, which isn't kept any longer.
    pub fn take_fault(&mut self) -> Option<RowError> {
        let fault = self.fault;
        self.fault = None;
        fault
    }

    /// Whether there was no fault. A fault is one of the other text, too.
    pub fn is_whole(&self, other: &mut Text) -> bool {
        match self.fault {
            Some(error) => {
                other.fail(error);
                false
            }
            None => true,
        }
    }

    /// The octets. A fault is one of the other text.
    pub fn into_octets(self, other: &mut Text) -> Octets {
        let Text { octets, fault } = self;
        if let Some(error) = fault {
            other.fail(error);
        }
        octets
    }

    /// Removes the octets and the fault.
    pub fn clear(&mut self) {
        self.octets.clear();
        self.fault = None;
    }

    /// Notes a fault, unless there was one before.
    pub fn fail(&mut self, error: RowError) {
        if self.fault.is_none() {
            self.fault = Some(error);
        }
    }

    /// Notes a fault. There is nothing in place of what was asked for.
    pub fn refuse<T>(&mut self, error: RowError) -> Option<T> {
        self.fail(error);
        None
    }

    /// Notes that memory ran out, where it did.
    pub fn note(&mut self, done: Result<(), OutOfMemory>) {
        if done.is_err() {
            self.fail(RowError::OutOfMemory);
        }
    }

    /// What was made, where memory sufficed; where it ran out, that is noted.
    pub fn made<T>(&mut self, made: Result<T, OutOfMemory>) -> Option<T> {
        match made {
            Ok(value) => Some(value),
            Err(OutOfMemory) => {
                self.fail(RowError::OutOfMemory);
                None
            }
        }
    }

    /// Appends a copy of octets to a list.
    pub fn copy_to(&mut self, alloc: Global, list: &mut Frames, octets: &[u8]) {
        if let Some(copied) = self.made(Octets::copy(alloc, octets)) {
            self.note(list.push(copied));
        }
    }

    /// Appends octets.
    pub fn put(&mut self, octets: &[u8]) {
        let done = self.octets.append(octets);
        self.note(done);
    }

    /// Appends an octet.
    pub fn octet(&mut self, octet: u8) {
        let done = self.octets.push(octet);
        self.note(done);
    }

    /// Appends another text, whose fault is a fault of this one.
    pub fn add(&mut self, other: &Text) {
        if other.is_whole(self) {
            self.put(other.as_slice());
        }
    }

    /// Whether two texts have the same octets. Their faults are faults of this one.
    pub fn is_same(&mut self, one: &Text, other: &Text) -> bool {
        one.is_whole(self) && other.is_whole(self) && one.as_slice() == other.as_slice()
    }

    /// Appends a line feed.
    pub fn end(&mut self) {
        self.octet(b'\n');
    }

    /// Appends octets and a line feed.
    pub fn line(&mut self, octets: &[u8]) {
        self.put(octets);
        self.end();
    }

    /// Appends a number in decimal digits.
    pub fn number(&mut self, n: u64) {
        let done = push_decimal(&mut self.octets, n);
        self.note(done);
    }

    /// Appends a word, a space and a number.
    pub fn count(&mut self, word: &[u8], n: u64) {
        self.put(word);
        self.octet(b' ');
        self.number(n);
    }

    /// Appends the line of a number, or `none`.
    pub fn number_line(&mut self, number: Option<u64>) {
        match number {
            Some(n) => self.number(n),
            None => self.put(b"none"),
        }
        self.end();
    }

    /// Appends two lower-case digits for each octet, or `-` for none.
    pub fn hex(&mut self, octets: &[u8]) {
        if octets.is_empty() {
            self.octet(b'-');
        }
        for octet in octets {
            self.digits(*octet);
        }
    }

    /// Appends two lower-case digits.
    pub fn digits(&mut self, octet: u8) {
        let mut digits = [0u8; 2];
        if encode_to_slice(&[octet], &mut digits).is_ok() {
            self.put(&digits);
        } else {
            self.fail(RowError::BadArgument);
        }
    }

    /// Appends the line of octets in hexadecimal digits.
    pub fn hex_line(&mut self, octets: &[u8]) {
        self.hex(octets);
        self.end();
    }

    /// Appends the quoted text of octets.
    pub fn quoted(&mut self, octets: &[u8]) {
        let done = push_quoted(&mut self.octets, octets);
        self.note(done);
    }

    /// Appends quoted texts with a comma between, or `%`.
    pub fn frames(&mut self, frames: &Frames) {
        let done = push_quoted_frames(&mut self.octets, frames);
        self.note(done);
    }

    /// Appends pairs `NAME=VALUE` with a comma between, or `%`.
    pub fn pairs(&mut self, pairs: &Pairs) {
        let done = push_quoted_pairs(&mut self.octets, pairs);
        self.note(done);
    }

    /// Appends an identity in thirty-two upper-case digits.
    pub fn id(&mut self, id: PeerId) {
        let done = id.push_to(&mut self.octets);
        self.note(done);
    }

    /// Appends an address `a.b.c.d`.
    pub fn address(&mut self, addr: [u8; 4]) {
        let done = push_address(&mut self.octets, addr);
        self.note(done);
    }

    /// Appends `a.b.c.d:PORT`.
    pub fn place(&mut self, addr: [u8; 4], port: u16) {
        self.address(addr);
        self.octet(b':');
        self.number(u64::from(port));
    }

    /// Appends the line of an entry in a capture.
    pub fn entry(&mut self, entry: &Entry) {
        let done = push_entry(&mut self.octets, entry);
        self.note(done);
    }

    /// Appends the lines of events.
    pub fn events(&mut self, events: &[Event]) {
        let done = push_lines(&mut self.octets, events);
        self.note(done);
    }
}

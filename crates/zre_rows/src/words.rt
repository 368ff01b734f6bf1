//! The arguments of a step: fields with one space between.

use crate::error::RowError;
use crate::text::Text;
use hex::decode;
use std::alloc::Global;
use zre_capture::{address, id, number, split_once};
use zre_values::{Frames, Octets, OutOfMemory, PeerId};

/// The key of a step, and those of its arguments that weren't taken yet. None are left where the text is empty. An
/// argument that is missing or isn't of its kind is noted, and a value that says nothing stands for it: `end` fails
/// the answer, whatever was done with it.
#[derive(Clone, Copy)]
pub struct Words<'a> {
    alloc: Global,
    key: &'a [u8],
    rest: &'a [u8],
    fault: Option<RowError>,
}

impl<'a> Words<'a> {
    pub fn new(alloc: Global, key: &'a [u8], rest: &'a [u8]) -> Self {
        Words {
            alloc,
            key,
            rest,
            fault: None,
        }
    }

    /// The key is the first field of the line.
    pub fn of_line(alloc: Global, line: &'a [u8]) -> Self {
        let (key, rest) = split_once(line, b' ').unwrap_or((line, &[]));
        Words::new(alloc, key, rest)
    }

    /// The key with these arguments.
    pub fn with_rest<'b>(self, rest: &'b [u8]) -> Words<'b>
    where
        'a: 'b,
    {
        Words::new(self.alloc, self.key, rest)
    }

    pub fn alloc(&self) -> Global {
        self.alloc
    }

    /// Whether the step has this key.
    pub fn is(&self, key: &str) -> bool {
        self.key == key.as_bytes()
    }

    /// All that is left, as it stands.
    pub fn rest(self) -> &'a [u8] {
        self.rest
    }

    fn fail(&mut self, error: RowError) {
        if self.fault.is_none() {
            self.fault = Some(error);
        }
    }

    /// The next field.
    pub fn field(&mut self) -> &'a [u8] {
        if self.rest.is_empty() {
            self.fail(RowError::BadArgument);
        }
        let (field, rest) = split_once(self.rest, b' ').unwrap_or((self.rest, &[]));
        self.rest = rest;
        field
    }

    // What stands for a value that isn't there.
    fn or_fail<T: Copy>(&mut self, found: Option<T>, otherwise: T) -> T {
        match found {
            Some(value) => value,
            None => {
                self.fail(RowError::BadArgument);
                otherwise
            }
        }
    }

    /// A number in decimal digits.
    pub fn number(&mut self) -> u64 {
        let found = number(self.field());
        self.or_fail(found, 0)
    }

    /// A number below 256.
    pub fn octet(&mut self) -> u8 {
        let found = u8::try_from(self.number()).ok();
        self.or_fail(found, 0)
    }

    /// A number below 65,536.
    pub fn port(&mut self) -> u16 {
        let found = u16::try_from(self.number()).ok();
        self.or_fail(found, 0)
    }

    /// An identity in thirty-two upper-case digits.
    pub fn id(&mut self) -> PeerId {
        let found = id(self.field());
        self.or_fail(found, PeerId([0; 16]))
    }

    /// Octets in hexadecimal digits, none for `-`.
    pub fn octets(&mut self) -> Octets {
        let field = self.field();
        self.octets_of(field)
    }

    fn octets_of(&mut self, field: &[u8]) -> Octets {
        if field == b"-".as_slice() {
            return Octets::new(self.alloc);
        }
        match decode(self.alloc, field) {
            Ok(octets) => Octets::from_vec(octets),
            Err(_) => {
                self.fail(RowError::BadArgument);
                Octets::new(self.alloc)
            }
        }
    }

    /// Octets in a quoted text: `~` alone is none, `%` and two digits are an octet, and every other stands for itself.
    pub fn text(&mut self) -> Octets {
        let field = self.field();
        self.text_of(field)
    }

    fn text_of(&mut self, field: &[u8]) -> Octets {
        let mut octets = Octets::new(self.alloc);
        if field != b"~".as_slice() {
            self.unescape(&mut octets, field);
        }
        octets
    }

    fn unescape(&mut self, octets: &mut Octets, field: &[u8]) {
        let (front, parts) = split_once(field, b'%').unwrap_or((field, &[]));
        self.note(octets.append(front));
        if front.len() < field.len() {
            for part in parts.split(|octet| *octet == b'%') {
                self.unescape_part(octets, part);
            }
        }
    }

    // An octet in two digits, and what stands after them.
    fn unescape_part(&mut self, octets: &mut Octets, part: &[u8]) {
        if part.len() < 2 {
            self.fail(RowError::BadArgument);
        } else {
            let (digits, rest) = part.split_at(2);
            let octet = self.octets_of(digits);
            self.note(octets.append(octet.as_slice()));
            self.note(octets.append(rest));
        }
    }

    fn note(&mut self, done: Result<(), OutOfMemory>) {
        if done.is_err() {
            self.fail(RowError::OutOfMemory);
        }
    }

    /// A copy of the next field as it stands.
    pub fn plain(&mut self) -> Octets {
        let mut octets = Octets::new(self.alloc);
        let field = self.field();
        self.note(octets.append(field));
        octets
    }

    /// All that is left, as it stands, of which nothing is left then.
    pub fn take_rest(&mut self) -> &'a [u8] {
        let rest = self.rest;
        self.rest = &[];
        rest
    }

    /// All fields that are left, which are octets in hexadecimal digits.
    pub fn frames(&mut self) -> Frames {
        let mut frames = Frames::new(self.alloc);
        self.push_frames(&mut frames);
        frames
    }

    fn push_frames(&mut self, list: &mut Frames) {
        let rest = self.take_rest();
        if !rest.is_empty() {
            for field in rest.split(|octet| *octet == b' ') {
                let frame = self.octets_of(field);
                self.note(list.push(frame));
            }
        }
    }

    /// All fields that are left, which are quoted texts.
    pub fn texts(&mut self) -> Frames {
        let mut texts = Frames::new(self.alloc);
        self.push_texts(&mut texts);
        texts
    }

    /// Appends them.
    pub fn push_texts(&mut self, list: &mut Frames) {
        let rest = self.take_rest();
        if !rest.is_empty() {
            for field in rest.split(|octet| *octet == b' ') {
                let text = self.text_of(field);
                self.note(list.push(text));
            }
        }
    }

    /// All fields that are left, which are numbers, and one at least.
    pub fn numbers(&mut self) -> Vec<u64> {
        let mut numbers = Vec::new(self.alloc);
        self.push_numbers(&mut numbers);
        numbers
    }

    /// Appends them.
    pub fn push_numbers(&mut self, numbers: &mut Vec<u64>) {
        let rest = self.take_rest();
        for field in rest.split(|octet| *octet == b' ') {
            let n = self.or_fail(number(field), 0);
            if numbers.push(n).is_err() {
                self.fail(RowError::OutOfMemory);
            }
        }
    }

    /// Whether each field that was taken is of its kind. Else the answer fails.
    pub fn are_good(&self, answer: &mut Text) -> bool {
        match self.fault {
            Some(error) => {
                answer.fail(error);
                false
            }
            None => true,
        }
    }

    /// Fails the answer where a field that was taken isn't of its kind, or one is left.
    pub fn end(&self, answer: &mut Text) {
        if self.are_good(answer) && !self.rest.is_empty() {
            answer.fail(RowError::BadArgument);
        }
    }
}

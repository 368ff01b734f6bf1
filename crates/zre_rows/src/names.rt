//! The names of a case file, which stand for texts.

use crate::error::RowError;
use crate::text::Text;
use std::alloc::Global;
use zre_capture::split_once;
use zre_values::{Octets, Pairs, take_apart};

/// The texts that names stand for, and the count of a repetition: `{n}` in decimal digits, `{d}` in four of them at
/// least, `{a}` the octets of these digits in hexadecimal, and `{x}` modulo 65,536 in four hexadecimal digits.
pub struct Names {
    alloc: Global,
    texts: Pairs,
    pub count: u64,
}

impl Drop for Names {
    fn drop(self) {
        take_apart!(self, Names: alloc, texts, count);
    }
}

impl Names {
    pub fn new(alloc: Global) -> Self {
        Names {
            alloc,
            texts: Pairs::new(alloc),
            count: 0,
        }
    }

    /// Gives a text a name. A text that had the name before has it no longer.
    pub fn define(&mut self, name: Octets, text: Octets, answer: &mut Text) {
        answer.note(self.texts.push(name, text));
    }

    /// Appends a text, with each `{NAME}` in it replaced.
    pub fn expand(&self, text: &[u8], out: &mut Text) {
        let (front, later) = split_once(text, b'{').unwrap_or((text, &[]));
        out.put(front);
        if front.len() < text.len() {
            for part in later.split(|octet| *octet == b'{') {
                self.push_part(part, out);
            }
        }
    }

    // What stands after a brace: a name, and a text without names.
    fn push_part(&self, part: &[u8], out: &mut Text) {
        match split_once(part, b'}') {
            Some((name, rest)) => {
                self.push_value(name, out);
                out.put(rest);
            }
            None => out.fail(RowError::BadArgument),
        }
    }

    // The count of a repetition, where the name is one of its four.
    fn push_value(&self, name: &[u8], out: &mut Text) {
        if name == b"n".as_slice() {
            out.number(self.count);
        } else if name == b"d".as_slice() {
            push_padded(out, self.count);
        } else if name == b"a".as_slice() {
            push_octets(self.alloc, out, self.count);
        } else if name == b"x".as_slice() {
            push_digits(out, self.count);
        } else {
            self.push_text(name, out);
        }
    }

    fn push_text(&self, name: &[u8], out: &mut Text) {
        for (known, text) in self.texts.as_slice().iter().rev() {
            if known.as_slice() == name {
                return out.put(text.as_slice());
            }
        }
        out.fail(RowError::UnknownName);
    }
}

fn push_padded(out: &mut Text, n: u64) {
    if n < 10 {
        out.put(b"000");
    } else if n < 100 {
        out.put(b"00");
    } else if n < 1000 {
        out.put(b"0");
    }
    out.number(n);
}

// The padded digits, two hexadecimal digits for each.
fn push_octets(alloc: Global, out: &mut Text, n: u64) {
    let mut padded = Text::new(alloc);
    push_padded(&mut padded, n);
    if padded.is_whole(out) {
        out.hex(padded.as_slice());
    }
}

fn push_digits(out: &mut Text, n: u64) {
    let [.., high, low] = n.to_be_bytes();
    out.digits(high);
    out.digits(low);
}

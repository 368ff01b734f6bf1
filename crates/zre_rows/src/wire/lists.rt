//! Lists of octets, of frames, of pairs and of keys.

use crate::error::RowError;
use crate::subject::{Subject, steps};
use crate::text::Text;
use crate::wire::texts::push_keys;
use crate::words::Words;
use zre_values::{Frames, Keys, Octets, Pairs, take_apart};

/// `on lists`: one of each, from the empty ones on.
pub struct ListSubject {
    text: Octets,
    frames: Frames,
    pairs: Pairs,
    keys: Keys,
}

impl Drop for ListSubject {
    fn drop(self) {
        take_apart!(self, ListSubject: text, frames, pairs, keys);
    }
}

impl Subject for ListSubject {
    fn step(&mut self, words: &mut Words<'_>, answer: &mut Text) {
        steps!(self, words, answer;
            show, clear, text, octet, pair, key, frame, longer, remove, place, without)
    }
}

impl ListSubject {
    pub fn make(words: &mut Words<'_>) -> Self {
        let alloc = words.alloc();
        ListSubject {
            text: Octets::new(alloc),
            frames: Frames::new(alloc),
            pairs: Pairs::new(alloc),
            keys: Keys::new(alloc),
        }
    }

    // `clear` empties the text.
    fn clear(&mut self, _words: &mut Words<'_>, _answer: &mut Text) {
        self.text.clear();
    }

    // `text TEXT` appends octets to the text.
    fn text(&mut self, words: &mut Words<'_>, answer: &mut Text) {
        answer.note(self.text.append(words.text().as_slice()));
    }

    // `octet N` appends one octet to it.
    fn octet(&mut self, words: &mut Words<'_>, answer: &mut Text) {
        answer.note(self.text.push(words.octet()));
    }

    // `frame TEXT` appends a frame.
    fn frame(&mut self, words: &mut Words<'_>, answer: &mut Text) {
        answer.note(self.frames.push(words.text()));
    }

    // `longer I TEXT` appends octets to a frame.
    fn longer(&mut self, words: &mut Words<'_>, answer: &mut Text) {
        let i = words.number();
        let octets = words.text();
        if i < self.frames.len() as u64 {
            answer.note(self.frames.append_at(i as usize, octets.as_slice()));
        } else {
            answer.fail(RowError::BadArgument);
        }
    }

    // `remove I` answers the frame that is removed.
    fn remove(&mut self, words: &mut Words<'_>, answer: &mut Text) {
        let i = words.number();
        if i < self.frames.len() as u64 {
            answer.quoted(self.frames.remove(i as usize).as_slice());
            answer.end();
        } else {
            answer.fail(RowError::BadArgument);
        }
    }

    // `place TEXT` answers where the first frame of these octets is, or `none`.
    fn place(&self, words: &mut Words<'_>, answer: &mut Text) {
        let frame = words.text();
        let place = self.frames.place_of(frame.as_slice()).map(|i| i as u64);
        if self.frames.contains(frame.as_slice()) != place.is_some() {
            answer.line(b"place_of and contains differ");
        }
        answer.number_line(place);
    }

    // `without TEXT` removes that frame.
    fn without(&mut self, words: &mut Words<'_>, _answer: &mut Text) {
        self.frames.remove_first(words.text().as_slice());
    }

    // `pair NAME VALUE` appends a pair.
    fn pair(&mut self, words: &mut Words<'_>, answer: &mut Text) {
        let name = words.text();
        answer.note(self.pairs.push(name, words.text()));
    }

    // `key N` appends a key.
    fn key(&mut self, words: &mut Words<'_>, answer: &mut Text) {
        answer.note(self.keys.push(words.number()));
    }

    // `show` answers all four, with the numbers of their members, and of the frames also their octets.
    fn show(&self, words: &mut Words<'_>, answer: &mut Text) {
        answer.count(b"text", self.text.len() as u64);
        answer.octet(b' ');
        answer.quoted(self.text.as_slice());
        answer.end();
        self.show_frames(answer);
        if let Some(pairs) = answer.made(Pairs::copy(words.alloc(), &self.pairs)) {
            push_pairs(answer, &pairs);
        }
        answer.count(b"keys", self.keys.len() as u64);
        push_keys(answer, &self.keys);
    }

    fn show_frames(&self, answer: &mut Text) {
        answer.count(b"frames", self.frames.len() as u64);
        answer.count(b"", self.frames.total());
        answer.octet(b' ');
        answer.frames(&self.frames);
        answer.end();
    }
}

fn push_pairs(answer: &mut Text, pairs: &Pairs) {
    answer.count(b"pairs", pairs.len() as u64);
    answer.octet(b' ');
    answer.pairs(pairs);
    answer.end();
}

//! The links of a node, and the messages that were put on them.

ghost use Rattle.std.specs.Prelude.{◌≡◌, ◌+◌, ◌++◌, ◌∷◌, [], List as Values, OnOk, OnErr, IfOk};
ghost use Rattle.zre_net.specs.Lists.{nth as nth_of};
ghost use Rattle.zre_net.specs.Lines.{line_of, messages_at, message_octets, octets_in, HasTexts, IsNoted, IsNotedAt};
ghost use Rattle.zre_net.specs.Texts.{Text};

use crate::running::nth::nth;
use crate::running::spelling::Spelling;
use crate::running::texts::Texts;
use std::alloc::Global;
use std::marker::Model;
use zre_link::Queue;
use zre_values::{List, OutOfMemory, take_apart};

/// A link: the texts of the messages that were put on it, by their numbers, and how many octets waited after the last
/// entry.
pub(crate) struct Row {
    places: List<u32>,
    waited: usize,
}

impl Drop for Row {
    fn drop(self) {
        take_apart!(self, Row: places, waited);
    }
}

/// The links of a node, by their numbers from 1. What was put on many of them is there once.
pub(crate) struct Lines {
    rows: Vec<Row>,
    texts: Texts,
    octets: u64,
}

impl Drop for Lines {
    fn drop(self) {
        take_apart!(self, Lines: rows, texts, octets);
    }
}

impl Model for Lines {
    ghost use Rattle.std.specs.Prelude.{◌≡◌, List, map};
    ghost use Rattle.std.specs.List.{AllByRecursion};
    ghost use Rattle.zre_net.specs.Lines.{Line, line_of, octets_in, HasTexts};

    ghost Value = { List Line };

    ghost view = { λ lines. map (line_of lines.texts) lines.rows.items };

    ghost invariant = { λ lines. (lines.octets ≡ octets_in (map (line_of lines.texts) lines.rows.items))
        × AllByRecursion (HasTexts lines.texts) lines.rows.items };
}

impl Row {
    // So many messages were put on it, and this waits on it: at most one message more than before. Gives how many
    // octets all messages have, where they had so many before.
    fn note(
        &mut self,
        texts: &mut Texts,
        octets: u64,
        sent: u64,
        waits: &Queue,
    ) -> Result<u64, OutOfMemory>
        // Its texts are there.
        requires { HasTexts texts.old self.old }
        // What was put on it, or nothing is changed.
        ensures noted { OnOk result (IsNoted sent waits.now (line_of texts.old self.old) (line_of texts.new self.new)) }
        ensures octets { IfOk result (λ all. all + message_octets (line_of texts.old self.old)
            ≡ octets + message_octets (line_of texts.new self.new)) }
        ensures unchanged { OnErr result (self.new ≡ self.old) }
        // Its texts are there, and those of others.
        ensures there { HasTexts texts.new self.new }
        ensures grows { (more : Values Text) × (texts.new ≡ texts.old ++ more) }
    {
        let count = self.places.len() as u64;
        if sent == count {
            self.waited = waits.len();
            return Ok(octets);
        }
        if sent.saturating_sub(count) != 1 || waits.len() < self.waited {
            return Err(OutOfMemory);
        }
        let message = waits.last(waits.len() - self.waited)?;
        let Some(all) = octets.checked_add(message.len() as u64) else {
            drop(message);
            return Err(OutOfMemory);
        };
        let place = texts.put(sent, message)?;
        self.places.push(place)?;
        self.waited = waits.len();
        Ok(all)
    }
}

impl Lines {
    /// None.
    pub fn new(alloc: Global) -> Lines
        ensures { result ≡ [] }
    {
        Lines {
            rows: Vec::new(alloc),
            texts: Texts::new(alloc),
            octets: 0,
        }
    }

    /// How many octets all messages have.
    pub fn octets(&self) -> u64
        ensures { result ≡ octets_in self.now }
    {
        self.octets
    }

    /// A message of a link, by their numbers from 1.
    pub fn message(
        &self,
        alloc: Global,
        link: u64,
        number: u64,
    ) -> Result<Option<Spelling>, OutOfMemory>
        ensures { IfOk result (λ text. text ≡ nth_of number (messages_at link self.now)) }
    {
        let Some(row) = nth(self.rows.as_slice(), link) else {
            return Ok(None);
        };
        match nth(row.places.as_slice(), number) {
            Some(text) => self.texts.get(alloc, *text, number),
            None => Ok(None),
        }
    }

    /// A link on which nothing was put: its greeting and READY wait.
    pub fn add(&mut self, alloc: Global, handshake: usize) -> Result<(), OutOfMemory>
        ensures { OnOk result (self.new ≡ self.old ++ record { messages = []; waited = handshake } ∷ []) }
    {
        self.rows.push(Row {
            places: List::new(alloc),
            waited: handshake,
        })?;
        Ok(())
    }

    /// So many messages were put on the link at this place, and this waits on it: at most one message more than before.
    pub fn note(&mut self, place: usize, sent: u64, waits: &Queue) -> Result<(), OutOfMemory>
        ensures { OnOk result (IsNotedAt sent waits.now place self.old self.new) }
    {
        if place >= self.rows.len() {
            return Err(OutOfMemory);
        }
        let row = &mut self.rows[place];
        self.octets = row.note(&mut self.texts, self.octets, sent, waits)?;
        Ok(())
    }
}

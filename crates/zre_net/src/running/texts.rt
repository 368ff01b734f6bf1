//! The texts of messages, of which many are short. Messages that differ in their numbers alone have one text.

ghost use Rattle.std.specs.Prelude.{◌≡◌, ◌++◌, ◌∷◌, [], List as Values, length, option_map, IfOk, IfSome};
ghost use Rattle.std.specs.Prelude.{ℕ, OnOk, OnErr};
ghost use Rattle.std.specs.Bool.{OnTrue};
ghost use Rattle.zre_net.specs.Lists.{nth as nth_of};
ghost use Rattle.zre_net.specs.Texts.{Text, numbered, text_at, IsPlaced, IsPut, IsOfText};

use crate::running::nth::nth;
use crate::running::numbered::{is_numbered, place_of_number, write};
use crate::running::rope::Rope;
use crate::running::spelling::Spelling;
use bytes::Bytes;
use std::alloc::Global;
use std::marker::Model;
use zre_values::{List, Octets, OutOfMemory, take_apart};

/// A text of as many octets is long: it is shared with those who hold the same, and a shorter one is copied.
const LONG: usize = 128;

/// A HELLO of as many octets shares parts with the newest HELLO.
const IN_PARTS: usize = 1024;

/// Where a text stands: among the octets of the short ones, after so many of them; or among the long ones. And after
/// how many of its octets the number of a message stands in it, or 0.
#[derive(Clone, Copy)]
pub(crate) enum Place {
    Short { start: u32, count: u8, at: u8 },
    Long { place: u32, at: u8 },
}

/// Texts, by their numbers from 1. A short one takes its octets and a place.
pub(crate) struct Texts {
    alloc: Global,
    places: List<Place>,
    short: Octets,
    long: List<Rope>,
    /// The newest text of a first message of a link, a HELLO, and the newest text: the next message may have the same,
    /// since what goes to many peers is put on their links one after the other.
    first: u32,
    last: u32,
}

impl Drop for Texts {
    fn drop(self) {
        take_apart!(self, Texts: alloc, places, short, long, first, last);
    }
}

impl Model for Texts {
    ghost use Rattle.std.specs.Prelude.{List as Values, map, length};
    ghost use Rattle.std.specs.List.{AllByRecursion};
    ghost use Rattle.zre_net.specs.Texts.{Text, text_at, IsPlaced};

    ghost Value = { Values Text };

    ghost view = { λ t. map (text_at t.short t.long) t.places };

    ghost invariant = { λ t. AllByRecursion (IsPlaced (length t.short) (length t.long)) t.places };
}

// A text is put among the long ones, or nothing is changed.
fn put_long(long: &mut List<Rope>, text: Rope, at: u8) -> Result<Place, OutOfMemory>
    ensures ok { (short : Values ℕ) → IfOk result (λ place.
        IsPut short long.old (record { octets = text; at = at }) place short long.new) }
    ensures err { OnErr result (long.new ≡ long.old) }
{
    let place = long.len();
    if place > u32::MAX as usize {
        drop(text);
        return Err(OutOfMemory);
    }
    long.push(text)?;
    Ok(Place::Long {
        place: place as u32,
        at,
    })
}

// A long text: as it is, or beside another long one.
fn rope(alloc: Global, long: &[Rope], text: Bytes, beside: Option<u32>) -> Result<Rope, OutOfMemory>
    ensures { IfOk result (λ r. r ≡ text) }
{
    match beside {
        Some(place) => Rope::beside(alloc, text.as_slice(), long.get(place as usize)),
        None => Ok(Rope::whole(alloc, text)),
    }
}

// A text is put where it belongs, or nothing is changed. Among the long ones it may share parts with one of them.
fn put(
    alloc: Global,
    short: &mut Octets,
    long: &mut List<Rope>,
    text: Bytes,
    at: u8,
    beside: Option<u32>,
) -> Result<Place, OutOfMemory>
    ensures ok { IfOk result (λ place.
        IsPut short.old long.old (record { octets = text; at = at }) place short.new long.new) }
    ensures err { OnErr result ((short.new ≡ short.old) × (long.new ≡ long.old)) }
{
    let start = short.len();
    let count = text.len();
    if count >= LONG || start > u32::MAX as usize {
        let text = rope(alloc, long.as_slice(), text, beside)?;
        return put_long(long, text, at);
    }
    short.append(text.as_slice())?;
    Ok(Place::Short {
        start: start as u32,
        count: count as u8,
        at,
    })
}

// Whether a message with this number has the text at a place.
fn is_at(short: &[u8], long: &[Rope], place: Place, number: u64, message: &[u8]) -> bool
    requires { IsPlaced (length short.now) (length long.now) place }
    ensures { OnTrue result (numbered number (text_at short.now long.now place) ≡ message.now) }
{
    match place {
        Place::Short { start, count, at } => {
            let from = start as usize;
            is_numbered(&short[from..from + count as usize], at, number, message)
        }
        Place::Long { place, at } => long[place as usize].is(at, number, message),
    }
}

// The text at a place, with this number.
fn spell(
    alloc: Global,
    short: &[u8],
    long: &[Rope],
    place: Place,
    number: u64,
) -> Result<Spelling, OutOfMemory>
    requires { IsPlaced (length short.now) (length long.now) place }
    ensures { IfOk result (λ s. s ≡ numbered number (text_at short.now long.now place)) }
{
    match place {
        Place::Short { start, count, at } => {
            let from = start as usize;
            let octets = &short[from..from + count as usize];
            Ok(Spelling::of(alloc, write(alloc, octets, at, number)?))
        }
        Place::Long { place, at } => long[place as usize].spell(alloc, at, number),
    }
}

impl Texts {
    /// None.
    pub fn new(alloc: Global) -> Texts
        ensures { result ≡ [] }
    {
        Texts {
            alloc,
            places: List::new(alloc),
            short: Octets::new(alloc),
            long: List::new(alloc),
            first: 0,
            last: 0,
        }
    }

    // Whether a message with this number has the text under a number.
    fn has(&self, text: u32, number: u64, message: &[u8]) -> bool
        ensures { OnTrue result (IsOfText self.now number text message.now) }
    {
        match nth(self.places.as_slice(), text as u64) {
            Some(place) => is_at(
                self.short.as_slice(),
                self.long.as_slice(),
                *place,
                number,
                message,
            ),
            None => false,
        }
    }

    // The number of the text of a message, where that is one of the newest.
    fn newest(&self, number: u64, message: &[u8]) -> Option<u32>
        ensures { IfSome result (λ text. IsOfText self.now number text message.now) }
    {
        if self.has(self.last, number, message) {
            Some(self.last)
        } else if self.has(self.first, number, message) {
            Some(self.first)
        } else {
            None
        }
    }

    // Beside which long text one with this number is put, where it may have parts of one: the newest HELLO, or none.
    fn beside(&self, number: u64, text: &[u8]) -> Option<u32> {
        if number != 1 || text.len() < IN_PARTS {
            return None;
        }
        match nth(self.places.as_slice(), self.first as u64) {
            Some(Place::Long { place, .. }) => Some(*place),
            _ => Some(u32::MAX),
        }
    }

    // One more text, or nothing.
    fn push(&mut self, text: Bytes, at: u8, beside: Option<u32>) -> Result<(), OutOfMemory>
        ensures ok { OnOk result (self.new ≡ self.old ++ record { octets = text; at = at } ∷ []) }
        ensures err { OnErr result (self.new ≡ self.old) }
    {
        let place = put(
            self.alloc,
            &mut self.short,
            &mut self.long,
            text,
            at,
            beside,
        )?;
        self.places.push(place)
    }

    // The text of a message with this number is one more; its number.
    fn add(&mut self, number: u64, message: Bytes) -> Result<u32, OutOfMemory>
        ensures of { IfOk result (λ text. IsOfText self.new number text message) }
        ensures grows { (more : Values Text) × (self.new ≡ self.old ++ more) }
    {
        let count = self.places.len();
        if count >= u32::MAX as usize {
            drop(message);
            return Err(OutOfMemory);
        }
        let at = place_of_number(message.as_slice(), number);
        let beside = self.beside(number, message.as_slice());
        self.push(message, at, beside)?;
        Ok(count as u32 + 1)
    }

    /// The number of the text of a message with this number. Texts may come after those that are there.
    pub fn put(&mut self, number: u64, message: Bytes) -> Result<u32, OutOfMemory>
        ensures of { IfOk result (λ text. IsOfText self.new number text message) }
        ensures grows { (more : Values Text) × (self.new ≡ self.old ++ more) }
    {
        let text = match self.newest(number, message.as_slice()) {
            Some(text) => {
                drop(message);
                text
            }
            None => self.add(number, message)?,
        };
        self.last = text;
        if number == 1 {
            self.first = text;
        }
        Ok(text)
    }

    /// The message with this number that has the text under a number.
    pub fn get(
        &self,
        alloc: Global,
        text: u32,
        number: u64,
    ) -> Result<Option<Spelling>, OutOfMemory>
        ensures { IfOk result (λ message. message ≡ option_map (numbered number) (nth_of text self.now)) }
    {
        let Some(place) = nth(self.places.as_slice(), text as u64) else {
            return Ok(None);
        };
        let (short, long) = (self.short.as_slice(), self.long.as_slice());
        Ok(Some(spell(alloc, short, long, *place, number)?))
    }
}

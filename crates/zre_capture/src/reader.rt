//! A reader of a capture that comes in pieces.

ghost use Rattle.std.specs.Prelude.{◌≡◌, ◌==◌, ◌&&◌, not, ℕ, ◌+◌, ◌≤◌, ◌<◌, ◌∷◌, ◌++◌, List, [], None, Some};
ghost use Rattle.std.specs.Prelude.{length, option_map, unwrap_or, IfOk, OnOk, OnErr, IfErr, MatchOption};
ghost use Rattle.std.specs.Prelude.{MatchResult};
ghost use Rattle.std.specs.Bool.{OnTrue, OnFalse};
ghost use Rattle.std.specs.Option.{option_or};
ghost use Rattle.zre_outside.specs.declared.entry.Entry.{Entry as EntryValue};
ghost use Rattle.zre_capture.specs.Formats.{longest};
ghost use Rattle.zre_capture.specs.Reading.{entry_of, bad_field, but_last, fields_in, column};
ghost use Rattle.zre_capture.specs.Journal.{settings_said, is_head, said, line_of, last_reading, told_after};
ghost use Rattle.zre_capture.specs.Journal.{after_line, bad_line, settings, format_of, Waits, Reads, Adds};
ghost use Rattle.zre_capture.specs.Journal.{AddsFront, Refuses, bad, bad_at_end};
ghost use Rattle.zre_capture.specs.declared.format.Format.TheVariants.{First, Second};

use crate::direct::read_direct;
use crate::fault::{BadCapture, CaptureFault};
use crate::format::Format;
use crate::line_start::LineStart;
use crate::read::entry;
use crate::split::split_once;
use crate::{field, head};
use std::alloc::Global;
use std::marker::Model;
use zre_outside::Entries;
use zre_values::{Octets, OutOfMemory, Settings, take_apart};

// Where a line is bad that isn't one of a capture.
fn column(place: LineStart, text: &[u8]) -> u64
    requires { length text.now ≤ longest place.format }
    ensures { result ≡ column place text.now }
{
    field::first_bad(place, text, true).unwrap_or(text.len() as u64 + 1)
}

// Where a line is bad that is too long, by its octets up to the first too many.
fn long_column(place: LineStart, front: &[u8]) -> u64
    requires { length front.now ≤ longest place.format + 1 }
    ensures { result ≡ unwrap_or (bad_field place (but_last (fields_in front.now))) (longest place.format + 1) }
{
    field::first_bad(place, front, false).unwrap_or(place.format.longest() as u64 + 1)
}

// Reads the head line and stores the settings that it says. Tells whether it is a head.
#[cold]
#[inline(never)]
fn read_head(
    alloc: Global,
    format: Format,
    told: &mut Option<Settings>,
    text: &[u8],
) -> Result<bool, OutOfMemory>
    // What the head says.
    ensures head { IfOk result (λ is. is ≡ is_head format text.now) }
    ensures settings { IfOk result (λ is. OnTrue is (told.new ≡ option_or (settings_said format text.now) told.old)) }
    ensures not_a_head { IfOk result (λ is. OnFalse is (told.new ≡ told.old)) }
    // What an error leaves unchanged.
    ensures settings_unchanged { OnErr result (told.new ≡ told.old) }
{
    match format {
        Format::First => Ok(text == b"zre-capture 1".as_slice()),
        Format::Second => match head::settings(alloc, text)? {
            Some(settings) => {
                drop(told.replace(settings));
                Ok(true)
            }
            None => Ok(false),
        },
    }
}

// Reads the line of an entry by its fields, and gives the reading of that.
#[inline(never)]
fn read_entry(
    alloc: Global,
    place: LineStart,
    text: &[u8],
    out: &mut Entries,
) -> Result<Option<u64>, OutOfMemory>
    ensures read { IfOk result (λ at. MatchOption at
        ((entry_of place.format place.before text.now ≡ None) × (out.new ≡ out.old))
        (λ at. (e : EntryValue) × (entry_of place.format place.before text.now ≡ Some e)
        × (out.new ≡ out.old ++ e ∷ []) × (at ≡ e.at))) }
    ensures unchanged { OnErr result (out.new ≡ out.old) }
{
    match entry(alloc, place.format, place.before, text)? {
        Some(entry) => {
            let at = entry.at;
            out.push(entry)?;
            Ok(Some(at))
        }
        None => Ok(None),
    }
}

// Reads a whole line that isn't too long. Gives the reading of its entry, or that before it, unless the line is bad.
#[tactic(auto, unfolding(crate::specs::Journal::said))]
fn read_line(
    alloc: Global,
    place: LineStart,
    told: &mut Option<Settings>,
    text: &[u8],
    out: &mut Entries,
) -> Result<Option<u64>, OutOfMemory>
    ensures read { IfOk result (λ at. MatchOption at
        ((said place text.now ≡ None) × (out.new ≡ out.old) × (told.new ≡ told.old))
        (λ at. (es : List EntryValue) × (said place text.now ≡ Some es) × (out.new ≡ out.old ++ es)
        × (at ≡ last_reading place.before es) × (told.new ≡ told_after place text.now told.old))) }
    ensures unchanged { OnErr result (out.new ≡ out.old) }
    ensures settings_unchanged { OnErr result (told.new ≡ told.old) }
{
    if place.line == 1 {
        let is_head = read_head(alloc, place.format, told, text)?;
        return Ok(if is_head { Some(place.before) } else { None });
    }
    if let Some(at) = read_direct(alloc, place.format, place.before, text, out)? {
        return Ok(Some(at));
    }
    read_entry(alloc, place, text, out)
}

// Refuses a line that is too long, by its octets up to the first too many.
fn too_long(place: LineStart, front: &[u8]) -> CaptureFault
    requires { length front.now ≤ longest place.format + 1 }
    ensures { result ≡ CaptureFault.Bad (record {
      line = place.line;
      column = unwrap_or (bad_field place (but_last (fields_in front.now))) (longest place.format + 1);
    }) }
{
    CaptureFault::Bad(BadCapture {
        line: place.line,
        column: long_column(place, front),
    })
}

// Reads a whole line of any length. Gives the reading of its entry, or that before it.
fn read_whole(
    alloc: Global,
    place: LineStart,
    told: &mut Option<Settings>,
    text: &[u8],
    out: &mut Entries,
) -> Result<u64, CaptureFault>
    // What a success gives.
    ensures ok { IfOk result (λ at. (es : List EntryValue) × (line_of place text.now ≡ Some es)
        × (out.new ≡ out.old ++ es) × (at ≡ last_reading place.before es)
        × (told.new ≡ told_after place text.now told.old)) }
    // What a refusal tells.
    ensures refused { IfErr result (λ e. Refuses e (λ b. (line_of place text.now ≡ None)
        × (b ≡ bad_line place text.now))) }
    // What an error leaves unchanged.
    ensures unchanged { OnErr result (out.new ≡ out.old) }
    ensures settings_unchanged { OnErr result (told.new ≡ told.old) }
{
    let most = place.format.longest();
    if text.len() > most {
        return Err(too_long(place, &text[..most + 1]));
    }
    match read_line(alloc, place, told, text, out)? {
        Some(at) => Ok(at),
        None => Err(CaptureFault::Bad(BadCapture {
            line: place.line,
            column: column(place, text),
        })),
    }
}

// Stores more octets of a line that is not whole, unless the line gets too long.
fn gather(left: &mut Octets, place: LineStart, text: &[u8]) -> Result<(), CaptureFault>
    requires { length left.old ≤ longest place.format }
    ensures ok { OnOk result ((left.new ≡ left.old ++ text.now)
        × (length (left.old ++ text.now) ≤ longest place.format)) }
    ensures refused { IfErr result (λ e. Refuses e (λ b. (longest place.format < length (left.old ++ text.now))
        × (b ≡ bad_line place (left.old ++ text.now)))) }
{
    let free = place.format.longest() - left.len();
    if text.len() <= free {
        left.append(text)?;
        return Ok(());
    }
    left.append(&text[..free + 1])?;
    Err(too_long(place, left.as_slice()))
}

/// A reader of a capture that is handed the octets in any pieces. It keeps the octets of the line that isn't whole, and
/// reads a line that lies whole in a piece where it lies.
pub struct CaptureReader {
    alloc: Global,
    place: LineStart,
    told: Option<Settings>,
    left: Octets,
}

impl Drop for CaptureReader {
    fn drop(self) {
        take_apart!(self, CaptureReader: alloc, place, told, left);
    }
}

impl Model for CaptureReader {
    ghost use Rattle.zre_capture.specs.Journal.{CaptureReading};

    ghost Value = { CaptureReading };

    ghost view = { λ r. record { place = r.place; told = r.told; left = r.left } };
}

impl CaptureReader {
    fn at_start(alloc: Global, format: Format) -> Self
        ensures reads { Reads [] result }
        ensures waits { Waits result }
        ensures format { format_of result ≡ format }
    {
        CaptureReader {
            alloc,
            place: LineStart {
                format,
                line: 1,
                before: 0,
            },
            told: None,
            left: Octets::new(alloc),
        }
    }

    /// Expects the head line of format 1.
    pub fn new(alloc: Global) -> Self
        ensures reads { Reads [] result }
        ensures waits { Waits result }
        ensures format { format_of result ≡ First }
    {
        CaptureReader::at_start(alloc, Format::First)
    }

    /// Expects the head line of format 2.
    pub fn second(alloc: Global) -> Self
        ensures reads { Reads [] result }
        ensures waits { Waits result }
        ensures format { format_of result ≡ Second }
    {
        CaptureReader::at_start(alloc, Format::Second)
    }

    /// The settings that the head said. They are there exactly where a whole head of format 2 was read; a refusal by a
    /// line after it leaves them there.
    pub fn settings(&self) -> Option<&Settings>
        ensures { option_map (λ s. s.now) result ≡ self.now.told }
    {
        self.told.as_ref()
    }

    // Reads the line of which these octets are the end. Gives the reading of its entry, or that before it.
    fn read_end(&mut self, text: &[u8], out: &mut Entries) -> Result<u64, CaptureFault>
        requires { Waits self.old }
        // What a success gives.
        ensures ok { IfOk result (λ at. (es : List EntryValue)
            × (line_of self.old.place (self.old.left ++ text.now) ≡ Some es) × (out.new ≡ out.old ++ es)
            × (at ≡ last_reading self.old.place.before es)
            × (self.new.told ≡ told_after self.old.place (self.old.left ++ text.now) self.old.told)) }
        // What a refusal tells.
        ensures refused { IfErr result (λ e. Refuses e (λ b.
            (line_of self.old.place (self.old.left ++ text.now) ≡ None)
            × (b ≡ bad_line self.old.place (self.old.left ++ text.now)))) }
        // What an error leaves unchanged.
        ensures unchanged { OnErr result (out.new ≡ out.old) }
        ensures settings_unchanged { OnErr result (self.new.told ≡ self.old.told) }
    {
        if self.left.is_empty() {
            return read_whole(self.alloc, self.place, &mut self.told, text, out);
        }
        gather(&mut self.left, self.place, text)?;
        read_whole(
            self.alloc,
            self.place,
            &mut self.told,
            self.left.as_slice(),
            out,
        )
    }

    // Reads what a line feed ends.
    fn take_line(&mut self, text: &[u8], out: &mut Entries) -> Result<(), CaptureFault>
        requires { Waits self.old }
        // What a success gives.
        ensures ok { OnOk result ((es : List EntryValue)
            × (line_of self.old.place (self.old.left ++ text.now) ≡ Some es) × (out.new ≡ out.old ++ es)
            × (self.new ≡ after_line self.old text.now es)) }
        // What a refusal tells.
        ensures refused { IfErr result (λ e. Refuses e (λ b.
            (line_of self.old.place (self.old.left ++ text.now) ≡ None)
            × (b ≡ bad_line self.old.place (self.old.left ++ text.now)))) }
        // What an error leaves unchanged.
        ensures unchanged { OnErr result (out.new ≡ out.old) }
        ensures settings_unchanged { OnErr result (self.new.told ≡ self.old.told) }
    {
        let place = self.place;
        let line = place.line.checked_add(1).ok_or(OutOfMemory)?;
        let before = self.read_end(text, out)?;
        self.left.clear();
        self.place = LineStart {
            format: place.format,
            line,
            before,
        };
        Ok(())
    }

    /// Reads one more piece: the entries of the lines that are now whole are appended. A bad line is told once its line
    /// feed is there, or an octet past the limit of its length, after the entries of the lines before it. After a
    /// refusal nothing more is read; OutOfMemory is also told where a line's number would be above 2^64 - 1.
    pub fn feed(&mut self, piece: &[u8], out: &mut Entries) -> Result<(), CaptureFault>
        requires { Waits self.old }
        // What a piece adds.
        ensures ok { (o : List ℕ) → Reads o self.old → OnOk result (Reads (o ++ piece.now) self.new
            × Adds (format_of self.old) o piece.now out.old out.new
            × (bad (format_of self.old) (o ++ piece.now) ≡ None)) }
        ensures waits { OnOk result (Waits self.new) }
        ensures format { OnOk result (format_of self.new ≡ format_of self.old) }
        // What a refusal tells.
        ensures refused { (o : List ℕ) → Reads o self.old → IfErr result (λ e. Refuses e (λ b.
            (bad (format_of self.old) (o ++ piece.now) ≡ Some b)
            × Adds (format_of self.old) o piece.now out.old out.new
            × (self.new.told ≡ settings (format_of self.old) (o ++ piece.now)))) }
        ensures front { (o : List ℕ) → Reads o self.old →
            OnErr result (AddsFront (format_of self.old) o piece.now out.old out.new) }
    {
        let mut rest = piece;
        'lines: while let Some((text, after)) = split_once(rest, b'\n') {
            self.take_line(text, out)?;
            rest = after;
        }
        gather(&mut self.left, self.place, rest)?;
        Ok(())
    }

    /// Looks at the end of the input: a last line without its line feed is bad, and so is an input of no octets. It
    /// takes no memory.
    pub fn finish(&self) -> Result<(), BadCapture>
        requires { Waits self.now }
        ensures { (o : List ℕ) → Reads o self.now → MatchResult result
            (λ _. bad_at_end (format_of self.now) o ≡ None) (λ b. bad_at_end (format_of self.now) o ≡ Some b) }
    {
        if self.is_after_a_line() {
            return Ok(());
        }
        Err(BadCapture {
            line: self.place.line,
            column: column(self.place, self.left.as_slice()),
        })
    }

    fn is_after_a_line(&self) -> bool
        ensures { result ≡ ((length self.now.left == 0) && not (self.now.place.line == 1)) }
    {
        self.left.is_empty() && self.place.line != 1
    }
}

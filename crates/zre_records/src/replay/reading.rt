//! Reads a capture in pieces.

ghost use Rattle.std.specs.Prelude.{◌≡◌, ℕ, List, [], ◌++◌, false, is_some, option_map, IfOk, OnOk};
ghost use Rattle.zre_capture.specs.Journal.{Reads, Waits, Adds, format_of, settings, bad, bad_at_end};
ghost use Rattle.zre_capture.specs.declared.format.Format.{Format};
ghost use Rattle.zre_commands.specs.pump.Lines.{refusal};
ghost use Rattle.zre_commands.specs.pump.Meaning.{stops};
ghost use Rattle.zre_records.specs.replay.State.{IsState, IsRead};

use crate::replay::waiting::WaitingReader;
use std::alloc::Global;
use std::mem;
use zre_capture::{BadCapture, CaptureFault, CaptureReader, Settings};
use zre_commands::pump::{Going, push_bad_line_at};
use zre_outside::Entries;
use zre_values::{Octets, OutOfMemory, take_apart};

/// A reader that has refused a line, and where.
pub(crate) struct RefusedReader {
    reader: CaptureReader,
    bad: BadCapture,
}

impl Drop for RefusedReader {
    fn drop(self) {
        take_apart!(self, RefusedReader: reader, bad);
    }
}

/// How far a capture is read.
#[derive(Drop)]
pub(crate) enum State {
    /// So far nothing in it is bad.
    Going(WaitingReader),
    /// A line is bad, however it goes on.
    Bad(RefusedReader),
    /// There was no memory for a piece.
    Lost,
}

// Reads a piece: the entries of the lines that are whole by it are appended.
fn read_piece(
    waiting: WaitingReader,
    piece: &[u8],
    entries: &mut Entries,
) -> Result<State, OutOfMemory>
    ensures { (o : List ℕ) → Reads o waiting.reader →
        IfOk result (λ state. IsState (format_of waiting.reader) state (o ++ piece.now)
        × Adds (format_of waiting.reader) o piece.now entries.old entries.new) }
{
    let WaitingReader { mut reader } = waiting;
    match reader.feed(piece, entries) {
        Ok(()) => Ok(State::Going(WaitingReader { reader })),
        Err(CaptureFault::Bad(bad)) => Ok(State::Bad(RefusedReader { reader, bad })),
        Err(CaptureFault::OutOfMemory) => Err(OutOfMemory),
    }
}

/// Appends the line that tells where a capture is bad, if it is. Says whether it is.
pub(crate) fn push_refusal(out: &mut Octets, bad: Option<BadCapture>) -> Result<bool, OutOfMemory>
    ensures bad { IfOk result (λ is_bad. is_bad ≡ is_some bad) }
    ensures refused { OnOk result (out.new ≡ out.old ++ refusal bad) }
{
    match bad {
        Some(bad) => {
            push_bad_line_at(out, bad.line, bad.column)?;
            Ok(true)
        }
        None => Ok(false),
    }
}

/// A capture that is read in pieces.
#[derive(Drop)]
pub(crate) struct Pieces {
    alloc: Global,
    state: State,
    // Used again for the entries of each piece.
    entries: Entries,
}

impl Pieces {
    /// Expects what the reader expects, of which no octet has come yet.
    pub fn new(alloc: Global, reader: CaptureReader) -> Pieces
        requires { Waits reader }
        ensures { (f : Format) → Reads [] reader → format_of reader ≡ f → IsState f result.state [] }
    {
        Pieces {
            alloc,
            state: State::Going(WaitingReader { reader }),
            entries: Entries::new(alloc),
        }
    }

    /// Reads a piece. Gives the entries of the lines that are whole by it.
    pub fn read(&mut self, piece: &[u8]) -> Result<Entries, OutOfMemory>
        ensures { (f : Format) (o : List ℕ) → IsState f self.old.state o → is_some (bad f o) ≡ false
            → IfOk result (IsRead f o piece.now self.new.state) }
    {
        let mut entries = mem::replace(&mut self.entries, Entries::new(self.alloc));
        entries.clear();
        let waiting = match mem::replace(&mut self.state, State::Lost) {
            State::Going(waiting) => waiting,
            refused => {
                self.state = refused;
                return Ok(entries);
            }
        };
        let state = read_piece(waiting, piece, &mut entries)?;
        self.state = state;
        Ok(entries)
    }

    /// Takes a list whose memory serves for the next piece.
    pub fn give_back(&mut self, entries: Entries)
        ensures { self.new.state ≡ self.old.state }
    {
        self.entries = entries;
    }

    /// The settings that its head said, if it is whole and says some.
    pub fn settings(&self) -> Option<&Settings>
        ensures { (f : Format) (o : List ℕ) → IsState f self.now.state o
            → option_map (λ s. s.now) result ≡ settings f o }
    {
        match &self.state {
            State::Going(waiting) => waiting.reader.settings(),
            State::Bad(refused) => refused.reader.settings(),
            State::Lost => None,
        }
    }

    /// Whether it is bad, whatever follows.
    pub fn is_bad(&self) -> bool
        ensures { (f : Format) (o : List ℕ) → IsState f self.now.state o → result ≡ is_some (bad f o) }
    {
        match self.state {
            State::Going(_) => false,
            _ => true,
        }
    }

    /// Whether more octets may be read.
    pub fn going(&self) -> Going
        ensures { (f : Format) (o : List ℕ) → IsState f self.now.state o → stops result ≡ is_some (bad f o) }
    {
        match self.state {
            State::Going(_) => Going::On,
            _ => Going::Stop,
        }
    }

    /// Where it is bad, whatever follows.
    pub fn bad(&self) -> Result<Option<BadCapture>, OutOfMemory>
        ensures { (f : Format) (o : List ℕ) → IsState f self.now.state o → IfOk result (λ b. b ≡ bad f o) }
    {
        match &self.state {
            State::Going(_) => Ok(None),
            State::Bad(refused) => Ok(Some(refused.bad)),
            State::Lost => Err(OutOfMemory),
        }
    }

    /// Where it is bad, if nothing follows.
    pub fn bad_at_end(&self) -> Result<Option<BadCapture>, OutOfMemory>
        ensures { (f : Format) (o : List ℕ) → IsState f self.now.state o → IfOk result (λ b. b ≡ bad_at_end f o) }
    {
        match &self.state {
            State::Going(waiting) => match waiting.reader.finish() {
                Ok(()) => Ok(None),
                Err(bad) => Ok(Some(bad)),
            },
            State::Bad(refused) => Ok(Some(refused.bad)),
            State::Lost => Err(OutOfMemory),
        }
    }

    /// Appends the line that tells where it is bad, if nothing follows. Says whether it is.
    pub fn finish(&self, out: &mut Octets) -> Result<bool, OutOfMemory>
        ensures bad { (f : Format) (o : List ℕ) → IsState f self.now.state o
            → IfOk result (λ is_bad. is_bad ≡ is_some (bad_at_end f o)) }
        ensures refused { (f : Format) (o : List ℕ) → IsState f self.now.state o
            → OnOk result (out.new ≡ out.old ++ refusal (bad_at_end f o)) }
    {
        push_refusal(out, self.bad_at_end()?)
    }
}

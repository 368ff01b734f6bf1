//! Lines that come in pieces.

ghost use Rattle.std.specs.Prelude.{◌≡◌, ◌==◌, ◌&&◌, not, ◌+◌, ◌++◌, [], ◌∷◌, ℕ, false, List, length, IfOk, OnOk};
ghost use Rattle.std.specs.Prelude.{OnErr};
ghost use Rattle.std.specs.Option.{option_to_list};
ghost use Rattle.zre_capture.specs.Journal.{lines_in};
ghost use Rattle.zre_console.specs.lines.Orders.{order_of, orders_from, ended_lines, typed};
ghost use Rattle.zre_console.specs.lines.Typing.{Keeps, Typed, Adds, AddsFront};

use crate::lines::line::{LINE_OCTETS, order};
use std::alloc::Global;
use std::marker::Model;
use zre_capture::split_once;
use zre_outside::Command;
use zre_values::{Octets, OutOfMemory, take_apart};

/// What makes commands of the octets that a user types, in any pieces. It keeps at most the octets of one line.
pub struct Typist {
    alloc: Global,
    line: u64,
    left: Octets,
    long: bool,
}

impl Drop for Typist {
    fn drop(self) {
        take_apart!(self, Typist: alloc, line, left, long);
    }
}

impl Model for Typist {
    ghost use Rattle.zre_console.specs.lines.Typing.{Typing};

    ghost Value = { Typing };

    ghost view = { λ t. record { line = t.line; left = t.left; long = t.long } };
}

impl Typist {
    /// Nothing was typed yet.
    pub fn new(alloc: Global) -> Self
        ensures { Typed [] result }
    {
        Typist {
            alloc,
            line: 1,
            left: Octets::new(alloc),
            long: false,
        }
    }

    // Whether nothing has come of the line.
    fn has_nothing(&self) -> bool
        ensures { result ≡ ((length self.now.left == 0) && not self.now.long) }
    {
        self.left.is_empty() && !self.long
    }

    // Keeps more octets of a line, or none of it once it is too long.
    fn gather(&mut self, text: &[u8]) -> Result<(), OutOfMemory>
        ensures held { (line : List ℕ) → Keeps self.old.long self.old.left line →
            OnOk result (Keeps self.new.long self.new.left (line ++ text.now)) }
        ensures line { self.new.line ≡ self.old.line }
    {
        if self.long {
            return Ok(());
        }
        if text.len() > LINE_OCTETS.saturating_sub(self.left.len()) {
            self.left.clear();
            self.long = true;
            return Ok(());
        }
        self.left.append(text)
    }

    // The command of the line that this ends.
    fn end_line(&mut self, text: &[u8]) -> Result<Command, OutOfMemory>
        ensures command { (line : List ℕ) → Keeps self.old.long self.old.left line →
            IfOk result (λ command. command ≡ order_of self.old.line (line ++ text.now)) }
        ensures next { OnOk result (self.new ≡ record { line = self.old.line + 1; left = []; long = false }) }
    {
        let number = self.line;
        let next = number.checked_add(1).ok_or(OutOfMemory)?;
        let command = self.line_with(text)?;
        self.left.clear();
        self.long = false;
        self.line = next;
        Ok(command)
    }

    // The command of the line with this after what has come of it.
    fn line_with(&mut self, text: &[u8]) -> Result<Command, OutOfMemory>
        ensures { (line : List ℕ) → Keeps self.old.long self.old.left line →
            IfOk result (λ command. command ≡ order_of self.old.line (line ++ text.now)) }
    {
        if self.has_nothing() {
            return order(self.alloc, self.line, text);
        }
        self.gather(text)?;
        self.line_so_far()
    }

    // The command of the line, if this is all of it.
    fn line_so_far(&self) -> Result<Command, OutOfMemory>
        ensures { (line : List ℕ) → Keeps self.now.long self.now.left line →
            IfOk result (λ command. command ≡ order_of self.now.line line) }
    {
        if self.long {
            return Ok(Command::Bad { line: self.line });
        }
        order(self.alloc, self.line, self.left.as_slice())
    }

    // Appends the command of the line that this ends.
    fn take_line(&mut self, text: &[u8], out: &mut Vec<Command>) -> Result<(), OutOfMemory>
        ensures ok { (line : List ℕ) → Keeps self.old.long self.old.left line →
            OnOk result (out.new.items ≡ out.old.items ++ order_of self.old.line (line ++ text.now) ∷ []) }
        ensures next { OnOk result (self.new ≡ record { line = self.old.line + 1; left = []; long = false }) }
        ensures unchanged { OnErr result (out.new.items ≡ out.old.items) }
    {
        let command = self.end_line(text)?;
        out.push(command)?;
        Ok(())
    }

    /// Takes one more piece: the commands of the lines that are now whole are appended. After a refusal nothing more is
    /// taken; OutOfMemory is also told where a line's number would be above 2^64 - 1.
    pub fn feed(&mut self, piece: &[u8], out: &mut Vec<Command>) -> Result<(), OutOfMemory>
        ensures ok { (o : List ℕ) → Typed o self.old →
            OnOk result (Typed (o ++ piece.now) self.new × Adds o piece.now out.old.items out.new.items) }
        ensures front { (o : List ℕ) → Typed o self.old →
            OnErr result (AddsFront o piece.now out.old.items out.new.items) }
    {
        let mut rest = piece;
        'lines: while let Some((text, later)) = split_once(rest, b'\n') {
            self.take_line(text, out)?;
            rest = later;
        }
        self.gather(rest)?;
        Ok(())
    }

    /// Takes the end: a last line without its line feed counts, unless it is empty.
    pub fn finish(&self) -> Result<Option<Command>, OutOfMemory>
        ensures { (o : List ℕ) → Typed o self.now → IfOk result (λ last.
            typed o ++ option_to_list last ≡ orders_from 1 (ended_lines (lines_in o))) }
    {
        if self.has_nothing() {
            return Ok(None);
        }
        Ok(Some(self.line_so_far()?))
    }
}

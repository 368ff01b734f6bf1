//! Where the second of two captures begins, seen in pieces.

ghost use Rattle.std.specs.Prelude.{◌≡◌, ◌<◌, [], None, Some, length, option_map, drop, take, IfOk, OnOk, MatchOption};
ghost use Rattle.zre_records.specs.audit.Cut.{is_separator as separates};
ghost use Rattle.zre_records.specs.audit.Seam.{awaited_after, step, is_whole, IsPassed, IsParted, IsUnparted};

use std::marker::Model;
use zre_values::OutOfMemory;

/// The first field of a head. A line that begins with it begins the second capture.
pub(crate) const MARK: [u8; 11] = *b"zre-capture";

/// What is seen of the octets of the first capture.
#[derive(Drop)]
pub(crate) struct Seam {
    // How many octets of the mark the unfinished line is, where it is nothing else. It isn't the first line.
    matched: Option<usize>,
    /// How many lines are finished.
    lines: u64,
}

impl Model for Seam {
    ghost use Rattle.std.specs.Prelude.{option_map};
    ghost use Rattle.zre_records.specs.audit.Seam.{Seeking, awaited_after};

    ghost Value = { Seeking };

    ghost view = { λ s. record { awaited = option_map awaited_after s.matched; lines = s.lines } };
}

fn is_separator(octet: u8) -> bool
    ensures { result ≡ separates octet }
{
    octet == b' ' || octet == b'\n'
}

// How much of the mark the unfinished line is, after one more octet.
fn next(matched: Option<usize>, octet: u8) -> Option<usize>
    ensures { option_map awaited_after result ≡ step (option_map awaited_after matched) octet }
{
    if octet == b'\n' {
        return Some(0);
    }
    match matched {
        Some(n) if n < MARK.len() && MARK[n] == octet => Some(n + 1),
        _ => None,
    }
}

impl Seam {
    /// Before any octet.
    pub fn new() -> Seam
        ensures awaited { result.awaited ≡ None }
        ensures lines { result.lines ≡ 0 }
    {
        Seam {
            matched: None,
            lines: 0,
        }
    }

    /// How many lines are finished.
    pub fn lines(&self) -> u64
        ensures { result ≡ self.now.lines }
    {
        self.lines
    }

    /// Whether the unfinished line is the mark.
    pub fn is_whole(&self) -> bool
        ensures { result ≡ is_whole self.now.awaited }
    {
        match self.matched {
            Some(n) => n >= MARK.len(),
            None => false,
        }
    }

    fn pass(&mut self, octet: u8) -> Result<(), OutOfMemory>
        ensures { OnOk result (IsPassed self.old octet self.new) }
    {
        if octet == b'\n' {
            self.lines = self.lines.checked_add(1).ok_or(OutOfMemory)?;
        }
        self.matched = next(self.matched, octet);
        Ok(())
    }

    /// Looks for the octet after the mark of a second capture, and says where in the piece it is. Without it all octets
    /// of the piece are of the first capture, and else those before it.
    pub fn find(&mut self, piece: &[u8]) -> Result<Option<usize>, OutOfMemory>
        ensures { IfOk result (λ found. MatchOption found
            (IsUnparted self.old piece.now self.new) (λ place. IsParted self.old piece.now place self.new)) }
    {
        for (place, octet) in piece.iter().enumerate() {
            if self.is_whole() && is_separator(*octet) {
                return Ok(Some(place));
            }
            self.pass(*octet)?;
        }
        Ok(None)
    }
}

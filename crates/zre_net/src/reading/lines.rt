//! Texts, line by line.

ghost use Rattle.std.specs.Prelude.{◌≡◌, ◌==◌, ◌≤◌, ◌&&◌, not, length, IfOk};
ghost use Rattle.std.specs.Bool.{OnTrue};
ghost use Rattle.zre_net.specs.Reading.{says, is_line, bad_line};

use crate::limits::{LINES, OCTETS};
use crate::reading::line::read_move;
use std::alloc::Global;
use zre_capture::{LINE_OCTETS, split_once};
use zre_values::{OutOfMemory, is_word};

// Whether a line, by its number, is the head or says a move.
#[tactic(auto, unfolding(crate::specs::Reading::says))]
fn says(alloc: Global, n: u64, line: &[u8]) -> Result<bool, OutOfMemory>
    ensures { IfOk result (λ is. is ≡ says n line.now) }
{
    if n == 1 {
        Ok(is_word(line, b"zre-schedule 1"))
    } else {
        let read = read_move(alloc, line)?;
        let is = read.is_some();
        drop(read);
        Ok(is)
    }
}

// Whether a line that ends at this octet is one of a schedule within the limits.
fn is_line(alloc: Global, n: u64, end: usize, line: &[u8]) -> Result<bool, OutOfMemory>
    ensures is { IfOk result (λ is. is ≡ is_line n end line.now) }
    ensures few { IfOk result (λ is. OnTrue is (n ≤ 262144)) }
    ensures short { IfOk result (λ is. OnTrue is (end ≤ 16777216)) }
{
    if n > LINES as u64 || end > OCTETS || line.len() > LINE_OCTETS {
        return Ok(false);
    }
    says(alloc, n, line)
}

// Whether a text ends after a line: nothing is left, and the next line isn't the first.
fn is_after_a_line(n: u64, rest: &[u8]) -> bool
    ensures { result ≡ ((length rest.now == 0) && not (n == 1)) }
{
    rest.is_empty() && n != 1
}

/// The number of the first line of a text that is no line of a schedule within the limits.
pub(crate) fn bad_line(alloc: Global, text: &[u8]) -> Result<Option<u64>, OutOfMemory>
    ensures { IfOk result (λ bad. bad ≡ bad_line text.now) }
{
    let mut rest = text;
    let mut n: u64 = 1;
    let mut used: usize = 0;
    'lines: while let Some((line, after)) = split_once(rest, b'\n') {
        let end = used + (line.len() + 1);
        if !is_line(alloc, n, end, line)? {
            return Ok(Some(n));
        }
        n += 1;
        used = end;
        rest = after;
    }
    if is_after_a_line(n, rest) {
        return Ok(None);
    }
    Ok(Some(n))
}

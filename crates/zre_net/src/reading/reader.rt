//! The moves of a text, one by one.

ghost use Rattle.std.specs.Prelude.{◌≡◌, [], ◌∷◌, IfOk, MatchOption};
ghost use Rattle.zre_net.specs.Reading.{lines_in, moves_in, moves_of, IsNext};

use crate::moves::Move;
use crate::reading::line::read_move;
use std::alloc::Global;
use std::marker::Model;
use zre_capture::split_once;
use zre_values::OutOfMemory;

/// Reads the moves of a text where it lies, each as it is due. It is seen as the list of those that are left.
#[derive(Drop)]
pub struct MoveReader<'a> {
    alloc: Global,
    rest: &'a [u8],
}

impl<'a> Model for MoveReader<'a> {
    ghost use Rattle.std.specs.Prelude.{List};
    ghost use Rattle.zre_net.specs.declared.moves.Move.{Move as MoveValue};
    ghost use Rattle.zre_net.specs.Reading.{lines_in, moves_in};

    ghost Value = { List MoveValue };

    ghost view = { λ reader. moves_in (lines_in reader.rest.now) };
}

// The next move, and what stands after its line. A line that says none is passed over.
fn next_move(alloc: Global, text: &[u8]) -> Result<Option<(Move, &[u8])>, OutOfMemory>
    ensures { IfOk result (λ found. MatchOption found (moves_in (lines_in text.now) ≡ [])
        (λ p. moves_in (lines_in text.now) ≡ p.0 ∷ moves_in (lines_in p.1.now))) }
{
    let mut rest = text;
    'lines: while let Some((line, after)) = split_once(rest, b'\n') {
        if let Some(said) = read_move(alloc, line)? {
            return Ok(Some((said, after)));
        }
        rest = after;
    }
    Ok(None)
}

impl<'a> MoveReader<'a> {
    /// The moves of the lines of a text, whose first line is the head. A line that says no move is passed over; there
    /// is none where `check_schedule` finds no fault.
    pub fn new(alloc: Global, text: &'a [u8]) -> MoveReader<'a>
        ensures { result ≡ moves_of (lines_in text.now) }
    {
        match split_once(text, b'\n') {
            Some((_, rest)) => MoveReader { alloc, rest },
            None => MoveReader { alloc, rest: text },
        }
    }

    /// The next move. After the last there is none.
    pub fn next(&mut self) -> Result<Option<Move>, OutOfMemory>
        ensures { IfOk result (λ found. IsNext found self.old self.new) }
    {
        match next_move(self.alloc, self.rest)? {
            Some((said, after)) => {
                self.rest = after;
                Ok(Some(said))
            }
            None => Ok(None),
        }
    }
}

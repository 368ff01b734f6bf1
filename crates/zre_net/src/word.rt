//! The words of moves.

ghost use Rattle.std.specs.Prelude.{◌≡◌};
ghost use Rattle.zre_net.specs.Fields.{move_word_of};

use zre_values::find_word;

/// What is done, by its word alone.
#[derive(Clone, Copy)]
pub enum MoveWord {
    Start,
    Crash,
    Tick,
    Do,
    Beacon,
    Open,
    Carry,
    Piece,
    Shut,
    Linked,
    Unlinked,
    Reply,
    Took,
}

/// The word of a move, if the field is one.
#[tactic(auto, unfolding(crate::specs::Fields::move_word_of))]
pub(crate) fn move_word(field: &[u8]) -> Option<MoveWord>
    ensures { result ≡ move_word_of field.now }
{
    find_word!(field;
        b"start" MoveWord::Start,
        b"crash" MoveWord::Crash,
        b"tick" MoveWord::Tick,
        b"do" MoveWord::Do,
        b"beacon" MoveWord::Beacon,
        b"open" MoveWord::Open,
        b"carry" MoveWord::Carry,
        b"piece" MoveWord::Piece,
        b"shut" MoveWord::Shut,
        b"linked" MoveWord::Linked,
        b"unlinked" MoveWord::Unlinked,
        b"reply" MoveWord::Reply,
        b"took" MoveWord::Took)
}

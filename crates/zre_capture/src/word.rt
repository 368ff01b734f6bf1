//! The words of lines.

ghost use Rattle.std.specs.Prelude.{◌≡◌};
ghost use Rattle.zre_capture.specs.Values.{input_word_of, command_word_of};

use zre_values::find_word;

/// What happened, by its word alone.
#[derive(Clone, Copy)]
pub enum InputWord {
    Datagram,
    Opened,
    Piece,
    Shut,
    Linked,
    Reply,
    Unlinked,
    Took,
    Tick,
    Do,
    End,
}

/// What the user asks for, by its word alone.
#[derive(Clone, Copy)]
pub enum CommandWord {
    Join,
    Leave,
    Whisper,
    Shout,
    Bad,
    Quit,
}

/// The word of what happened, if the field is one.
#[tactic(auto, unfolding(crate::specs::Values::input_word_of))]
pub fn input_word(field: &[u8]) -> Option<InputWord>
    ensures { result ≡ input_word_of field.now }
{
    find_word!(field;
        b"datagram" InputWord::Datagram,
        b"opened" InputWord::Opened, b"piece" InputWord::Piece, b"shut" InputWord::Shut,
        b"linked" InputWord::Linked, b"reply" InputWord::Reply, b"unlinked" InputWord::Unlinked,
        b"took" InputWord::Took, b"tick" InputWord::Tick, b"do" InputWord::Do, b"end" InputWord::End)
}

/// The word of a command, if the field is one.
#[tactic(auto, unfolding(crate::specs::Values::command_word_of))]
pub fn command_word(field: &[u8]) -> Option<CommandWord>
    ensures { result ≡ command_word_of field.now }
{
    find_word!(field;
        b"join" CommandWord::Join, b"leave" CommandWord::Leave,
        b"whisper" CommandWord::Whisper, b"shout" CommandWord::Shout,
        b"bad" CommandWord::Bad, b"quit" CommandWord::Quit)
}

use crate::Entry;
use zre_values::List;

/// What a world answers: something that has happened, or that now is the moment to look for commands.
#[derive(Drop)]
pub enum Turn {
    /// Something has happened.
    Entry(Entry),
    /// Now is the moment to look for commands.
    Look,
}

/// What a world in memory is to answer: entries, and looks at which it waits for a command.
pub type Script = List<Turn>;

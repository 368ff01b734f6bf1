//! What a pass knows. No value of these types is made.
use crate::Ending;
use std::collections::LinkedList;
use zre_outside::Command;
use zre_peer::Event;

/// A command as it was put: under which number, and which numbers its pass had absorbed by then.
pub struct Placed {
    pub number: u64,
    pub ended: LinkedList<u64>,
    pub command: Command,
}

/// What a pass of the command pipe knows.
pub struct CommandView {
    /// Whether it is the actor's.
    pub actor: bool,
    /// What the actor popped.
    pub popped: LinkedList<Placed>,
    /// The caller's number, alone, or nothing.
    pub own: LinkedList<u64>,
    /// The numbers of the callers that it absorbed.
    pub ended: LinkedList<u64>,
    /// Numbers for callers to come.
    pub unused: LinkedList<u64>,
    /// What was put under its own and its ended numbers.
    pub put: LinkedList<Placed>,
}

/// What a pass of the event pipe knows.
pub struct EventView {
    /// Whether it is the actor's.
    pub raises: bool,
    pub raised: LinkedList<Event>,
    pub ended_by: Option<Ending>,
    /// Whether it is the taker's.
    pub takes: bool,
    pub taken: LinkedList<Event>,
    pub last: Option<Ending>,
}

use crate::causes::{Cause, CloseWhy, IgnoreWhy, RefuseWhy};
use zre_values::{Frames, List, Octets, Pairs, PeerId};

/// What the node tells. The events are those of the zyre manual; `name` is the peer's own.
#[derive(Debug)]
pub enum Event {
    /// A peer has come; of headers of one name it has the first.
    Enter {
        id: PeerId,
        name: Octets,
        endpoint: Octets,
        headers: Pairs,
    },
    /// A peer says that it is in a group.
    Join {
        id: PeerId,
        name: Octets,
        group: Octets,
    },
    /// A peer says that it has left a group.
    Leave {
        id: PeerId,
        name: Octets,
        group: Octets,
    },
    /// A peer sent content to this node alone.
    Whisper {
        id: PeerId,
        name: Octets,
        content: Frames,
    },
    /// A peer sent content to a group.
    Shout {
        id: PeerId,
        name: Octets,
        group: Octets,
        content: Frames,
    },
    /// Nothing has come from a peer for the time `evasive` of the node's settings.
    Evasive {
        id: PeerId,
        name: Octets,
    },
    /// A peer has gone, or the node has ended it.
    Exit {
        id: PeerId,
        name: Octets,
        cause: Cause,
    },
    /// This node has stopped. Nothing comes after it.
    Stop,
    /// The node closes a connection.
    Closed {
        conn: u64,
        why: CloseWhy,
    },
    /// A connection is ignored from now on.
    Ignored {
        conn: u64,
        why: IgnoreWhy,
    },
    /// A command isn't done.
    Refused {
        why: RefuseWhy,
    },
}

// By hand: docs/DECISIONS.md says why, at "Drops by hand".
impl Drop for Event {
    fn drop(self) {
        match self {
            Event::Enter {
                id: _,
                name: _name,
                endpoint: _endpoint,
                headers: _headers,
            } => {}
            Event::Join {
                id: _,
                name: _name,
                group: _group,
            } => {}
            Event::Leave {
                id: _,
                name: _name,
                group: _group,
            } => {}
            Event::Whisper {
                id: _,
                name: _name,
                content: _content,
            } => {}
            Event::Shout {
                id: _,
                name: _name,
                group: _group,
                content: _content,
            } => {}
            Event::Evasive { id: _, name: _name } => {}
            Event::Exit {
                id: _,
                name: _name,
                cause: _,
            } => {}
            Event::Stop => {}
            Event::Closed { conn: _, why: _ } => {}
            Event::Ignored { conn: _, why: _ } => {}
            Event::Refused { why: _why } => {}
        }
    }
}

/// A list of events.
pub type Events = List<Event>;

//! The moves of a schedule.

use zre_outside::Command;
use zre_values::{Octets, PeerId};

/// What a connection is made to carry: a part of what the node at the other end of its link says.
#[derive(Clone, Copy)]
pub enum Part {
    /// The greeting of that node.
    Greeting,
    /// Its READY.
    Ready,
    /// A message of the link, by its number from 1.
    Message { number: u64 },
}

/// One move of a schedule. Nodes have the numbers of the schedule; beacons, links and connections are numbered from 1,
/// in the order in which they came about.
#[derive(Drop)]
pub enum Move {
    /// A node starts.
    Start {
        node: u8,
        at: u64,
        id: PeerId,
        name: Octets,
        host: [u8; 4],
        port: u16,
    },
    /// A node is gone, with its links and connections.
    Crash {
        node: u8,
    },
    /// Time has passed at a node.
    Tick {
        node: u8,
        at: u64,
    },
    /// A user asks a node for something.
    Do {
        node: u8,
        at: u64,
        command: Command,
    },
    /// A node hears a beacon.
    Beacon {
        beacon: u64,
        node: u8,
        at: u64,
    },
    /// A connection that carries a link opens at a node.
    Open {
        link: u64,
        node: u8,
        at: u64,
    },
    /// A connection is made to carry one part more.
    Carry {
        conn: u64,
        part: Part,
    },
    /// The next octets of a connection come.
    Piece {
        conn: u64,
        count: u64,
        at: u64,
    },
    /// A connection is closed.
    Shut {
        conn: u64,
        at: u64,
    },
    /// A link stands.
    Linked {
        link: u64,
        at: u64,
    },
    /// A link breaks.
    Unlinked {
        link: u64,
        at: u64,
    },
    /// Octets come back on a link.
    Reply {
        link: u64,
        at: u64,
        bytes: Octets,
    },
    /// Octets of a link are sent.
    Took {
        link: u64,
        count: u64,
        at: u64,
    },
}

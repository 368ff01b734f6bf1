//! What the outside tells a node, and what a user asks of it.

use zre_values::{Frames, List, Octets, PeerId};

/// What a user asks of the node.
#[derive(Drop)]
pub enum Command {
    /// To be in a group, and to tell the peers so.
    Join { group: Octets },
    /// To be in a group no longer.
    Leave { group: Octets },
    /// To send content to one peer.
    Whisper { peer: PeerId, content: Frames },
    /// To send content to the peers that are in a group.
    Shout { group: Octets, content: Frames },
    /// A line of the user's that asks for nothing known, by its number from 1.
    Bad { line: u64 },
    /// To leave the network.
    Quit,
}

/// What has happened outside. Connections are those that others opened to this node, and links are those that it opened
/// itself; each is named by a number.
#[derive(Drop)]
pub enum Input {
    /// A datagram came by UDP from this address.
    Datagram { from: [u8; 4], bytes: Octets },
    /// Another node opened a connection.
    Opened { conn: u64 },
    /// The next octets of a connection came.
    Piece { conn: u64, bytes: Octets },
    /// A connection was closed.
    Shut { conn: u64 },
    /// A link stands.
    Linked { link: u64 },
    /// The next octets that a peer sends back on a link came.
    Reply { link: u64, bytes: Octets },
    /// A link couldn't be opened, or was closed.
    Unlinked { link: u64 },
    /// So many of the octets that a link was offered are sent.
    Took { link: u64, count: u64 },
    /// Time has passed.
    Tick,
    /// The user asks for something.
    Do(Command),
    /// Nothing comes any more.
    End,
}

/// One entry of a journal: something that happened, and the clock's reading in milliseconds as the node was told.
#[derive(Drop)]
pub struct Entry {
    /// The clock's reading in milliseconds.
    pub at: u64,
    /// What happened.
    pub input: Input,
}

/// A list of entries: a journal, or a part of one.
pub type Entries = List<Entry>;

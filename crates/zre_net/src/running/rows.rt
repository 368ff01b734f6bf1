//! What a network keeps of starts, beacons, links and connections, each under its number from 1.

use crate::running::read_side::ReadSide;
use crate::running::sender::Sender;
use crate::running::waiting::Waiting;
use zre_values::{PeerId, take_apart};

/// A node from one start on.
pub(crate) struct Started {
    pub node: u8,
    pub since: u64,
    pub id: PeerId,
    pub host: [u8; 4],
    pub sender: Sender,
}

impl Drop for Started {
    fn drop(self) {
        take_apart!(self, Started: node, since, id, host, sender);
    }
}

/// A beacon, and the host from which it was sent.
#[derive(Clone, Copy)]
pub(crate) struct SentBeacon {
    pub from: [u8; 4],
    pub octets: [u8; 22],
}

/// A link: the start of its node, and its number there.
#[derive(Clone, Copy)]
pub(crate) struct Way {
    pub start: u64,
    pub link: u64,
}

/// A connection: the start at which it opened, the link that it carries, and what it has yet to hand in.
pub(crate) struct Carrier {
    pub to: u64,
    pub along: Way,
    pub waiting: Waiting,
    pub read_side: ReadSide,
}

impl Drop for Carrier {
    fn drop(self) {
        take_apart!(self, Carrier: to, along, waiting, read_side);
    }
}

/// The ID that a node has, or had.
#[derive(Clone, Copy)]
pub(crate) struct Owner {
    pub node: u8,
    pub id: PeerId,
}

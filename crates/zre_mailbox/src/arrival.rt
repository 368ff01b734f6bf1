//! What comes in on a connection.

use zre_msg::Message;
use zre_values::{List, Octets, PeerId};

/// What is whole on an incoming connection, and concerns the node.
#[derive(Debug, Drop)]
pub enum Arrival {
    /// The greeting.
    Greeted,
    /// READY was received, of a DEALER whose identity is 01 and the UUID of this peer (RFC 36). The peer isn't the node
    /// itself.
    Shaken(PeerId),
    /// PING of ZMTP 3.1 (RFC 37), with its context: a PONG with the same context answers it.
    Ping(Octets),
    /// A message of ZRE.
    Message(Message),
}

/// A list of arrivals.
pub type Arrivals = List<Arrival>;

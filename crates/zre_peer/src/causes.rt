//! Why something came to its end.

use zre_values::{Octets, PeerId};
use zre_zmtp::ZmtpFault;

/// Why a peer ended.
#[derive(Clone, Copy, Debug, PartialEq, Eq)]
pub enum Cause {
    /// A beacon of the peer said that it leaves (RFC 36, a beacon with port 0).
    Beacon,
    /// Nothing came from the peer for the time `expired` of the node's settings.
    Expired,
    /// The node's own connection to the peer broke.
    Link,
    /// What the peer answered on the node's own connection is no stream of a ROUTER (RFC 23).
    Reply(ZmtpFault),
    /// The peer is slow to read: `unsent` octets wait, a message of `size` octets was to be sent, and together they are
    /// more than may wait on one link.
    Slow { unsent: u64, size: u64 },
    /// The peer closed its connection.
    Shut,
    /// What came on the peer's connection is no stream of a DEALER (RFC 23).
    Fault,
    /// A newer connection with the identity of the peer took over.
    Taken,
    /// A second HELLO came.
    Hello,
    /// A message was lost, repeated or out of order: the number that was due, and the one that came.
    Order { due: u16, got: u16 },
    /// The view would have passed a limit.
    Limit,
    /// This node stops.
    Stop,
}

/// Why the node closes a connection.
#[derive(Clone, Copy, Debug, PartialEq, Eq)]
pub enum CloseWhy {
    /// What came on the connection is no stream of a DEALER (RFC 23).
    Zmtp(ZmtpFault),
    /// As many connections are open as may be.
    TooMany,
    /// The connection ran no peer for the time after which a peer expires.
    Timeout,
    /// A newer connection with the same identity took over.
    Taken,
}

/// Why a connection is ignored.
#[derive(Clone, Copy, Debug, PartialEq, Eq)]
pub enum IgnoreWhy {
    /// The first message isn't HELLO with number 1.
    NotHello,
    /// The view that HELLO sets passes a limit.
    Limit,
    /// The peer isn't known, and the endpoint in HELLO can't be read.
    NoEndpoint,
    /// As many peers are known as may be.
    Full,
}

/// Why a command isn't done.
#[derive(Debug, Drop)]
pub enum RefuseWhy {
    /// The peer isn't there.
    NoPeer(PeerId),
    /// The name of the group, or the message, passes a limit.
    TooBig,
    /// The node isn't in this group.
    NoGroup(Octets),
    /// The node is in this group already.
    Same(Octets),
    /// The node is in as many groups as it may be.
    Limit(Octets),
    /// The line with this number is no command.
    BadLine(u64),
}

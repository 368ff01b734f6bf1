//! What can be wrong with a stream.

ghost use Rattle.std.specs.Prelude.{◌≡◌};
ghost use Rattle.zre_zmtp.specs.declared.fault.FeedFault.TheVariants.{OutOfMemory as NoMemory};

use std::alloc::{AllocError, AllocFailed};
use thiserror::Error;

/// Why a stream is no stream of ZMTP 3 with the NULL mechanism, or one past the limits of this node.
#[derive(Clone, Copy, Debug, PartialEq, Eq)]
pub enum ZmtpWhy {
    /// The first or the tenth octet of the greeting is another (RFC 23, greeting).
    Signature,
    /// A major version below 3.
    OldVersion,
    /// Another mechanism than NULL, or octets after its name that aren't zero.
    Mechanism,
    /// Flags that no frame has (RFC 23, framing).
    Flags,
    /// The body of a command has no name, an empty one, or one that goes past its end.
    CommandName,
    /// What stands after the name READY isn't a list of properties (RFC 23, the NULL mechanism).
    Metadata,
    /// READY names no socket type, or not the one that is wanted.
    SocketType,
    /// READY has no identity, one that isn't 01 and sixteen octets, or the node's own.
    Identity,
    /// The peer says ERROR in place of READY.
    PeerError,
    /// A message or another command comes in place of READY.
    Order,
    /// The bodies of one message, or the body of one command, have more octets than the limits allow.
    TooLarge,
    /// A message has more frames than the limits allow.
    TooManyFrames,
}

/// The first fault of a stream.
#[derive(Clone, Copy, Debug, PartialEq, Eq, Error)]
#[error("{why:?} at octet {place}")]
pub struct ZmtpFault {
    /// What is wrong.
    pub why: ZmtpWhy,
    /// How many octets of the stream stand before it: before the octet of a greeting that can't be, and else before
    /// the flags octet of the frame.
    pub place: u64,
}

/// Why a piece was refused.
#[derive(Clone, Copy, Debug, PartialEq, Eq, Error)]
pub enum FeedFault {
    /// The octets so far are no beginning of a stream, whatever follows.
    #[error("{0}")]
    Zmtp(ZmtpFault),
    /// No memory was left, or a place would be above 2^64 - 1.
    #[error("out of memory")]
    OutOfMemory,
}

/// What a reader answers where it is fed: nothing, or why the piece was refused.
pub type Fed = Result<(), FeedFault>;

impl From<zre_values::OutOfMemory> for FeedFault {
    ghost from_gives = { λ _ e. e ≡ NoMemory };

    fn from(_: zre_values::OutOfMemory) -> Self {
        FeedFault::OutOfMemory
    }
}

impl From<AllocError> for FeedFault {
    ghost from_gives = { λ _ e. e ≡ NoMemory };

    fn from(_: AllocError) -> Self {
        FeedFault::OutOfMemory
    }
}

impl<T: Drop> From<AllocFailed<T>> for FeedFault {
    ghost from_gives = { λ _ e. e ≡ NoMemory };

    fn from(_: AllocFailed<T>) -> Self {
        FeedFault::OutOfMemory
    }
}

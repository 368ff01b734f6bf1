//! What comes next in a stream.

/// The part of a stream that comes next (RFC 23, the connection).
#[derive(Clone, Copy, Debug, PartialEq, Eq)]
pub enum Expected {
    /// The greeting of 64 octets.
    Greeting,
    /// READY, or ERROR in its place.
    Ready,
    /// Messages and commands.
    Traffic,
}

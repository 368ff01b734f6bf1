//! The limits of a schedule.

/// Lines of a schedule, the head included.
pub const LINES: usize = 262144;

/// Octets of a schedule, line feeds included.
pub const OCTETS: usize = 16777216;

/// Nodes of a schedule, by their numbers.
pub const NODES: u64 = 16;

/// Octets of a node's name.
pub const NAME_OCTETS: usize = 255;

/// Octets of all messages that are put on links.
pub const QUEUED_OCTETS: u64 = 1073741824;

/// Octets that connections have yet to hand in, all together.
pub const PENDING_OCTETS: u64 = 1073741824;

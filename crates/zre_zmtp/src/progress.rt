//! How far a stream has come.

use crate::expected::Expected;
use crate::looks::Store;
use crate::opened::Opened;
use crate::partial::Partial;
use std::alloc::Global;

/// What the octets so far tell: the whole parts, and the part that isn't whole.
#[derive(Drop)]
pub struct Progress {
    /// Where memory comes from.
    pub alloc: Global,
    /// The part that comes next.
    pub expected: Expected,
    /// How many octets the whole parts have.
    pub place: u64,
    /// The bodies of the frames of a message that isn't whole.
    pub opened: Opened,
    /// Where the message begins that the next message frame belongs to.
    pub start: u64,
    /// The octets of a greeting that isn't whole, where that is expected.
    pub greeting: Store,
    /// The octets of a frame that isn't whole, where a frame is expected.
    pub partial: Partial,
}

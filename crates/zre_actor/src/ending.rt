/// Why the actor ended.
#[derive(Clone, Copy, Debug, PartialEq, Eq)]
pub enum Ending {
    /// The node stopped.
    Stopped,
    /// The world failed.
    WorldFault,
    /// The recorder failed.
    RecordFault,
    /// As many turns were taken as were allowed, and the node hasn't stopped.
    TooLong,
    /// No memory was left.
    OutOfMemory,
}

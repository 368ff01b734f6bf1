/// Why no more of the input was taken.
#[derive(Clone, Copy, Debug, PartialEq, Eq)]
pub enum InputEnd {
    /// A line asked to leave the network.
    Quit,
    /// There was no more of it.
    AtEnd,
    /// The chat was over.
    Over,
    /// The source failed.
    ReadFault,
    /// It was longer than the limit.
    TooLong,
    /// Memory ran out.
    OutOfMemory,
}

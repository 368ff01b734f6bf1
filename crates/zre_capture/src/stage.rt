/// What a generator of the exercise gives next.
#[derive(Clone, Copy)]
pub(crate) enum ExerciseStage {
    /// The beacon of a peer.
    Beacon(u8),
    /// The connection of a peer.
    Opened(u8),
    /// What comes first on the connection of a peer.
    Introduction(u8),
    /// A message that isn't spelled yet, or the end.
    Messages,
    /// The first piece of a message.
    First(u32),
    /// The second piece of a message.
    Second(u32),
    /// Nothing.
    Done,
}

use crate::Ending;
use zre_peer::Event;

/// What comes out of the event pipe.
#[derive(Debug, Drop)]
pub enum Told {
    /// The node tells of something.
    Event(Event),
    /// Nothing comes any more, and why.
    Last(Ending),
}

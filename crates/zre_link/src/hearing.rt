//! Whether replies are read.

use zre_zmtp::{FeedFault, Reader};

/// What is done with the octets of replies.
pub enum Hearing {
    /// They are read.
    Reads(Reader),
    /// A piece was refused: each further piece is refused with this fault, and no octets are held.
    Refused(FeedFault),
}

// By hand: docs/DECISIONS.md says why, at "Drops by hand".
impl Drop for Hearing {
    fn drop(self) {
        match self {
            Hearing::Reads(_reader) => {}
            Hearing::Refused(_) => {}
        }
    }
}

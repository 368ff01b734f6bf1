//! Whether a connection is heard.

use zre_zmtp::Reader;

/// What a connection does with octets.
pub enum Phase {
    /// They are read.
    Live(Reader),
    /// A piece was refused, and no octets are held.
    Spent,
    /// Octets that come are ignored, and none are held.
    Ignored,
}

// By hand: docs/DECISIONS.md says why, at "Drops by hand".
impl Drop for Phase {
    fn drop(self) {
        match self {
            Phase::Live(_reader) => {}
            Phase::Spent | Phase::Ignored => {}
        }
    }
}

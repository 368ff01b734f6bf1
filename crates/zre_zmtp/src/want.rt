//! What is wanted at the other end.

use zre_values::PeerId;

/// Which socket READY has to name, and whose identity it has to give.
#[derive(Clone, Copy, Debug, PartialEq, Eq)]
pub enum Want {
    /// Any socket or none, and any identity or none.
    Any,
    /// A ROUTER, with any identity or none.
    Router,
    /// A DEALER whose identity is 01 and the UUID of another than this one, the node's own.
    Dealer(PeerId),
}

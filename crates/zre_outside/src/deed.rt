use crate::Act;
use zre_values::Octets;

/// What a world was told to do.
#[derive(Drop)]
pub enum Deed {
    /// An act of a node.
    Done(Act),
    /// Octets that a link has to send.
    Offered { link: u64, bytes: Octets },
}

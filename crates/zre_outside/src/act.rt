use zre_values::{Endpoint, List, Octets};

/// What a node asks of the outside.
#[derive(Drop)]
pub enum Act {
    /// To open a link to an endpoint.
    Connect { link: u64, to: Endpoint },
    /// To close a link.
    CloseLink { link: u64 },
    /// To close a connection that another node opened.
    CloseConn { conn: u64 },
    /// To send octets back on such a connection.
    Answer { conn: u64, bytes: Octets },
    /// To look at what a link has to send.
    Offer { link: u64 },
    /// To send a beacon by UDP.
    Beacon { bytes: [u8; 22] },
}

/// A list of acts, in the order in which they are to be done.
pub type Acts = List<Act>;

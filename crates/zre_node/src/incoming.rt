//! What comes in: connections, their pieces, what is whole of them, and the runs of messages.

pub(crate) mod arrivals;
pub(crate) mod connections;
pub(crate) mod first;
pub(crate) mod hearing;
pub(crate) mod runs;

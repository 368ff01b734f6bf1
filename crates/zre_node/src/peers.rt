//! Peers that are born, heard, told things, and end.

pub(crate) mod births;
pub(crate) mod broadcasts;
pub(crate) mod ends;
pub(crate) mod ticks;

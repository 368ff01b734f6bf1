//! A table that the members of a group share: each write is one frame of content, the last writer of a key wins, and
//! members that took the same writes hold the same table, in whatever order and however often each came.
#![tactic(auto)]

mod age;
mod gathered;
pub mod laws;
mod reading;
mod replica;
mod write;

pub use gathered::Commands;
pub use replica::{Replica, SetFault};
pub use write::{KEY_OCTETS, VALUE_OCTETS, Write};

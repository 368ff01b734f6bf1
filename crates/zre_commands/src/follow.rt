//! The command `follow`: the events of one connection, from the octets of its traffic.

mod ends;
mod follower;
mod taking;

pub use follower::Follower;

//! The groups that this node is in.
#![tactic(auto)]

mod own;

pub use own::{JoinFault, NoGroup, Own};

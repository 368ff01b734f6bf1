//! The core of a node: entries of a journal come in one by one, and events and acts come out. It has no clock, no
//! socket and no thread; what the journal means stands in `zre_journal`.
#![tactic(auto)]

mod accessors;
mod effects;
mod holding;
mod incoming;
mod node;
mod outgoing;
mod peers;
mod steps;
mod stops;
mod tables;

pub use effects::Step;
pub use node::Node;
pub use zre_tables::{Ids, Links};

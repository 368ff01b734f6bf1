//! The rows of a node's tables: the known peers by their links, and the open connections by their numbers.
#![tactic(auto)]

mod connection;
mod conns;
mod feeding;
mod holding;
mod offers;
mod peer;
mod peers;
mod probing;
mod replies;
mod rows;
mod runs;
mod searches;

pub use connection::Connection;
pub use conns::Conns;
pub use peer::{CarriedRun, Peer};
pub use peers::{Ids, Links, Peers};
pub use probing::name_of;

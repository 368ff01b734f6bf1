//! The call `gate`: a node in a thread of its own over the world, as in a chat, and beside it a thread for each of
//! several clients, which puts the commands of the client's lines, and one that closes the gate once all clients have
//! ended. The caller's own thread writes the lines of what the node tells.
#![tactic(auto)]

mod arrivals;
mod client;
mod closer;
mod gate;
mod gate_name;
mod gathering;
mod table;
mod threads;

pub use client::{Answer, ClientJob};
pub use closer::CloserJob;
pub use gate::{Gate, GateEnded};
pub use gate_name::GateName;

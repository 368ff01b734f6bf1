//! The command `simulate`: the events of several nodes, from a schedule.

mod answer;
mod simulator;

pub use simulator::Simulator;

//! Timers: when each key was last heard of, and which keys have been silent for how long.
#![tactic(auto)]

mod timers;

pub use timers::{Due, Timers};

//! The subjects below the node: values, streams, messages, connections, runs, and the tables.

pub mod beacons;
mod body;
pub mod conns;
pub mod links;
pub mod lists;
pub mod messages;
pub mod own;
pub mod quoting;
pub mod runs;
pub mod streams;
mod texts;
pub mod timers;
pub mod values;
pub mod writing;

//! Looks at octets, and how they are counted.

mod steps;
mod store;

pub use steps::Steps;
pub use store::Store;

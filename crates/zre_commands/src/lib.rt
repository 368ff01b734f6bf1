//! The commands that read one stream of a peer and write text: `follow`, `show`, and `exercise`, which makes its own;
//! `Machine`, what makes text of octets, and `pump`, which runs a machine over a source and a sink. Commands that read
//! captures and schedules stand in `zre_records`.
#![tactic(auto)]

pub mod exercise;
pub mod follow;
mod frames;
pub mod pump;
pub mod show;
mod stream;

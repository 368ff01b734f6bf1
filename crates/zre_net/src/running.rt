//! Schedules run.

mod asked;
mod lines;
mod network;
mod nth;
mod numbered;
mod pieces;
mod play;
mod plays;
mod read_side;
mod rope;
mod rows;
mod said;
mod schedule;
mod sender;
mod spelling;
mod steps;
mod texts;
mod waiting;

pub use network::Network;
pub use said::SaidEvents;
pub use schedule::run_schedule;

//! The command `exercise`: a node goes through a large journal that is made from a number, and what it tells is
//! counted.

mod counts;
mod run;
mod settings;
mod text;

pub use run::push_summary;

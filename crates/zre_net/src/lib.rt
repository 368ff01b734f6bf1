//! A network of nodes under a schedule: what its moves mean, and what its nodes then tell. The definitions stand in
//! `specs/`.
#![tactic(auto)]

mod fault;
mod laws;
pub mod limits;
mod moves;
mod reading;
mod running;
mod word;

pub use fault::{BadSchedule, ScheduleFault};
pub use laws::{
    a_cut_piece_is_a_whole_one, a_restart_computes, an_agreement_computes, an_example_computes,
    few_messages_are_within_the_window, links_only_grow, long_texts_are_refused_early, nodes_agree,
    pieces_are_a_front_of_what_is_carried, schedules_are_short,
};
pub use moves::{Move, Part};
pub use reading::{MoveReader, Schedule, check_schedule, read_schedule};
pub use running::{Network, SaidEvents, run_schedule};

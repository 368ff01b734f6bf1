//! The commands that read what was recorded or planned, and write text: of captures `replay`, `upgrade`, `table` and
//! `audit`, and of a schedule `simulate`, each a machine for `zre_commands::pump`.
#![tactic(auto)]

pub mod audit;
pub mod laws;
pub mod replay;
pub mod simulate;
pub mod table;
pub mod upgrade;

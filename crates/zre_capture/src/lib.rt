//! Captures: journals of a node as texts. A capture has a head line and a line for each entry; that of format 2 has the
//! settings of the node too. Beside them stands the exercise, a large journal that is made from a number.
#![tactic(auto)]

mod digit_table;
mod direct;
mod draws;
mod exercise;
mod fault;
mod field;
mod format;
mod head;
mod headers;
mod hexadecimal;
mod introduction;
pub mod laws;
mod line;
mod line_start;
mod list;
mod macros;
mod pairs;
mod read;
mod reader;
mod split;
mod stage;
mod talk;
mod value;
mod word;

pub use exercise::Exercise;
pub use fault::{BadCapture, CaptureFault};
pub use format::{Format, LINE_OCTETS, LINE_OCTETS_2};
pub use head::{HEAD, push_head2, write_head2};
pub use hexadecimal::hex;
pub use line::{push_entry, push_entry2, write_entry, write_entry2};
pub use pairs::both;
pub use read::{command, first_field, number_and_hex, one_number, two_fields, two_numbers};
pub use reader::CaptureReader;
pub use split::{first_part, split_once};
pub use value::{address, group, id, number};
pub use zre_values::Settings;

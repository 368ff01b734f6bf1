//! What the caller's thread does: it takes the events of the node, writes their lines, and puts a Quit where it has to.

mod asker;
mod page;
mod printing;

pub use asker::{Asker, Wish};
pub use page::Page;
pub use printing::{Printed, print_all};

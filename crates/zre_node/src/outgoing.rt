//! What goes out: links, messages on them, and the commands of the user.

pub(crate) mod commands;
pub(crate) mod links;
pub(crate) mod offers;
pub(crate) mod pushes;

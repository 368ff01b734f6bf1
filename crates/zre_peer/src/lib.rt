//! One peer as a connection tells of it: the view that its messages lead to, the events that they raise, and the
//! run that takes them one after the other and says where they break off.
#![tactic(auto)]

mod cause_text;
mod causes;
mod changes;
mod event;
mod group_table;
mod groups;
mod headers;
mod heads;
mod hello;
pub mod laws;
mod lending;
mod line;
mod peer_run;
mod teller;
mod telling;
mod view;

pub use cause_text::zmtp_name;
pub use causes::{Cause, CloseWhy, IgnoreWhy, RefuseWhy};
pub use event::{Event, Events};
pub use groups::Groups;
pub use headers::Headers;
pub use lending::lent;
pub use line::{push_line, push_lines};
pub use peer_run::{Run, RunFault};
pub use teller::Teller;
pub use view::View;

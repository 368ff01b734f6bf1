//! The program after `main`: the words of its command line, and the top call that does what they ask for over a
//! source and a sink, and for `chat` over a world, a recorder and a spawner.
#![tactic(auto)]

mod chat_words;
mod command;
mod gate_call;
mod gate_words;
mod keys;
mod laws;
mod node_words;
mod plain_commands;
mod plain_words;
mod top;
mod words;

pub use command::{Command, command_of, is_chat};
pub use gate_call::gate;
pub use gate_words::{gate_of, is_gate};
pub use laws::kept_captures_are_replayed;
pub use plain_commands::{PlainEnded, plain};
pub use plain_words::Plain;
pub use top::{LIMIT, run, zre};
pub use zre_chat::Chat;
pub use zre_commands::pump::Status;
pub use zre_console::finishing::Ended;
pub use zre_gate::GateEnded;

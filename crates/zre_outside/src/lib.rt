//! The outside of the node, as traits: where octets come from and where they go to. Each trait tells in ghost
//! members what was read or written and how often the outside failed, so that what is generic over it can be
//! held to both. Beside the traits stand objects in memory and adapters over std's readers and writers, and what
//! travels between a node and its outside: entries of a journal, and acts.
#![tactic(auto)]

mod act;
mod adapters;
mod buffer;
mod calls;
mod copies;
mod deed;
mod desk;
mod entry;
mod faults;
mod file_recorder;
mod gathering;
mod given;
mod held;
mod job;
mod mem_desk;
mod mem_recorder;
mod memory;
mod plain_spawner;
mod recorder;
mod running;
mod script_world;
mod sink;
mod source;
mod spawner;
mod stage;
mod start;
mod starting;
mod sure;
mod sure_desk;
mod sure_recorder;
mod sure_world;
mod thread_spawner;
mod turn;
mod world;

pub use act::{Act, Acts};
pub use adapters::{Adapter, StdSink, StdSource};
pub use buffer::{PIECE, room_for, zeros};
pub use deed::Deed;
pub use desk::Desk;
pub use entry::{Command, Entries, Entry, Input};
pub use faults::Faults;
pub use file_recorder::FileRecorder;
pub use gathering::{write_gathered, write_much};
pub use job::{Job, Task};
pub use mem_desk::MemDesk;
pub use mem_recorder::MemRecorder;
pub use memory::{MemSink, MemSource};
pub use plain_spawner::PlainSpawner;
pub use recorder::Recorder;
pub use running::{Refused, Running, Works};
pub use script_world::{LOOKS_IN_A_ROW, ScriptWorld};
pub use sink::{NextFault, Sink, write_all};
pub use source::{Failed, Source};
pub use spawner::{Spawner, Underway};
pub use start::{Addresses, Start};
pub use sure::{SureSink, SureSource};
pub use sure_desk::SureDesk;
pub use sure_recorder::SureRecorder;
pub use sure_world::SureWorld;
pub use thread_spawner::ThreadSpawner;
pub use turn::{Script, Turn};
pub use world::World;

//! Whether two nodes agree, as their journals say: what each heard in a run of the other is the beginning of what the
//! other put on a link. A [`Watch`] goes through a journal and keeps what was said by WHISPER and SHOUT, both ways.
#![tactic(auto)]

mod coding;
mod counting;
mod excess;
mod judging;
pub mod laws;
mod peer_runs;
mod put;
mod seen;
mod verdicts;
mod watch;

pub use judging::verdict;
pub use verdicts::Verdict;
pub use watch::Watch;

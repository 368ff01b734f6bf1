//! Two pipes between callers and the one thread that holds a node: commands go in, and events come out. Each thread has
//! a pass, which knows what that thread put, popped, raised or took; what the pipes hold is tied to the passes by
//! a rule that each step keeps.
#![tactic(auto)]

mod doing;
mod ending;
mod job;
mod passes;
mod rules;
mod told;
pub mod values;
mod views;
mod work;

pub use ending::Ending;
pub use job::ActorJob;
pub use passes::{ActorPass, CallerPass, CallerPasses, Finished, Full, Made, Pipes, TakerPass};
pub use told::Told;
pub use work::Worked;

//! Why a schedule is refused.

use thiserror::Error;

/// The first line that is outside the grammar of schedules, or past a limit.
#[derive(Clone, Copy, Debug, PartialEq, Eq, Error)]
#[error("not a schedule")]
pub struct BadSchedule {
    /// The number of the line, from 1.
    pub number: u64,
}

/// Why a schedule isn't read or run.
#[derive(Clone, Copy, Debug, PartialEq, Eq, Error)]
pub enum ScheduleFault {
    /// This line is bad.
    #[error("not a schedule")]
    Bad(BadSchedule),
    /// No memory was left.
    #[error("out of memory")]
    OutOfMemory,
}

impl From<zre_values::OutOfMemory> for ScheduleFault {
    ghost use Rattle.std.specs.Prelude.{◌≡◌};
    ghost use Rattle.zre_net.specs.declared.fault.ScheduleFault.TheVariants.{OutOfMemory};

    ghost from_gives = { λ _ e. e ≡ OutOfMemory };

    fn from(_: zre_values::OutOfMemory) -> Self {
        ScheduleFault::OutOfMemory
    }
}

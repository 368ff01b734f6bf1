ghost use Rattle.std.specs.Prelude.{◌≡◌, ◌≤◌, IfOk};

use crate::network_fault::{NetworkFault, SystemPart, failed};
use std::rt::Clock;
use std::time::Duration;

/// The milliseconds since the first reading.
#[derive(Drop)]
pub(crate) struct Stopwatch {
    begun: Option<Duration>,
    last: u64,
}

impl Stopwatch {
    pub(crate) fn new() -> Self
        ensures { result.last ≡ 0 }
    {
        Stopwatch {
            begun: None,
            last: 0,
        }
    }

    /// A reading, which is never below an earlier one. It fails where the clock can't be read.
    pub(crate) fn read<R: Clock>(&mut self, rt: &R) -> Result<u64, NetworkFault>
        ensures now { IfOk result (λ at. at ≡ self.new.last) }
        ensures later { self.old.last ≤ self.new.last }
    {
        let reading = match rt.monotonic() {
            Ok(reading) => reading,
            Err(error) => return Err(failed(SystemPart::Clock, error)),
        };
        let begun = *self.begun.get_or_insert(reading);
        let passed = reading.saturating_sub(begun).as_millis();
        self.last = self.last.max(u64::try_from(passed).unwrap_or(u64::MAX));
        Ok(self.last)
    }
}

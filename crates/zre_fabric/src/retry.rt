//! When a link that couldn't be made is tried again. The readings are in milliseconds.

ghost use Rattle.std.specs.Prelude.{◌≡◌, ◌-◌, ◌+◌, nat_le};
ghost use Rattle.zre_outside.specs.Causes.{raised};
ghost use Rattle.zre_fabric.specs.Retries.{whole_delay, delay_of, latest};

/// A link is tried for so many milliseconds.
const PATIENCE: u64 = 30_000;

/// The delay is doubled so often.
const DOUBLINGS: u64 = 5;

/// The delay before the first try that follows a failed one.
const FIRST_DELAY: u64 = 100;

/// The longest delay.
const LONGEST_DELAY: u64 = 2000;

/// How many milliseconds to wait after so many tries but the first: 100, doubling to 2,000. By chance, which is any
/// number, up to a quarter less, so that two nodes which try each other don't go on in step.
pub(crate) fn delay(tries: u64, chance: u64) -> u64
    ensures { result ≡ delay_of tries chance }
{
    let whole = longest_delay(tries);
    whole - chance % (whole / 4 + 1)
}

// The delay where chance takes nothing off.
fn longest_delay(tries: u64) -> u64
    ensures { result ≡ whole_delay tries }
{
    if tries < DOUBLINGS {
        FIRST_DELAY << tries
    } else {
        LONGEST_DELAY
    }
}

/// The tries to make one link.
#[derive(Drop)]
pub(crate) struct Retry {
    begun: u64,
    tries: u64,
}

impl Retry {
    pub(crate) fn new(at: u64) -> Self
        ensures begun { result.begun ≡ at }
        ensures tries { result.tries ≡ 0 }
    {
        Retry {
            begun: at,
            tries: 0,
        }
    }

    /// Whether 30 seconds have passed since the first try.
    pub(crate) fn is_over(&self, at: u64) -> bool
        ensures { result ≡ nat_le 30000 (at - self.now.begun) }
    {
        at.saturating_sub(self.begun) >= PATIENCE
    }

    /// A try failed. The result is the reading at which the next one is due.
    pub(crate) fn failed(&mut self, at: u64, chance: u64) -> u64
        ensures due { result ≡ latest (at + delay_of self.old.tries chance) }
        ensures tries { self.new.tries ≡ raised self.old.tries }
        ensures begun { self.new.begun ≡ self.old.begun }
    {
        let due = at.saturating_add(delay(self.tries, chance));
        self.tries = self.tries.saturating_add(1);
        due
    }
}

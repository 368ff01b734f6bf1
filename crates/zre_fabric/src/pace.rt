//! When the next Tick and the next look are due.

ghost use Rattle.std.specs.Prelude.{◌≡◌, ◌≤◌, ◌<◌, ◌^◌, ◌-◌, ◌+◌, max, nat_le, if◌then◌else◌};
ghost use Rattle.std.specs.Duration.{as_nanos};
ghost use Rattle.zre_fabric.specs.Retries.{latest};
ghost use Rattle.zre_fabric.specs.Paces.{tick_after, wait_of};

use std::time::Duration;

/// A look comes after so many milliseconds at most, where nothing else does.
const LOOK_MILLIS: u64 = 20;

/// The moments are readings in milliseconds.
#[derive(Drop)]
pub(crate) struct Pace {
    interval: u64,
    tick_at: u64,
    look_at: u64,
    ghost positive: { 1 ≤ interval },
}

impl Pace {
    /// The first Tick is due at once. An interval of 0 is read as 1, so that Ticks leave room for other entries.
    pub(crate) fn new(interval: u64, at: u64) -> Self
        ensures interval { result.interval ≡ max interval 1 }
        ensures tick { result.tick_at ≡ at }
        ensures look { result.look_at ≡ latest (at + 20) }
    {
        Pace {
            interval: interval.max(1),
            tick_at: at,
            look_at: at.saturating_add(LOOK_MILLIS),
        }
    }

    /// Whether a Tick is due. It is then given, and the next one is due an interval later: those that were missed
    /// aren't made up for.
    pub(crate) fn tick(&mut self, at: u64) -> bool
        // When it is due.
        ensures due { result ≡ nat_le self.old.tick_at at }
        ensures tick { self.new.tick_at
            ≡ (if result then tick_after self.old.interval self.old.tick_at at else self.old.tick_at) }
        // The next one.
        ensures next { at < 2 ^ 64 - 1 → at < self.new.tick_at }
        ensures unchanged { (self.new.interval ≡ self.old.interval) × (self.new.look_at ≡ self.old.look_at) }
    {
        if at < self.tick_at {
            return false;
        }
        let next = self.tick_at.saturating_add(self.interval);
        self.tick_at = if next > at {
            next
        } else {
            at.saturating_add(self.interval)
        };
        true
    }

    /// A look was given. The next one is due 20 milliseconds later.
    pub(crate) fn gave_look(&mut self, at: u64)
        ensures look { self.new.look_at ≡ latest (at + 20) }
        ensures unchanged { (self.new.interval ≡ self.old.interval) × (self.new.tick_at ≡ self.old.tick_at) }
    {
        self.look_at = at.saturating_add(LOOK_MILLIS);
    }

    /// There may be a command: the next look is due at once.
    pub(crate) fn look_now(&mut self, at: u64)
        ensures look { self.new.look_at ≡ at }
        ensures unchanged { (self.new.interval ≡ self.old.interval) × (self.new.tick_at ≡ self.old.tick_at) }
    {
        self.look_at = at;
    }

    /// How long to wait for entries.
    pub(crate) fn wait(&self, at: u64) -> Duration
        ensures time { as_nanos result ≡ wait_of self.now.look_at self.now.tick_at at }
        ensures short { as_nanos result ≤ 20_000_000 }
    {
        let due = self.look_at.min(self.tick_at);
        Duration::from_millis(due.saturating_sub(at).min(LOOK_MILLIS))
    }
}

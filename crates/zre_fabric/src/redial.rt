//! How soon after a link was closed its endpoint is dialed again. The readings are in milliseconds.

ghost use Rattle.std.specs.Prelude.{◌≡◌, ◌+◌};
ghost use Rattle.zre_fabric.specs.Retries.{delay_of, latest, closings_after, is_again};

use crate::retry::delay;

/// Closings that are further apart than this don't count together.
const CALM: u64 = 10_000;

/// Of so many closings those from one place on, the first being 0, and before another are to have connections wait.
const ROUND: u64 = 8;

const FROM: u64 = 2;

const TO: u64 = 6;

/// What is known of the links to an endpoint that were closed.
#[derive(Clone, Copy, Default)]
pub(crate) struct Redial {
    // The last closing, and from when on the endpoint may be dialed again. Before the first one both are 0.
    closed: u64,
    due: u64,
    // The closings before the last one that it counts with.
    closings: u64,
}

impl Redial {
    /// A link was closed. The first closing lets the next dial wait for some 100 milliseconds, and each that follows
    /// within 10 seconds for twice as long, up to 2 seconds.
    pub(crate) fn closed(&mut self, at: u64, chance: u64)
        ensures closings { self.new.closings ≡ closings_after self.old.due self.old.closed self.old.closings at }
        ensures due { self.new.due ≡ latest (at + delay_of self.new.closings chance) }
        ensures closed { self.new.closed ≡ at }
    {
        let counts = self.due > 0 && at.saturating_sub(self.closed) < CALM;
        self.closings = if counts {
            self.closings.saturating_add(1)
        } else {
            0
        };
        self.closed = at;
        self.due = at.saturating_add(delay(self.closings, chance));
    }

    /// Whether the last closing is to have the connections of the address wait: of each eight that count together the
    /// third to the sixth are. So where waiting doesn't help, there is as much time without it.
    pub(crate) fn is_again(&self) -> bool
        ensures { result ≡ is_again self.now.closings }
    {
        let place = self.closings % ROUND;
        place >= FROM && place < TO
    }

    /// From when on the endpoint may be dialed.
    pub(crate) fn due(&self) -> u64
        ensures { result ≡ self.now.due }
    {
        self.due
    }
}

//! How long the connections of an address wait before they are given as opened. The readings are in milliseconds.

ghost use Rattle.std.specs.Prelude.{◌≡◌, ◌+◌, ◌-◌, ◌&&◌, min, nat_lt};
ghost use Rattle.zre_fabric.specs.Retries.{latest};

/// A connection waits so long at most.
const PATIENCE: u64 = 3000;

/// It waits so long after a link to its address came to stand, in which what goes out on that link comes first.
const HEAD_START: u64 = 200;

/// Up to when the connections of an address wait.
#[derive(Clone, Copy, Default)]
pub(crate) struct Hold {
    until: u64,
}

impl Hold {
    /// Links to the address were closed again and again.
    pub(crate) fn begin(&mut self, at: u64)
        ensures { self.new.until ≡ latest (at + 3000) }
    {
        self.until = at.saturating_add(PATIENCE);
    }

    /// A link to the address came to stand.
    pub(crate) fn stood(&mut self, at: u64)
        ensures { self.new.until ≡ min self.old.until (latest (at + 200)) }
    {
        self.until = self.until.min(at.saturating_add(HEAD_START));
    }

    /// Whether a connection that came at one reading waits at another.
    pub(crate) fn holds(&self, came: u64, at: u64) -> bool
        ensures { result ≡ nat_lt at self.now.until && nat_lt (at - came) 3000 }
    {
        at < self.until && at.saturating_sub(came) < PATIENCE
    }
}

//! How often something may happen: so often at once, and then at a steady rate.

ghost use Rattle.std.specs.Prelude.{◌≡◌, ◌+◌, ◌-◌, nat_le, if◌then◌else◌};
ghost use Rattle.zre_fabric.specs.Retries.{latest};

/// A rate. Readings and lengths are in milliseconds.
#[derive(Clone, Copy)]
pub(crate) struct Rate {
    /// From one happening to the next at the steady rate.
    pub(crate) apart: u64,
    /// How far the happenings may be ahead of the steady rate: a burst of n has `(n - 1) * apart`.
    pub(crate) ahead: u64,
}

/// What happened, as the reading up to which the steady rate is spent.
#[derive(Clone, Copy, Default)]
pub(crate) struct Bucket {
    spent: u64,
}

impl Bucket {
    /// Whether it may happen once more now. It is then counted.
    pub(crate) fn take(&mut self, rate: Rate, at: u64) -> bool
        ensures may { result ≡ nat_le (self.old.spent - at) rate.ahead }
        ensures spent { self.new.spent
            ≡ (if result then latest (at + (self.old.spent - at) + rate.apart) else self.old.spent) }
    {
        let debt = self.spent.saturating_sub(at);
        if debt > rate.ahead {
            return false;
        }
        self.spent = at.saturating_add(debt).saturating_add(rate.apart);
        true
    }
}

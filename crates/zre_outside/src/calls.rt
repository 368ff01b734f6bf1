ghost use Rattle.std.specs.Prelude.{◌≡◌};
ghost use Rattle.zre_outside.specs.Calls.{Calls as Counted, no_calls, called, next_is_listed};

use std::marker::Model;
use zre_values::take_apart;

/// The calls of a method. Those with the numbers of a list fail, counted from 1.
#[derive(Debug)]
pub(crate) struct Calls {
    fails: Vec<u64>,
    made: u64,
}

impl Drop for Calls {
    fn drop(self) {
        take_apart!(self, Calls: fails, made);
    }
}

impl Model for Calls {
    ghost Value = { Counted };

    ghost view = { λ c. record { fails = c.fails.items; made = c.made } };
}

impl Calls {
    pub(crate) fn new(fails: Vec<u64>) -> Self
        ensures { result ≡ no_calls fails.items }
    {
        Calls { fails, made: 0 }
    }

    /// Counts one more call, and tells whether it fails.
    pub(crate) fn next_fails(&mut self) -> bool
        ensures listed { result ≡ next_is_listed self.old }
        ensures counted { self.new ≡ called self.old }
    {
        self.made = self.made.saturating_add(1);
        self.fails.contains(&self.made)
    }
}

//! Which of two queues has the next turn.

ghost use Rattle.std.specs.Prelude.{◌≡◌, ◌&&◌, ◌||◌, not, nat_lt, if◌then◌else◌};
ghost use Rattle.zre_outside.specs.Causes.{raised};

/// After so many turns of the first queue in a row, the second has one.
const FIRST_IN_A_ROW: u64 = 4;

/// How many turns in a row the first queue had while the second waited.
#[derive(Default, Drop)]
pub(crate) struct Turns {
    row: u64,
}

impl Turns {
    /// Whether the next turn is the first queue's, which is told whether each queue has something.
    pub(crate) fn is_firsts(&mut self, has_first: bool, has_second: bool) -> bool
        ensures turn { result ≡ has_first && (not has_second || nat_lt self.old.row 4) }
        ensures row { self.new.row ≡ (if result && has_second then raised self.old.row else 0) }
    {
        let is_firsts = has_first && (!has_second || self.row < FIRST_IN_A_ROW);
        self.row = if is_firsts && has_second {
            self.row.saturating_add(1)
        } else {
            0
        };
        is_firsts
    }
}

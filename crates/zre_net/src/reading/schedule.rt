ghost use Rattle.std.specs.Prelude.{◌≡◌, None, Some, IfOk, IfErr, OnOk};
ghost use Rattle.zre_net.specs.Reading.{bad_line as bad_line_of, lines_in, moves_of};
ghost use Rattle.zre_net.specs.Answer.{Refuses};

use crate::fault::{BadSchedule, ScheduleFault};
use crate::reading::lines::bad_line;
use crate::reading::reader::MoveReader;
use std::alloc::Global;
use std::marker::Model;
use zre_values::Octets;

/// A schedule: lines that were read. It is seen as the list of them, without their line feeds.
#[derive(Drop)]
pub struct Schedule {
    alloc: Global,
    text: Octets,
    ghost good: { bad_line_of text ≡ None },
}

impl Model for Schedule {
    ghost use Rattle.std.specs.Prelude.{ℕ, List};
    ghost use Rattle.zre_net.specs.Reading.{lines_in};

    ghost Value = { List (List ℕ) };

    ghost view = { λ schedule. lines_in schedule.text };
}

impl Schedule {
    /// The moves of its lines, to be run one by one.
    pub fn moves(&self) -> MoveReader<'_>
        ensures { result ≡ moves_of self.now }
    {
        MoveReader::new(self.alloc, self.text.as_slice())
    }
}

/// Tests a text where it lies, as `read_schedule` does.
pub fn check_schedule(alloc: Global, text: &[u8]) -> Result<(), ScheduleFault>
    ensures good { OnOk result (bad_line_of text.now ≡ None) }
    ensures refused { IfErr result (λ fault. Refuses fault (λ number. bad_line_of text.now ≡ Some number)) }
{
    match bad_line(alloc, text)? {
        Some(number) => Err(ScheduleFault::Bad(BadSchedule { number })),
        None => Ok(()),
    }
}

/// Reads a schedule. It refuses the first line whose head, form or fields aren't those of a schedule, that has no line
/// feed, or that lies past a limit: 262,144 lines, 16,777,216 octets, and 4,194,304 octets of a line before its line
/// feed.
pub fn read_schedule(alloc: Global, text: &[u8]) -> Result<Schedule, ScheduleFault>
    ensures read { IfOk result (λ schedule. (bad_line_of text.now ≡ None) × (schedule ≡ lines_in text.now)) }
    ensures refused { IfErr result (λ fault. Refuses fault (λ number. bad_line_of text.now ≡ Some number)) }
{
    check_schedule(alloc, text)?;
    Ok(Schedule {
        alloc,
        text: Octets::copy(alloc, text)?,
    })
}

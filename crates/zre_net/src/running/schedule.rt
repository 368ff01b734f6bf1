ghost use Rattle.std.specs.Prelude.{◌≡◌, ◌++◌, None, Some, IfOk, IfErr, OnOk};
ghost use Rattle.zre_net.specs.Agreement.{IsAgreed};
ghost use Rattle.zre_net.specs.Answer.{Refuses, bad_move};
ghost use Rattle.zre_net.specs.Reading.{moves_of};
ghost use Rattle.zre_net.specs.Said.{said as said_by};

use crate::fault::{BadSchedule, ScheduleFault};
use crate::reading::{MoveReader, Schedule};
use crate::running::network::Network;
use crate::running::said::SaidEvents;
use std::alloc::Global;
use std::mem;
use zre_values::OutOfMemory;

// Appends events.
fn append(said: &mut SaidEvents, told: SaidEvents) -> Result<(), OutOfMemory>
    ensures { OnOk result (said.new ≡ said.old ++ told) }
{
    for one in told.into_vec() {
        said.push(one)?;
    }
    Ok(())
}

// Runs moves.
fn run(alloc: Global, mut moves: MoveReader<'_>) -> Result<SaidEvents, ScheduleFault>
    ensures told { IfOk result (λ said. (bad_move moves.entry ≡ None) × (said ≡ said_by moves.entry)) }
    ensures refused { IfErr result (λ fault. Refuses fault (λ number. bad_move moves.entry ≡ Some number)) }
{
    let mut network = Network::new(alloc)?;
    let mut said = SaidEvents::new(alloc);
    let mut told = SaidEvents::new(alloc);
    let mut line: u64 = 2;
    'lines: while let Some(one) = moves.next()? {
        if !network.take(one, &mut told)? {
            return Err(ScheduleFault::Bad(BadSchedule { number: line }));
        }
        append(&mut said, mem::replace(&mut told, SaidEvents::new(alloc)))?;
        let Some(next) = line.checked_add(1) else {
            return Err(ScheduleFault::OutOfMemory);
        };
        line = next;
    }
    Ok(said)
}

/// Runs a schedule: what its nodes tell. It refuses the first move that is outside the grammar. Where it does not, its
/// nodes agree: over losses, repeats, reorderings, crashes and restarts within the window, what one shows of an entered
/// other is what that one was as it queued the last message that was processed.
pub fn run_schedule(alloc: Global, schedule: &Schedule) -> Result<SaidEvents, ScheduleFault>
    ensures told { IfOk result (λ said. (bad_move (moves_of schedule.now) ≡ None)
        × (said ≡ said_by (moves_of schedule.now))) }
    ensures refused { IfErr result (λ fault. Refuses fault (λ number. bad_move (moves_of schedule.now) ≡ Some number)) }
    ensures agreed { OnOk result (IsAgreed (moves_of schedule.now)) }
{
    run(alloc, schedule.moves())
}

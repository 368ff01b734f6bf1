ghost use Rattle.std.specs.Prelude.{◌≡◌, List, [], true, false, take, IfOk};
ghost use Rattle.zre_records.specs.simulate.Simulator.{Fed};

use crate::simulate::answer::write_answer;
use std::alloc::Global;
use zre_commands::pump::{Going, Machine};
use zre_net::limits::OCTETS;
use zre_outside::{NextFault, Sink};
use zre_values::{Octets, OutOfMemory};

/// The machine of `simulate`. A schedule is read whole before anything is written, so it keeps the text: as many octets
/// as a schedule may have, and one.
#[derive(Drop)]
pub struct Simulator {
    alloc: Global,
    kept: Octets,
}

impl Simulator {
    ghost use Rattle.zre_records.specs.simulate.Simulate.{simulate};

    /// Expects a schedule, of which no octet has come yet.
    pub fn new(alloc: Global) -> Self
        ensures fed { Fed result [] }
        ensures going { simulate.is_stopped [] ≡ false }
    {
        Simulator {
            alloc,
            kept: Octets::new(alloc),
        }
    }
}

impl Machine for Simulator {
    ghost use Rattle.zre_records.specs.simulate.Simulate.{simulate};
    ghost use Rattle.zre_records.specs.simulate.Simulator.{Fed};

    ghost fed = { Fed };

    ghost says = { λ _. simulate };

    fn begin(&self, _out: &mut Octets) -> Result<(), OutOfMemory> {
        Ok(())
    }

    fn feed(&mut self, piece: &[u8], _out: &mut Octets) -> Result<Going, OutOfMemory> {
        let room = (OCTETS + 1).saturating_sub(self.kept.len());
        let (front, _) = piece.split_at(room.min(piece.len()));
        self.kept.append(front)?;
        Ok(Going::On)
    }

    fn finish<O: Sink>(&self, _: u64, text: &mut Octets, out: &mut O) -> Result<bool, NextFault> {
        write_answer(self.alloc, self.kept.as_slice(), text, out)
    }
}

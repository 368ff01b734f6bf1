ghost use Rattle.std.specs.Prelude.{◌≡◌, [], false};
ghost use Rattle.zre_records.specs.table.Tabulator.{Fed, group_of};

use crate::replay::headed::Headed;
use crate::table::gathering::gather_if_any;
use std::alloc::Global;
use zre_commands::pump::{Going, Machine};
use zre_node::Node;
use zre_outside::{NextFault, Sink};
use zre_shared::Replica;
use zre_values::{Octets, OutOfMemory, PeerId};

/// The machine of `table`: a node with the settings that the head of a capture of format 2 says, and the replica that
/// takes what its entries bring to the table of a group. It keeps the octets of an unfinished line, a list that is used
/// again for the entries of each piece, and the table. The journal isn't kept.
#[derive(Drop)]
pub struct Tabulator {
    alloc: Global,
    group: Octets,
    headed: Headed<Node>,
    // It makes no writes, so whose it is doesn't matter.
    replica: Replica,
}

impl Tabulator {
    ghost use Rattle.zre_records.specs.table.Table.{table};

    /// Expects the head of a capture of format 2, of which no octet has come yet.
    pub fn new(alloc: Global, group: Octets) -> Tabulator
        ensures fed { Fed result [] }
        ensures group { group_of result ≡ group }
        ensures going { (table group).is_stopped [] ≡ false }
    {
        Tabulator {
            alloc,
            group,
            headed: Headed::new(alloc),
            replica: Replica::new(alloc, PeerId([0; 16])),
        }
    }
}

impl Machine for Tabulator {
    ghost use Rattle.zre_records.specs.table.Table.{table};

    ghost fed = { Fed };

    ghost says = { λ t. table (group_of t) };

    fn begin(&self, _out: &mut Octets) -> Result<(), OutOfMemory> {
        Ok(())
    }

    fn feed(&mut self, piece: &[u8], _out: &mut Octets) -> Result<Going, OutOfMemory> {
        let entries = self.headed.read(piece)?;
        let emptied = gather_if_any(
            self.alloc,
            &mut self.headed.made,
            &mut self.replica,
            self.group.as_slice(),
            entries,
        )?;
        self.headed.pieces.give_back(emptied);
        Ok(self.headed.pieces.going())
    }

    fn finish<O: Sink>(&self, _: u64, text: &mut Octets, out: &mut O) -> Result<bool, NextFault> {
        if self.headed.pieces.finish(text)? {
            return Ok(true);
        }
        self.replica.write_lines(text, out)?;
        Ok(false)
    }
}

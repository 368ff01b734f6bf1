ghost use Rattle.std.specs.Prelude.{◌≡◌, [], false};

use crate::replay::headed::Headed;
use crate::replay::lives::take_if_any;
use std::alloc::Global;
use zre_commands::pump::{Going, Machine};
use zre_node::Node;
use zre_outside::{NextFault, Sink};
use zre_values::{Octets, OutOfMemory};

/// The machine of `replay` without words: a node with the settings that the head of a capture of format 2 says, to
/// which its entries are told as they come. It keeps the octets of an unfinished line, and a list that is used again
/// for the entries of each piece. The journal isn't kept.
#[derive(Drop)]
pub struct HeadReplayer {
    headed: Headed<Node>,
}

impl HeadReplayer {
    ghost use Rattle.zre_records.specs.replay.HeadReplayer.{Fed};
    ghost use Rattle.zre_records.specs.replay.Replay.{told_replay};

    /// Expects the head of a capture of format 2, of which no octet has come yet.
    pub fn new(alloc: Global) -> Self
        ensures fed { Fed result [] }
        ensures going { told_replay.is_stopped [] ≡ false }
    {
        HeadReplayer {
            headed: Headed::new(alloc),
        }
    }
}

impl Machine for HeadReplayer {
    ghost use Rattle.zre_records.specs.replay.HeadReplayer.{Fed};
    ghost use Rattle.zre_records.specs.replay.Replay.{told_replay};

    ghost fed = { Fed };

    ghost says = { λ _. told_replay };

    fn begin(&self, _out: &mut Octets) -> Result<(), OutOfMemory> {
        Ok(())
    }

    #[tactic(auto, using(crate::proofs::replay::HeadReplayerFedPiece::text_grows))]
    fn feed(&mut self, piece: &[u8], out: &mut Octets) -> Result<Going, OutOfMemory> {
        let entries = self.headed.read(piece)?;
        let emptied = take_if_any(&mut self.headed.made, entries, out)?;
        self.headed.pieces.give_back(emptied);
        Ok(self.headed.pieces.going())
    }

    fn finish<O: Sink>(&self, _: u64, text: &mut Octets, _: &mut O) -> Result<bool, NextFault> {
        Ok(self.headed.pieces.finish(text)?)
    }
}

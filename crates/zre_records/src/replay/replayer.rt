ghost use Rattle.std.specs.Prelude.{◌≡◌, [], true, false, IfOk};
ghost use Rattle.zre_values.specs.Settings.{is_valid};

use crate::replay::reading::Pieces;
use crate::replay::taking::take_entries;
use std::alloc::Global;
use zre_capture::CaptureReader;
use zre_commands::pump::{Going, Machine};
use zre_journal::Config;
use zre_node::Node;
use zre_outside::{NextFault, Sink};
use zre_values::{Octets, OutOfMemory};

/// The machine of `replay`: a node to which the entries of a capture are told as they come. It keeps the octets of an
/// unfinished line, and a list that is used again for the entries of each piece. The journal isn't kept.
#[derive(Drop)]
pub struct Replayer {
    // The node has its own. What the machine says of octets rests on these, which OutOfMemory leaves as they are.
    config: Config,
    pieces: Pieces,
    node: Node,
}

impl Replayer {
    ghost use Rattle.zre_records.specs.replay.Replay.{replay};
    ghost use Rattle.zre_records.specs.replay.Replayer.{Fed, config_of};

    /// Expects the head of a capture of a node with these settings, of which no octet has come yet.
    #[tactic(auto, using(crate::proofs::replay::CaptureInPieces::nothing_stopped))]
    pub fn new(alloc: Global, config: Config) -> Result<Self, OutOfMemory>
        requires { is_valid config ≡ true }
        ensures fed { IfOk result (λ r. Fed r []) }
        ensures config { IfOk result (λ r. config_of r ≡ config) }
        // No octets have no text, and may go on.
        ensures going { (replay config).is_stopped [] ≡ false }
    {
        let node = Node::new(alloc, Config::copy(alloc, &config)?)?;
        let reader = CaptureReader::new(alloc);
        let pieces = Pieces::new(alloc, reader);
        Ok(Replayer {
            config,
            pieces,
            node,
        })
    }
}

impl Machine for Replayer {
    ghost use Rattle.zre_records.specs.replay.Replay.{replay};
    ghost use Rattle.zre_records.specs.replay.Replayer.{Fed, config_of};

    ghost fed = { Fed };

    ghost says = { λ r. replay (config_of r) };

    fn begin(&self, _out: &mut Octets) -> Result<(), OutOfMemory> {
        Ok(())
    }

    #[tactic(auto, using(crate::proofs::replay::ReplayerFedPiece::text_grows))]
    fn feed(&mut self, piece: &[u8], out: &mut Octets) -> Result<Going, OutOfMemory> {
        let entries = self.pieces.read(piece)?;
        let emptied = take_entries(&mut self.node, entries, out)?;
        self.pieces.give_back(emptied);
        Ok(self.pieces.going())
    }

    fn finish<O: Sink>(&self, _: u64, text: &mut Octets, _: &mut O) -> Result<bool, NextFault> {
        Ok(self.pieces.finish(text)?)
    }
}

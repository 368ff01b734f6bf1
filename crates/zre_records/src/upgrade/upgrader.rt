ghost use Rattle.std.specs.Prelude.{◌≡◌, [], false};
ghost use Rattle.zre_records.specs.upgrade.Upgrade.{upgrade};
ghost use Rattle.zre_records.specs.upgrade.Upgrader.{Fed, settings_of};

use crate::replay::reading::Pieces;
use crate::upgrade::writing::push_entries;
use std::alloc::Global;
use zre_capture::{CaptureReader, Settings, push_head2};
use zre_commands::pump::{Going, Machine};
use zre_outside::{NextFault, Sink};
use zre_values::{Octets, OutOfMemory};

/// The machine of `upgrade`: the entries of a capture of format 1 are written as they come, in format 2, after a head
/// with the settings that it is handed. It keeps the octets of an unfinished line, and a list that is used again for
/// the entries of each piece.
#[derive(Drop)]
pub struct Upgrader {
    settings: Settings,
    pieces: Pieces,
    // The reading of the entry that was written last.
    before: u64,
}

impl Upgrader {
    /// Expects the head of a capture of format 1 of a node with these settings, of which no octet has come yet.
    pub fn new(alloc: Global, settings: Settings) -> Self
        ensures fed { Fed result [] }
        ensures settings { settings_of result ≡ settings }
        ensures going { (upgrade settings).is_stopped [] ≡ false }
    {
        let reader = CaptureReader::new(alloc);
        let pieces = Pieces::new(alloc, reader);
        Upgrader {
            settings,
            pieces,
            before: 0,
        }
    }
}

impl Machine for Upgrader {
    ghost fed = { λ u o. Fed u o };

    ghost says = { λ u. upgrade (settings_of u) };

    fn begin(&self, out: &mut Octets) -> Result<(), OutOfMemory> {
        push_head2(out, &self.settings)
    }

    #[tactic(auto, using(crate::proofs::upgrade::UpgraderFedPiece::text_grows))]
    fn feed(&mut self, piece: &[u8], out: &mut Octets) -> Result<Going, OutOfMemory> {
        let entries = self.pieces.read(piece)?;
        self.before = push_entries(out, self.before, entries.as_slice())?;
        self.pieces.give_back(entries);
        Ok(self.pieces.going())
    }

    fn finish<O: Sink>(&self, _: u64, text: &mut Octets, _: &mut O) -> Result<bool, NextFault> {
        Ok(self.pieces.finish(text)?)
    }
}

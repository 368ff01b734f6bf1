//! A capture of format 2 that is read in pieces, and what is made of the settings that its head says.

ghost use Rattle.std.specs.Prelude.{◌≡◌, ℕ, List, [], true, false, is_some, Option, option_map, IfOk, IfSome, OnOk};
ghost use Rattle.zre_capture.specs.Journal.{bad};
ghost use Rattle.zre_capture.specs.declared.format.Format.TheVariants.{Second};
ghost use Rattle.zre_values.specs.declared.settings.Settings.{Settings as SettingsValue};
ghost use Rattle.zre_outside.specs.declared.entry.Entry.{Entry as EntryValue};
ghost use Rattle.zre_values.specs.Settings.{is_valid};
ghost use Rattle.zre_records.specs.replay.Headed.{Follows, HasRead};
ghost use Rattle.zre_records.specs.replay.Lives.{Made, Tells, due};

use crate::replay::lives::LivedNode;
use crate::replay::reading::Pieces;
use std::alloc::Global;
use zre_capture::{CaptureReader, Settings};
use zre_journal::Config;
use zre_outside::Entries;
use zre_values::OutOfMemory;

/// How far a capture is read, and the node with the settings that its head says, or the watch of that node.
#[derive(Drop)]
pub(crate) struct Headed<N> {
    alloc: Global,
    pub pieces: Pieces,
    /// None until the head is whole, and where it is bad.
    pub made: Option<N>,
}

// The settings of what isn't made yet, where they are told and valid.
fn config_due(
    alloc: Global,
    is_made: bool,
    told: Option<&Settings>,
) -> Result<Option<Config>, OutOfMemory>
    ensures due { IfOk result (λ config. config ≡ due is_made (option_map (λ s. s.now) told.entry)) }
    ensures valid { IfOk result (λ config. IfSome config (λ g. is_valid g ≡ true)) }
{
    if is_made {
        return Ok(None);
    }
    let Some(settings) = told else {
        return Ok(None);
    };
    if !settings.valid() {
        return Ok(None);
    }
    Ok(Some(Config::copy(alloc, settings)?))
}

// Makes it once its settings are told.
fn make<N: LivedNode>(
    alloc: Global,
    made: &mut Option<N>,
    told: Option<&Settings>,
) -> Result<(), OutOfMemory>
    ensures { (before : Option SettingsValue) (J : List EntryValue) → Made N.stands before J made.old
        → Tells before J (option_map (λ s. s.now) told.entry)
        → OnOk result (Made N.stands (option_map (λ s. s.now) told.entry) J made.new) }
{
    match config_due(alloc, made.is_some(), told)? {
        Some(config) => {
            let new = N::begin(alloc, config)?;
            *made = Some(new);
            Ok(())
        }
        None => Ok(()),
    }
}

impl<N: LivedNode> Headed<N> {
    /// Expects the head, of which no octet has come yet.
    pub fn new(alloc: Global) -> Headed<N>
        ensures { Follows N.stands result [] }
    {
        let reader = CaptureReader::second(alloc);
        Headed {
            alloc,
            pieces: Pieces::new(alloc, reader),
            made: None,
        }
    }

    /// Reads a piece, and makes what lives once its settings are told. Gives the entries of the lines that are whole by
    /// it, which it has yet to take.
    pub fn read(&mut self, piece: &[u8]) -> Result<Entries, OutOfMemory>
        ensures { (o : List ℕ) → Follows N.stands self.old o → is_some (bad Second o) ≡ false
            → IfOk result (λ entries. HasRead N.stands o piece.now entries self.new) }
    {
        let entries = self.pieces.read(piece)?;
        make(self.alloc, &mut self.made, self.pieces.settings())?;
        Ok(entries)
    }
}

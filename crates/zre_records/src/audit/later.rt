//! The second of two captures.

ghost use Rattle.std.specs.Prelude.{◌≡◌, ◌++◌, ℕ, List, false, is_some, Option, option_map, IfOk, OnOk};
ghost use Rattle.zre_values.specs.declared.settings.Settings.{Settings as SettingsValue};
ghost use Rattle.zre_records.specs.audit.Audit.{later_bad, later_bad_at_end};
ghost use Rattle.zre_records.specs.audit.Cut.{mark};
ghost use Rattle.zre_records.specs.audit.Later.{IsLater};

use crate::audit::again::{Again, is_same, see, unseen};
use crate::audit::seam::MARK;
use crate::audit::watched::take;
use crate::replay::headed::Headed;
use std::alloc::Global;
use zre_audit::Watch;
use zre_capture::{BadCapture, Settings};
use zre_values::{OutOfMemory, take_apart};

/// The second capture as it is read, and whether it is of the node of the first.
pub(crate) struct Later {
    pub capture: Headed<Watch>,
    again: Option<Again>,
}

impl Drop for Later {
    fn drop(self) {
        take_apart!(self, Later: capture, again);
    }
}

impl Later {
    /// The capture whose first octets are the mark, after one with these settings.
    pub fn new(alloc: Global, told: Option<&Settings>) -> Result<Later, OutOfMemory>
        ensures { IfOk result (IsLater (option_map (λ s. s.now) told.entry) mark) }
    {
        let mut later = Later {
            again: unseen(alloc, told)?,
            capture: Headed::new(alloc),
        };
        later.take(&MARK)?;
        Ok(later)
    }

    /// Reads a piece.
    pub fn take(&mut self, piece: &[u8]) -> Result<(), OutOfMemory>
        ensures { (told : Option SettingsValue) (o : List ℕ) → IsLater told o self.old
            → is_some (later_bad told o) ≡ false → OnOk result (IsLater told (o ++ piece.now) self.new) }
    {
        see(&mut self.again, piece)?;
        take(&mut self.capture, piece)
    }

    /// Whether it is bad, whatever follows.
    pub fn is_bad(&self) -> bool
        ensures { (told : Option SettingsValue) (o : List ℕ) → IsLater told o self.now
            → result ≡ is_some (later_bad told o) }
    {
        is_same(&self.again) || self.capture.pieces.is_bad()
    }

    /// Where it is bad, if nothing follows. Its lines are counted from 1.
    pub fn bad_at_end(&self) -> Result<Option<BadCapture>, OutOfMemory>
        ensures { (told : Option SettingsValue) (o : List ℕ) → IsLater told o self.now
            → IfOk result (λ bad. bad ≡ later_bad_at_end told o) }
    {
        if is_same(&self.again) {
            return Ok(Some(BadCapture {
                line: 1,
                column: 15,
            }));
        }
        self.capture.pieces.bad_at_end()
    }
}

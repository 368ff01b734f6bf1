//! Laws of captures. The functions do nothing: what they ensure is for proofs.

ghost use Rattle.std.specs.Prelude.{◌≡◌, ℕ, List, Some, All};
ghost use Rattle.zre_outside.specs.declared.entry.Entry.{Entry};
ghost use Rattle.zre_capture.specs.Heads.{head, AreSettings, IsShortHead};
ghost use Rattle.zre_capture.specs.Lines.{text, IsNumber, IsEntry, AreShort};
ghost use Rattle.zre_capture.specs.Reading.{entry_of};
ghost use Rattle.zre_capture.specs.Journal.{capture, journal, IsCaptureOf};
ghost use Rattle.zre_capture.specs.declared.format.Format.{Format};
ghost use Rattle.zre_capture.specs.declared.format.Format.TheVariants.{First, Second};
ghost use Rattle.zre_values.specs.declared.settings.Settings.{Settings};

use crate::head::HEAD;

/// A line that is written is read as its entry, after the same reading.
pub fn lines_are_read()
    ensures { (f : Format) (before : ℕ) (e : Entry) → IsNumber before → IsEntry e
        → entry_of f before (text f before e) ≡ Some e }
{}

/// The head and the lines of entries are read as the settings and the journal of these entries, where no line is too
/// long.
pub fn captures_are_read()
    ensures { (f : Format) (s : Settings) (es : List Entry) → AreSettings s → IsShortHead f s → All IsEntry es
        → AreShort f 0 es → IsCaptureOf f s es (capture f s es) }
{}

/// A line that is read as an entry is the one that this entry has.
pub fn lines_are_written()
    ensures { (f : Format) (before : ℕ) (t : List ℕ) (e : Entry) → entry_of f before t ≡ Some e
        → text f before e ≡ t }
{}

/// The head line of format 1 is the one that definitions speak of.
pub fn head_is_written()
    ensures { (s : Settings) → HEAD.now ≡ head First s }
{}

/// The journal of a capture of format 1 can be written in format 2, with a first reading of 0 before it: its entries
/// hold values of their types, and no line is too long there.
pub fn journals_are_upgraded()
    ensures values { (o : List ℕ) → All IsEntry (journal First o) }
    ensures short { (o : List ℕ) → AreShort Second 0 (journal First o) }
{}

/// The head line of valid settings isn't too long to be read.
pub fn heads_are_short()
    ensures { (f : Format) (s : Settings) → AreSettings s → IsShortHead f s }
{}

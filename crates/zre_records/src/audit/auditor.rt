ghost use Rattle.std.specs.Prelude.{◌≡◌, ◌++◌, ℕ, List, [], false, Option, None, option_map, is_some, if◌then◌else◌};
ghost use Rattle.std.specs.Prelude.{IfOk, OnOk};
ghost use Rattle.zre_outside.specs.declared.entry.Entry.{Entry};
ghost use Rattle.zre_capture.specs.Journal.{settings, bad, bad_at_end};
ghost use Rattle.zre_capture.specs.declared.format.Format.TheVariants.{Second};
ghost use Rattle.zre_values.specs.declared.settings.Settings.{Settings};
ghost use Rattle.zre_records.specs.audit.Audit.{audit, place, earlier, later, later_bad, judgement, moved};
ghost use Rattle.zre_records.specs.audit.Audit.{verdict as verdict_of};
ghost use Rattle.zre_records.specs.audit.Auditor.{Fed};
ghost use Rattle.zre_records.specs.audit.Seam.{is_whole};
ghost use Rattle.zre_records.specs.audit.Watched.{IsWatched};
ghost use Rattle.zre_commands.specs.pump.Meaning.{stops};

use crate::audit::later::Later;
use crate::audit::seam::Seam;
use crate::audit::watched::take;
use crate::replay::headed::Headed;
use crate::replay::reading::push_refusal;
use std::alloc::Global;
use zre_audit::{Watch, verdict};
use zre_capture::BadCapture;
use zre_commands::pump::{Going, Machine};
use zre_outside::{NextFault, Sink};
use zre_values::{Octets, OutOfMemory};

/// The machine of `audit`: two captures of format 2, one after the other, each read as it comes and told to the watch
/// of its node. It keeps the octets of an unfinished line, and what was said by both nodes. The journals aren't kept.
#[derive(Drop)]
pub struct Auditor {
    alloc: Global,
    seam: Seam,
    first: Headed<Watch>,
    // None until it has begun.
    second: Option<Later>,
}

// A place that is counted from the first of some lines before it.
fn move_by(bad: Option<BadCapture>, lines: u64) -> Result<Option<BadCapture>, OutOfMemory>
    ensures { IfOk result (λ found. found ≡ option_map (moved lines) bad) }
{
    match bad {
        Some(bad) => Ok(Some(BadCapture {
            line: bad.line.checked_add(lines).ok_or(OutOfMemory)?,
            column: bad.column,
        })),
        None => Ok(None),
    }
}

// Appends the line of what is judged of both.
fn push_judgement(
    first: &Option<Watch>,
    second: &Option<Watch>,
    out: &mut Octets,
) -> Result<(), OutOfMemory>
    ensures { (s t : Option Settings) (J K : List Entry) → IsWatched s J first.now → IsWatched t K second.now
        → OnOk result (out.new ≡ out.old ++ judgement s t J K) }
{
    let Some(first) = first else {
        return Ok(());
    };
    match second {
        Some(second) => verdict(first, second)?.push_line(out),
        None => Ok(()),
    }
}

impl Auditor {
    /// Expects the head of the first capture, of which no octet has come yet.
    pub fn new(alloc: Global) -> Auditor
        ensures fed { Fed result [] }
        ensures going { audit.is_stopped [] ≡ false }
    {
        Auditor {
            alloc,
            seam: Seam::new(),
            first: Headed::new(alloc),
            second: None,
        }
    }

    // Takes a piece in which the second capture may begin.
    fn seek(&mut self, piece: &[u8]) -> Result<(), OutOfMemory>
        ensures { (o : List ℕ) → Fed self.old o → self.old.second ≡ None → is_some (bad Second o) ≡ false
            → OnOk result (Fed self.new (o ++ piece.now)) }
    {
        match self.seam.find(piece)? {
            None => take(&mut self.first, piece),
            Some(place) => {
                take(&mut self.first, &piece[..place])?;
                let mut second = Later::new(self.alloc, self.first.pieces.settings())?;
                second.take(&piece[place..])?;
                self.second = Some(second);
                Ok(())
            }
        }
    }

    fn take(&mut self, piece: &[u8]) -> Result<(), OutOfMemory>
        ensures { (o : List ℕ) → Fed self.old o → audit.is_stopped o ≡ false
            → OnOk result (Fed self.new (o ++ piece.now)) }
    {
        match &mut self.second {
            Some(second) => second.take(piece),
            None => self.seek(piece),
        }
    }

    // Whether the second capture is bad, whatever follows.
    fn is_second_bad(&self) -> bool
        ensures { (o : List ℕ) → Fed self.now o
            → result ≡ is_some (later_bad (settings Second (earlier o)) (later o)) }
    {
        match &self.second {
            Some(second) => second.is_bad(),
            None => false,
        }
    }

    fn is_stopped(&self) -> bool
        ensures { (o : List ℕ) → Fed self.now o → result ≡ audit.is_stopped o }
    {
        self.first.pieces.is_bad() || self.is_second_bad()
    }

    fn going(&self) -> Going
        ensures { (o : List ℕ) → Fed self.now o → stops result ≡ audit.is_stopped o }
    {
        if self.is_stopped() {
            Going::Stop
        } else {
            Going::On
        }
    }

    // Where the first capture is bad. The mark of a second one ends it.
    fn first_bad(&self) -> Result<Option<BadCapture>, OutOfMemory>
        ensures { (o : List ℕ) → Fed self.now o → self.now.second ≡ None
            → IfOk result (λ bad. bad ≡ bad_at_end Second (earlier o)) }
    {
        if self.seam.is_whole() {
            self.first.pieces.bad()
        } else {
            self.first.pieces.bad_at_end()
        }
    }

    // Where a second capture is bad that is its mark alone, or isn't there.
    fn column(&self) -> u64
        ensures { result ≡ (if is_whole self.now.seam.awaited then 12 else 1) }
    {
        if self.seam.is_whole() { 12 } else { 1 }
    }

    // Where the input is bad, before it was seen that the second capture has begun.
    fn bad_alone(&self) -> Result<Option<BadCapture>, OutOfMemory>
        ensures { (o : List ℕ) → Fed self.now o → self.now.second ≡ None → IfOk result (λ bad. bad ≡ place o) }
    {
        match self.first_bad()? {
            Some(bad) => Ok(Some(bad)),
            None => {
                let column = self.column();
                move_by(Some(BadCapture { line: 1, column }), self.seam.lines())
            }
        }
    }

    // Where the input is bad, if nothing follows.
    fn bad_at_end(&self) -> Result<Option<BadCapture>, OutOfMemory>
        ensures { (o : List ℕ) → Fed self.now o → IfOk result (λ bad. bad ≡ place o) }
    {
        let Some(second) = &self.second else {
            return self.bad_alone();
        };
        match self.first.pieces.bad()? {
            Some(bad) => Ok(Some(bad)),
            None => move_by(second.bad_at_end()?, self.seam.lines()),
        }
    }

    // Appends the line of the verdict, where there are two captures.
    fn judge(&self, out: &mut Octets) -> Result<(), OutOfMemory>
        ensures { (o : List ℕ) → Fed self.now o → OnOk result (out.new ≡ out.old ++ verdict_of o) }
    {
        match &self.second {
            Some(second) => push_judgement(&self.first.made, &second.capture.made, out),
            None => Ok(()),
        }
    }
}

impl Machine for Auditor {
    ghost use Rattle.zre_records.specs.audit.Audit.{audit};
    ghost use Rattle.zre_records.specs.audit.Auditor.{Fed};

    ghost fed = { Fed };

    ghost says = { λ _. audit };

    fn begin(&self, _out: &mut Octets) -> Result<(), OutOfMemory> {
        Ok(())
    }

    #[tactic(auto, using(crate::proofs::audit::AuditorAtEnd::stopped_bad))]
    fn feed(&mut self, piece: &[u8], _out: &mut Octets) -> Result<Going, OutOfMemory> {
        self.take(piece)?;
        Ok(self.going())
    }

    fn finish<O: Sink>(&self, _: u64, text: &mut Octets, _: &mut O) -> Result<bool, NextFault> {
        if push_refusal(text, self.bad_at_end()?)? {
            return Ok(true);
        }
        self.judge(text)?;
        Ok(false)
    }
}

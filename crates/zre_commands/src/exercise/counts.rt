//! Counts of what a node tells.

ghost use Rattle.std.specs.Prelude.{◌≡◌, ◌+◌, ℕ, List, length, sum_by, OnOk, ◌++◌};
ghost use Rattle.zre_peer.specs.declared.event.Event.{Event as EventValue};

use crate::frames::octets_of;
use zre_peer::Event;
use zre_values::{Frames, OutOfMemory};

/// How many entries were taken, how many events of each kind they raised, and how many octets the content frames of
/// these have.
#[derive(Drop)]
pub(crate) struct Counts {
    pub entries: u64,
    pub enter: u64,
    pub join: u64,
    pub leave: u64,
    pub whisper: u64,
    pub shout: u64,
    pub exit: u64,
    pub content: u64,
}

// A count that would pass 64 bits counts as OutOfMemory.
fn raise(count: &mut u64, by: u64) -> Result<(), OutOfMemory>
    ensures { OnOk result (count.new ≡ count.old + by) }
{
    *count = count.checked_add(by).ok_or(OutOfMemory)?;
    Ok(())
}

// One more event of a kind with content, and its octets.
fn raise_both(count: &mut u64, octets: &mut u64, content: &Frames) -> Result<(), OutOfMemory>
    ensures count { OnOk result (count.new ≡ count.old + 1) }
    ensures octets { OnOk result (octets.new ≡ octets.old + sum_by length content.now) }
{
    raise(count, 1)?;
    raise(octets, octets_of(content)?)
}

impl Counts {
    ghost use Rattle.zre_commands.specs.exercise.Counts.{nothing, with_entry, with_event, tally};

    /// Nothing yet.
    pub fn new() -> Counts
        ensures { result ≡ nothing }
    {
        Counts {
            entries: 0,
            enter: 0,
            join: 0,
            leave: 0,
            whisper: 0,
            shout: 0,
            exit: 0,
            content: 0,
        }
    }

    /// One more entry.
    pub fn count_entry(&mut self) -> Result<(), OutOfMemory>
        ensures { OnOk result (self.new ≡ with_entry self.old) }
    {
        raise(&mut self.entries, 1)
    }

    // One more event.
    fn count_event(&mut self, event: &Event) -> Result<(), OutOfMemory>
        ensures { OnOk result (self.new ≡ with_event self.old event.now) }
    {
        match event {
            Event::Enter { .. } => raise(&mut self.enter, 1),
            Event::Join { .. } => raise(&mut self.join, 1),
            Event::Leave { .. } => raise(&mut self.leave, 1),
            Event::Whisper { content, .. } => {
                raise_both(&mut self.whisper, &mut self.content, content)
            }
            Event::Shout { content, .. } => {
                raise_both(&mut self.shout, &mut self.content, content)
            }
            Event::Exit { .. } => raise(&mut self.exit, 1),
            _ => Ok(()),
        }
    }

    /// More events.
    pub fn count_events(&mut self, events: &[Event]) -> Result<(), OutOfMemory>
        ensures { (n : ℕ) (before : List EventValue) → self.old ≡ tally n before
            → OnOk result (self.new ≡ tally n (before ++ events.now)) }
    {
        for event in events {
            self.count_event(event)?;
        }
        Ok(())
    }
}

//! What was said in the runs of peers.

ghost use Rattle.std.specs.Prelude.{◌≡◌, ℕ, List, [], ◌∷◌, ◌++◌, if◌then◌else◌, bytes_eq, OnOk};
ghost use Rattle.zre_audit.specs.Told.{at_last, runs_in, runs_with, runs_after};

use crate::coding::{push_shout, push_whisper};
use std::alloc::Global;
use std::collections::BTreeMap;
use zre_peer::Event;
use zre_values::{Frames, Octets, OutOfMemory, PeerId, take_apart};

/// For each peer its runs in order of start, each as the octets of what was said in it.
pub(crate) struct PeerRuns {
    alloc: Global,
    runs: BTreeMap<[u8; 16], Frames>,
    // What is being told, so that its memory is used again.
    said: Octets,
}

impl Drop for PeerRuns {
    fn drop(self) {
        take_apart!(self, PeerRuns: alloc, runs, said);
    }
}

// A run of the peer begins.
fn begin(
    runs: &mut BTreeMap<[u8; 16], Frames>,
    alloc: Global,
    id: PeerId,
) -> Result<(), OutOfMemory>
    ensures { OnOk result ((p : List ℕ)
        → runs_in runs.new p ≡ (if bytes_eq id.0 p then runs_in runs.old p ++ [] ∷ [] else runs_in runs.old p)) }
{
    if let Some(lists) = runs.get_mut(&id.0) {
        lists.push(Octets::new(alloc))?;
        return Ok(());
    }
    runs.insert(id.0, Frames::of(alloc, Octets::new(alloc)))?;
    Ok(())
}

fn append_last(lists: &mut Frames, octets: &[u8]) -> Result<(), OutOfMemory>
    ensures { OnOk result (lists.new ≡ at_last octets.now lists.old) }
{
    if let Some(last) = lists.len().checked_sub(1) {
        lists.append_at(last, octets)?;
    }
    Ok(())
}

// The peer says something in its last run.
fn append(
    runs: &mut BTreeMap<[u8; 16], Frames>,
    id: PeerId,
    octets: &[u8],
) -> Result<(), OutOfMemory>
    ensures { OnOk result ((p : List ℕ) → runs_in runs.new p
        ≡ (if bytes_eq id.0 p then at_last octets.now (runs_in runs.old p) else runs_in runs.old p)) }
{
    if let Some(lists) = runs.get_mut(&id.0) {
        append_last(lists, octets)?;
    }
    Ok(())
}

impl PeerRuns {
    /// Nothing, which takes no memory.
    pub(crate) fn new(alloc: Global) -> PeerRuns
        ensures { (p : List ℕ) → runs_in result.runs p ≡ [] }
    {
        PeerRuns {
            alloc,
            runs: BTreeMap::new(alloc),
            said: Octets::new(alloc),
        }
    }

    fn take(&mut self, event: &Event) -> Result<(), OutOfMemory>
        ensures { OnOk result ((p : List ℕ)
            → runs_in self.new.runs p ≡ runs_with p (runs_in self.old.runs p) event.now) }
    {
        self.said.clear();
        match event {
            Event::Enter { id, .. } => begin(&mut self.runs, self.alloc, *id),
            Event::Whisper { id, content, .. } => {
                push_whisper(&mut self.said, content.as_slice())?;
                append(&mut self.runs, *id, self.said.as_slice())
            }
            Event::Shout {
                id,
                group,
                content,
                ..
            } => {
                push_shout(&mut self.said, group.as_slice(), content.as_slice())?;
                append(&mut self.runs, *id, self.said.as_slice())
            }
            _ => Ok(()),
        }
    }

    /// Takes what events tell, one after the other.
    pub(crate) fn take_all(&mut self, events: &[Event]) -> Result<(), OutOfMemory>
        ensures { OnOk result ((p : List ℕ)
            → runs_in self.new.runs p ≡ runs_after p (runs_in self.old.runs p) events.now) }
    {
        for event in events {
            self.take(event)?;
        }
        Ok(())
    }

    /// The runs of a peer.
    pub(crate) fn runs(&self, id: PeerId) -> &[Octets]
        ensures { result.now ≡ runs_in self.now.runs id.0 }
    {
        match self.runs.get(&id.0) {
            Some(lists) => lists.as_slice(),
            None => &[],
        }
    }
}

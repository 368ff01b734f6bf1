//! One entry on its way: to the recorder, through the node, and what it asks for to the world.

ghost use Rattle.std.specs.Prelude.{◌≡◌, ◌≤◌, ◌++◌, [], List, true, OnOk, IfErr, false, option_map};
ghost use Rattle.std.specs.Io.KnownBytes.{Keeps, Appends};
ghost use Rattle.zre_outside.specs.declared.deed.Deed.{Deed as DeedValue};
ghost use Rattle.zre_outside.specs.declared.act.Act.{Act as ActValue};
ghost use Rattle.zre_outside.specs.declared.entry.Entry.{Entry as EntryValue};
ghost use Rattle.zre_outside.specs.Causes.{Rose};
ghost use Rattle.zre_outside.specs.Refusals.{refused_after};
ghost use Rattle.zre_outside.specs.Told.{AppendsFront};
ghost use Rattle.zre_outside.specs.Worlds.{with_deed};
ghost use Rattle.zre_journal.specs.Asked.{AreDue, IsDueAct, IsDue};
ghost use Rattle.zre_values.specs.declared.settings.Settings.{Settings as Config};
ghost use Rattle.zre_journal.specs.Events.{chronicle};
ghost use Rattle.zre_node.specs.Journal.{StandsFor};
ghost use Rattle.zre_capture.specs.Lines.{line, IsEntry};
ghost use Rattle.zre_capture.specs.declared.format.Format.TheVariants.{Second};
ghost use Rattle.zre_actor.specs.Work.{IsDeed, DoesAll, IsRefusal, Went, Broke, is_unkept, is_world_fault};

use crate::Ending;
use crate::values::is_value;
use zre_capture::push_entry2;
use zre_node::{Node, Step};
use zre_outside::{Act, Entry, NextFault, Recorder, World};
use zre_values::{Octets, OutOfMemory};

/// Where a node's entries are put as lines.
pub(crate) struct Recording<R> {
    /// What takes the lines.
    pub rec: R,
    /// Whether any are put.
    pub keep: bool,
    /// The reading of the entry before.
    pub before: u64,
    /// Where a line is made, whatever stood there.
    pub buffer: Octets,
}

/// A node at work: it is in a world, and its entries are recorded.
pub(crate) struct Actor<W, R> {
    pub world: W,
    pub node: Node,
    pub recording: Recording<R>,
    /// What the node's last step gives; its lists serve again and again.
    pub step: Step,
}

impl<W: World, R: Recorder> Actor<W, R> {
    /// Puts the line of an entry to the recorder, where that is wanted, steps the node with the entry, and has the
    /// world do the acts. What is to be told stands in the step.
    pub(crate) fn take_entry(&mut self, entry: Entry) -> Result<(), Ending>
        requires { self.old.recording.keep ≡ true → R.begun self.old.recording.rec ≡ true }
        // What the entry brought.
        ensures ok { (g : Config) (J : List EntryValue) → StandsFor g J self.old.node
            → OnOk result (Went g J entry self.old.recording.keep self.old.recording.before
            (W.told self.old.world) (W.told self.new.world)
            (R.kept self.old.recording.rec) (R.kept self.new.recording.rec) self.new.node self.new.step.events) }
        ensures next { OnOk result (self.new.recording.before ≡ entry.at) }
        // A recorder or a node that fails.
        ensures broke { (g : Config) (J : List EntryValue) → StandsFor g J self.old.node
            → IfErr result (λ x. Broke g J entry self.old.recording.keep self.old.recording.before
            (W.told self.old.world) (W.told self.new.world)
            (R.kept self.old.recording.rec) (R.kept self.new.recording.rec)
            (R.faults self.old.recording.rec) (R.faults self.new.recording.rec) self.new.node x) }
        ensures world { (W.looked self.new.world ≡ W.looked self.old.world)
            × (W.faults self.new.world ≡ W.faults self.old.world)
            × (W.refused self.new.world ≡ W.refused self.old.world) }
        // What stays as it was.
        ensures keep { self.new.recording.keep ≡ self.old.recording.keep }
        ensures unkept { self.old.recording.keep ≡ false → self.new.recording.rec ≡ self.old.recording.rec }
        ensures begun { R.begun self.new.recording.rec ≡ R.begun self.old.recording.rec }
        ensures named { Keeps (R.named self.old.recording.rec) (R.named self.new.recording.rec) }
        // Faults of the recorder, and the entry itself.
        ensures later { R.faults self.old.recording.rec ≤ R.faults self.new.recording.rec }
        ensures counts { R.refused self.new.recording.rec
            ≡ refused_after (is_unkept result) (R.refused self.old.recording.rec) }
        ensures inside { IfErr result (λ x. is_world_fault x ≡ false) }
        ensures value { IsEntry entry }
    {
        is_value(&entry);
        if let Err(ending) = self.recording.keep_line(&entry) {
            drop(entry);
            return Err(ending);
        }
        self.recording.before = entry.at;
        let Ok(()) = self.node.step_into(entry, &mut self.step) else {
            return Err(Ending::OutOfMemory);
        };
        if do_all(&mut self.world, &self.node, self.step.acts.as_slice()) {
            Ok(())
        } else {
            Err(Ending::OutOfMemory)
        }
    }
}

impl<R: Recorder> Recording<R> {
    // Puts the line of an entry, where that is wanted.
    fn keep_line(&mut self, entry: &Entry) -> Result<(), Ending>
        requires { self.old.keep ≡ true → R.begun self.old.rec ≡ true }
        // What is kept of the line, and where it breaks off.
        ensures kept { OnOk result (self.old.keep ≡ true
            → Appends (R.kept self.old.rec) (R.kept self.new.rec) (line Second self.old.before entry.now)) }
        ensures broke { IfErr result (λ x. (self.old.keep ≡ true)
            × AppendsFront (R.kept self.old.rec) (R.kept self.new.rec) (line Second self.old.before entry.now)
            × IsRefusal (R.faults self.old.rec) (R.faults self.new.rec) x) }
        // What stays as it was.
        ensures keep { self.new.keep ≡ self.old.keep }
        ensures unkept { self.old.keep ≡ false → self.new.rec ≡ self.old.rec }
        ensures begun { R.begun self.new.rec ≡ R.begun self.old.rec }
        ensures named { Keeps (R.named self.old.rec) (R.named self.new.rec) }
        // Faults of the recorder.
        ensures later { R.faults self.old.rec ≤ R.faults self.new.rec }
        ensures counts { R.refused self.new.rec ≡ refused_after (is_unkept result) (R.refused self.old.rec) }
        ensures inside { IfErr result (λ x. is_world_fault x ≡ false) }
    {
        if self.keep {
            put_line(&mut self.rec, &mut self.buffer, self.before, entry)
        } else {
            Ok(())
        }
    }
}

// Puts the line of an entry after this reading.
fn put_line<R: Recorder>(
    rec: &mut R,
    buffer: &mut Octets,
    before: u64,
    entry: &Entry,
) -> Result<(), Ending>
    requires { R.begun rec.old ≡ true }
    // What the recorder has of the line.
    ensures kept { OnOk result (Appends (R.kept rec.old) (R.kept rec.new) (line Second before entry.now)) }
    ensures front { AppendsFront (R.kept rec.old) (R.kept rec.new) (line Second before entry.now) }
    ensures ending { IfErr result (λ x. IsRefusal (R.faults rec.old) (R.faults rec.new) x) }
    // What stays as it was.
    ensures begun { R.begun rec.new ≡ R.begun rec.old }
    ensures named { Keeps (R.named rec.old) (R.named rec.new) }
    // Faults of the recorder.
    ensures later { R.faults rec.old ≤ R.faults rec.new }
    ensures counts { R.refused rec.new ≡ refused_after (is_unkept result) (R.refused rec.old) }
    ensures inside { IfErr result (λ x. is_world_fault x ≡ false) }
{
    buffer.clear();
    let Ok(()) = push_entry2(buffer, before, entry) else {
        return Err(Ending::OutOfMemory);
    };
    match rec.put(buffer.as_slice()) {
        Ok(()) => Ok(()),
        Err(NextFault::Failed) => Err(Ending::RecordFault),
        Err(NextFault::OutOfMemory) => Err(Ending::OutOfMemory),
    }
}

// Does these acts, in order. False where memory ran out.
fn do_all<W: World>(world: &mut W, node: &Node, acts: &[Act]) -> bool
    ensures done { (g : Config) (J : List EntryValue) → StandsFor g J node.now → AreDue g (chronicle g J) acts.now
        → DoesAll g J acts.now result (W.told world.old) (W.told world.new) }
    ensures world { (W.looked world.new ≡ W.looked world.old) × (W.faults world.new ≡ W.faults world.old)
        × (W.refused world.new ≡ W.refused world.old) }
{
    for act in acts {
        if !do_one(world, node, act) {
            return false;
        }
    }
    true
}

// Does an act. A link that is to be looked at is offered what it may send.
fn do_one<W: World>(world: &mut W, node: &Node, act: &Act) -> bool
    ensures done { (g : Config) (J : List EntryValue) → StandsFor g J node.now → IsDueAct g (chronicle g J) act.now
        → result ≡ true →
        (d : DeedValue) × IsDeed g J act.now d × (W.told world.new ≡ option_map (with_deed d) (W.told world.old)) }
    ensures undone { result ≡ false → W.told world.new ≡ W.told world.old }
    ensures world { (W.looked world.new ≡ W.looked world.old) × (W.faults world.new ≡ W.faults world.old)
        × (W.refused world.new ≡ W.refused world.old) }
{
    match act {
        Act::Offer { link } => offer_front(world, node, *link),
        _ => world.act(act).is_ok(),
    }
}

// Offers a link what it may send. An act to look at a link comes only where it may send something; nothing is offered
// on a link that isn't known.
fn offer_front<W: World>(world: &mut W, node: &Node, link: u64) -> bool
    ensures done { (g : Config) (J : List EntryValue) → StandsFor g J node.now → IsDue g (chronicle g J) link
        → result ≡ true →
        (d : DeedValue) × IsDeed g J (ActValue.Offer link) d
        × (W.told world.new ≡ option_map (with_deed d) (W.told world.old)) }
    ensures undone { result ≡ false → W.told world.new ≡ W.told world.old }
    ensures world { (W.looked world.new ≡ W.looked world.old) × (W.faults world.new ≡ W.faults world.old)
        × (W.refused world.new ≡ W.refused world.old) }
{
    let Some(bytes) = node.front(link) else {
        return true;
    };
    world.offer(link, bytes).is_ok()
}

//! The actor's work: turn after turn, until it ends.

ghost use Rattle.std.specs.Prelude.{◌≡◌, ◌≤◌, ◌<◌, ◌+◌, ◌++◌, ◌^◌, [], List, true, false, None, Some, cond};
ghost use Rattle.std.specs.Io.KnownBytes.{Keeps};
ghost use Rattle.zre_outside.specs.declared.entry.Entry.{Entry as EntryValue};
ghost use Rattle.zre_outside.specs.Refusals.{refused_after};
ghost use Rattle.zre_values.specs.declared.settings.Settings.{Settings as Config};
ghost use Rattle.zre_journal.specs.Events.{chronicle};
ghost use Rattle.zre_journal.specs.Happens.{has_stopped};
ghost use Rattle.zre_node.specs.Journal.{StandsFor};
ghost use Rattle.zre_actor.specs.declared.ending.Ending.TheVariants as ending;
ghost use Rattle.zre_actor.specs.Passes.{IsActorOf, popped_by, raised_by, unused_by, ending_of};
ghost use Rattle.zre_actor.specs.Work.{IsWork, scene, world_ending, is_world_fault, is_record_fault};

use crate::doing::{Actor, Recording};
use crate::passes::{ActorPass, Pipes};
use crate::{Ending, Told};
use std::mem;
use std::sync::Wait;
use zre_node::{Node, Step};
use zre_outside::{NextFault, Recorder, Turn, World};
use zre_peer::Events;
use zre_values::Octets;

/// What the work left.
#[derive(Drop)]
pub struct Worked<W, R> {
    pub world: W,
    pub node: Node,
    pub rec: R,
    pub pass: ActorPass,
    pub ending: Ending,
}

impl Pipes {
    /// Takes one turn of the world after the other, and raises what the node tells. After each look the command pipe
    /// is popped once, and a command found goes into the next turn; after a look in the last turn it isn't. Where
    /// entries are kept, each is put to the recorder as its line of a capture of format 2 before the node takes it,
    /// the first after the reading 0. It ends at a node that has stopped, at a fault, out of memory or after so many
    /// turns, and raises last why.
    pub fn work<W: World, R: Recorder, T: Wait + Copy>(
        &self,
        rt: T,
        world: W,
        node: Node,
        mut pass: ActorPass,
        rec: R,
        keep: bool,
        limit: u64,
    ) -> Worked<W, R>
        requires pipes { IsActorOf self.now pass }
        requires open { ending_of pass ≡ None }
        requires begun { keep ≡ true → R.begun rec ≡ true }
        requires room { pass.empties + limit < 2 ^ 64 }
        ensures pipes { IsActorOf self.now result.pass × (unused_by result.pass ≡ unused_by pass) }
        ensures ending { ending_of result.pass ≡ Some result.ending }
        ensures unkept { keep ≡ false → result.rec ≡ rec }
        ensures begun { R.begun result.rec ≡ R.begun rec }
        ensures named { Keeps (R.named rec) (R.named result.rec) }
        // It ends where the world or the recorder refused a call, so that no further one is made.
        ensures counts { (W.refused result.world ≡ refused_after (is_world_fault result.ending) (W.refused world))
            × (R.refused result.rec ≡ refused_after (is_record_fault result.ending) (R.refused rec)) }
        ensures work { (g : Config) (K : List EntryValue) → StandsFor g K node → IsWork g K keep limit
            (scene (W.told world) (W.looked world) (W.faults world) (R.kept rec) (R.faults rec) pass)
            (scene (W.told result.world) (W.looked result.world) (W.faults result.world)
            (R.kept result.rec) (R.faults result.rec) result.pass)
            result.node result.ending }
    {
        let mut actor = Actor {
            world,
            node,
            recording: Recording {
                rec,
                keep,
                before: 0,
                buffer: Octets::new(self.alloc),
            },
            step: Step::new(self.alloc),
        };
        let mut command = None;
        for turn in 0..limit {
            if actor.node.stopped() {
                drop(command);
                return self.leave(rt, actor, pass, Ending::Stopped);
            }
            let answer = match actor.world.next(command) {
                Ok(answer) => answer,
                Err(fault) => return self.leave(rt, actor, pass, ending_by(fault)),
            };
            command = None;
            match answer {
                Turn::Look if turn + 1 < limit => (pass, command) = self.pop(rt, pass),
                Turn::Look => {}
                Turn::Entry(entry) => match actor.take_entry(entry) {
                    Ok(()) => pass = self.raise_all(rt, pass, &mut actor.step.events),
                    Err(ending) => return self.leave(rt, actor, pass, ending),
                },
            }
        }
        drop(command);
        let ending = last_ending(&actor.node);
        self.leave(rt, actor, pass, ending)
    }

    // Pushes Last.
    fn leave<W, R, T: Wait + Copy>(
        &self,
        rt: T,
        actor: Actor<W, R>,
        pass: ActorPass,
        ending: Ending,
    ) -> Worked<W, R>
        // What a caller knows.
        requires pipes { IsActorOf self.now pass }
        requires open { ending_of pass ≡ None }
        // What the pass knows after Last.
        ensures pipes { IsActorOf self.now result.pass × (unused_by result.pass ≡ unused_by pass) }
        ensures same { (result.world ≡ actor.world) × (result.node ≡ actor.node)
            × (result.rec ≡ actor.recording.rec) × (result.ending ≡ ending) }
        ensures ending { ending_of result.pass ≡ Some ending }
        ensures pass { (popped_by result.pass ≡ popped_by pass) × (raised_by result.pass ≡ raised_by pass)
            × (result.pass.empties ≡ pass.empties) }
    {
        let Actor {
            world,
            node,
            recording: Recording {
                rec,
                keep: _,
                before: _,
                buffer,
            },
            step,
        } = actor;
        drop(buffer);
        drop(step);
        let pass = self.push(rt, pass, Told::Last(ending));
        Worked {
            world,
            node,
            rec,
            pass,
            ending,
        }
    }

    // Pushes these events, in order, and empties their list, which keeps its memory.
    fn raise_all<T: Wait + Copy>(
        &self,
        rt: T,
        mut pass: ActorPass,
        events: &mut Events,
    ) -> ActorPass
        // What a caller knows.
        requires pipes { IsActorOf self.now pass }
        requires open { ending_of pass ≡ None }
        // What the pass knows after all events were raised.
        ensures pipes { IsActorOf self.now result × (unused_by result ≡ unused_by pass) }
        ensures raised { raised_by result ≡ raised_by pass ++ events.old }
        ensures open { ending_of result ≡ None }
        ensures commands { (popped_by result ≡ popped_by pass) × (result.empties ≡ pass.empties) }
    {
        let mut left = mem::replace(events, Events::new(self.alloc)).into_vec();
        left.reverse();
        'events: while let Some(event) = left.pop() {
            pass = self.push(rt, pass, Told::Event(event));
        }
        *events = Events::from_vec(left);
        pass
    }
}

// The ending where the world refuses a turn.
fn ending_by(fault: NextFault) -> Ending
    ensures { result ≡ world_ending fault }
{
    match fault {
        NextFault::Failed => Ending::WorldFault,
        NextFault::OutOfMemory => Ending::OutOfMemory,
    }
}

// The ending where all turns were taken.
fn last_ending(node: &Node) -> Ending
    ensures stopped { (g : Config) (K : List EntryValue) → StandsFor g K node.now
        → result ≡ cond (has_stopped (chronicle g K)) ending.Stopped ending.TooLong }
    ensures inside { (is_world_fault result ≡ false) × (is_record_fault result ≡ false) }
{
    if node.stopped() {
        Ending::Stopped
    } else {
        Ending::TooLong
    }
}

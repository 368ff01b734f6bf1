//! What a step gives.

ghost use Rattle.std.specs.Prelude.{◌≡◌, ◌∷◌, [], ◌++◌, List, OnOk};
ghost use Rattle.zre_peer.specs.declared.event.Event.{Event as EventValue};
ghost use Rattle.zre_outside.specs.declared.act.Act.{Act as ActValue};
ghost use Rattle.zre_journal.specs.Done.{close_link as closing};
ghost use Rattle.zre_peer.specs.Views.{view_of};
ghost use Rattle.zre_msg.specs.declared.message.Message.{Message};
ghost use Rattle.zre_peer.specs.Runs.{shown};
ghost use Rattle.zre_peer.specs.Standing.{view_in};

use std::alloc::Global;
use std::mem;
use zre_outside::{Act, Acts};
use zre_peer::{Cause, CloseWhy, Event, Events, IgnoreWhy, Run};
use zre_tables::name_of;
use zre_values::{Keys, List, Octets, OutOfMemory, PeerId};

/// What one entry brought about: what the user is told, and what the node asks of the outside.
#[derive(Drop)]
pub struct Step {
    /// What the user is told, in order.
    pub events: Events,
    /// What is asked of the outside, in order.
    pub acts: Acts,
}

impl Step {
    /// Nothing yet. It takes no memory.
    pub fn new(alloc: Global) -> Self
        ensures { result ≡ record { events = []; acts = [] } }
    {
        Step {
            events: Events::new(alloc),
            acts: Acts::new(alloc),
        }
    }
}

/// What is told and asked for while an entry is taken, with the links on which something was put.
#[derive(Drop)]
pub struct Effects {
    /// What the user is told so far.
    pub events: Events,
    /// What is asked of the outside so far.
    pub acts: Acts,
    /// The links on which something was put, and the one that the entry names.
    pub pushed: Keys,
}

// Puts a list in place of another, whose memory it takes, and leaves its own empty. Most lists are empty, and then
// nothing moves.
#[inline(always)]
fn hand<T: Drop>(from: &mut List<T>, to: &mut List<T>)
    ensures { to.new ≡ from.old }
{
    to.clear();
    if from.len() != 0 {
        mem::swap(from, to);
    }
}

impl Effects {
    /// Nothing yet.
    pub fn new(alloc: Global) -> Self
        ensures { result ≡ record { events = []; acts = []; pushed = [] } }
    {
        Effects {
            events: Events::new(alloc),
            acts: Acts::new(alloc),
            pushed: Keys::new(alloc),
        }
    }

    /// Nothing again. The lists keep their memory.
    #[inline(always)]
    pub fn clear(&mut self)
        ensures { self.new ≡ record { events = []; acts = []; pushed = [] } }
    {
        self.events.clear();
        self.acts.clear();
        self.pushed.clear();
    }

    /// Hands over what was told and asked for, in place of what stands in a step, and takes the lists of that.
    #[inline(always)]
    pub fn hand_to(&mut self, step: &mut Step)
        ensures { step.new ≡ record { events = self.old.events; acts = self.old.acts } }
    {
        hand(&mut self.events, &mut step.events);
        hand(&mut self.acts, &mut step.acts);
    }

    /// Asks for one more act.
    pub fn act(&mut self, act: Act) -> Result<(), OutOfMemory>
        ensures { OnOk result (self.new ≡ record self.old { acts = self.old.acts ++ act ∷ [] }) }
    {
        self.acts.push(act)
    }

    /// Tells one more event.
    pub fn tell(&mut self, event: Event) -> Result<(), OutOfMemory>
        ensures { OnOk result (self.new ≡ record self.old { events = self.old.events ++ event ∷ [] }) }
    {
        self.events.push(event)
    }

    /// EXIT of an entered peer, with the name that it has told.
    pub fn exit(
        &mut self,
        alloc: Global,
        id: PeerId,
        run: &Run,
        cause: Cause,
    ) -> Result<(), OutOfMemory>
        ensures { (ms : List Message) → view_in run.now ≡ shown ms →
            OnOk result (self.new
            ≡ record self.old { events = self.old.events ++ EventValue.Exit id (view_of ms).name cause ∷ [] }) }
    {
        let name = name_of(alloc, run)?;
        self.tell(Event::Exit { id, name, cause })
    }

    /// A connection is closed, and the user is told why.
    pub fn close(&mut self, conn: u64, why: CloseWhy) -> Result<(), OutOfMemory>
        ensures { OnOk result (self.new ≡ record self.old {
          events = self.old.events ++ EventValue.Closed conn why ∷ [];
          acts = self.old.acts ++ ActValue.CloseConn conn ∷ [];
        }) }
    {
        self.tell(Event::Closed { conn, why })?;
        self.act(Act::CloseConn { conn })
    }

    /// The first message of a connection is refused.
    pub fn ignored(&mut self, conn: u64, why: IgnoreWhy) -> Result<(), OutOfMemory>
        ensures { OnOk result (self.new ≡ record self.old {
          events = self.old.events
              ++ EventValue.Ignored conn why ∷ [];
        }) }
    {
        self.tell(Event::Ignored { conn, why })
    }

    /// Sends octets back on a connection.
    pub fn answer(&mut self, conn: u64, bytes: Octets) -> Result<(), OutOfMemory>
        ensures { OnOk result (self.new ≡ record self.old { acts = self.old.acts ++ ActValue.Answer conn bytes ∷ [] }) }
    {
        self.act(Act::Answer { conn, bytes })
    }

    /// The link of a peer that ends is closed, unless it was lost.
    pub fn close_link(&mut self, link: u64, cause: Cause) -> Result<(), OutOfMemory>
        ensures { OnOk result (self.new ≡ record self.old { acts = self.old.acts ++ closing link cause }) }
    {
        match cause {
            Cause::Link => Ok(()),
            _ => self.act(Act::CloseLink { link }),
        }
    }
}

//! A run whose events are wanted as lines.

ghost use Rattle.std.specs.Prelude.{◌≡◌, [], true, false, is_some, IfOk};
ghost use Rattle.std.specs.Option.{ForSome};
ghost use Rattle.zre_msg.specs.Lent.{message_of};
ghost use Rattle.zre_peer.specs.Heads.{heads_of};
ghost use Rattle.zre_peer.specs.Runs.{is_hello};
ghost use Rattle.zre_peer.specs.Standing.{IsReady};
ghost use Rattle.zre_peer.specs.Views.{after, blank};

use crate::event::Events;
use crate::heads::Heads;
use crate::lending::lent;
use crate::line::push_lines;
use crate::peer_run::{Answer, Run};
use std::alloc::Global;
use std::marker::Model;
use zre_msg::{Body, LentMessage, Message};
use zre_values::{Octets, OutOfMemory, PeerId, take_apart};

/// A run that writes the lines of its events and makes no events: from its HELLO on their beginnings stand ready as
/// texts.
pub struct Teller {
    alloc: Global,
    run: Run,
    heads: Heads,
    events: Events,
    ghost within: { IsReady run heads },
}

impl Drop for Teller {
    fn drop(self) {
        take_apart!(self, Teller: alloc, run, heads, events);
    }
}

impl Model for Teller {
    ghost use Rattle.zre_peer.specs.declared.peer_run.Run.{Run};

    ghost Value = { Run };

    ghost view = { λ t. t.run };
}

// The beginnings of the peer's lines by the name in its HELLO; nothing for other messages.
fn heads_of(alloc: Global, id: PeerId, body: &Body) -> Result<Heads, OutOfMemory>
    ensures { IfOk result (λ heads. is_hello body.now ≡ true → heads ≡ heads_of id (after blank body.now).name) }
{
    match body {
        Body::Hello { name, .. } => Heads::of(alloc, id, name.as_slice()),
        _ => Ok(Heads::new(alloc)),
    }
}

fn put(place: &mut Heads, heads: Heads)
    ensures { place.new ≡ heads }
{
    *place = heads;
}

impl Teller {
    ghost use Rattle.zre_peer.specs.Standing.{Stands, Handed, id_of, view_in, is_spent};

    /// The run of a peer of which no message was taken yet. It takes no memory.
    pub fn new(alloc: Global, id: PeerId) -> Self
        ensures stands { Stands result [] }
        ensures id { id_of result ≡ id }
    {
        Teller {
            alloc,
            run: Run::new(alloc, id),
            heads: Heads::new(alloc),
            events: Events::new(alloc),
        }
    }

    /// The run itself.
    pub fn run(&self) -> &Run
        ensures { result.now ≡ self.now }
    {
        &self.run
    }

    /// Whether a message was refused. Then no further message is taken.
    pub fn spent(&self) -> bool
        ensures { result ≡ is_spent self.now }
    {
        self.run.spent()
    }

    /// Takes the next message, and appends the lines of its events. After `OutOfMemory` a prefix of them may be
    /// there, and nothing is said of the run.
    pub fn take(&mut self, mut message: Message, out: &mut Octets) -> Answer
        // Nothing was refused.
        requires { is_spent self.old ≡ false }
        // It is the next one, and its lines; or it isn't, and the fault.
        ensures { Handed result self.old self.new message out.old out.new }
    {
        if self.is_after() {
            let told = self.take_later(&message, out);
            drop(message);
            return told;
        }
        let told = self.take_first(&mut message, out);
        drop(message);
        told
    }

    /// Whether HELLO was taken.
    pub fn is_after(&self) -> bool
        ensures { result ≡ is_some (view_in self.now) }
    {
        self.run.view().is_some()
    }

    /// Takes a message after HELLO, of which the run holds nothing, and appends the lines of its events.
    pub fn take_later(&mut self, message: &Message, out: &mut Octets) -> Answer
        // HELLO was taken, and nothing refused.
        requires unspent { is_spent self.old ≡ false }
        requires after_hello { is_some (view_in self.old) ≡ true }
        // It is the next one, and its lines; or it isn't, and the fault.
        ensures { Handed result self.old self.new message.now out.old out.new }
    {
        match lent(message) {
            Some(lent) => self.take_lent(&lent, out),
            None => Err(self.run.refuse_hello()),
        }
    }

    /// Takes a message after HELLO that lies in its frames, and appends the lines of its events.
    #[inline(always)]
    pub fn take_lent(&mut self, lent: &LentMessage<'_>, out: &mut Octets) -> Answer
        // HELLO was taken, and nothing refused.
        requires unspent { is_spent self.old ≡ false }
        requires after_hello { is_some (view_in self.old) ≡ true }
        // It is the next one, and its lines; or it isn't, and the fault.
        ensures { Handed result self.old self.new (message_of lent.now) out.old out.new }
    {
        self.run.tell(lent, &self.heads, out)
    }

    fn take_first(&mut self, message: &mut Message, out: &mut Octets) -> Answer
        // Nothing was taken or refused.
        requires unspent { is_spent self.old ≡ false }
        requires before_hello { is_some (view_in self.old) ≡ false }
        // It is the next one, and its lines; or it isn't, and the fault.
        ensures { Handed result self.old self.new message.old out.old out.new }
    {
        let heads = heads_of(self.alloc, self.run.id(), &message.body)?;
        put(&mut self.heads, heads);
        self.events.clear();
        self.run.take_from(message, &mut self.events)?;
        Ok(push_lines(out, self.events.as_slice())?)
    }
}

ghost use Rattle.std.specs.Prelude.{ℕ, ◌+◌, ◌%◌, ◌≡◌, ◌≢◌, ◌++◌, [], ◌∷◌, List, Err, None, Some, true, false, IfOk};
ghost use Rattle.std.specs.Prelude.{IfErr, OnOk, OnErr, is_some};
ghost use Rattle.std.specs.Option.{ForSome};
ghost use Rattle.zre_msg.specs.declared.message.Message.{Message};
ghost use Rattle.zre_msg.specs.Lent.{message_of};
ghost use Rattle.zre_peer.specs.declared.peer_run.RunFault.TheVariants as faults;
ghost use Rattle.zre_peer.specs.Changes.{TellsLines};
ghost use Rattle.zre_peer.specs.Ledger.{KeepsItsList};
ghost use Rattle.zre_peer.specs.Later.{goes_on, RefusesLater};
ghost use Rattle.zre_peer.specs.Runs.{events_of, may_follow, fault_of, in_order, is_hello};
ghost use Rattle.zre_peer.specs.Views.{after, blank, is_small, view_of};

use crate::event::Events;
use crate::heads::Heads;
use crate::hello::{opened, tell_hello};
use crate::lending::lent;
use crate::view::View;
use std::alloc::Global;
use thiserror::Error;
use zre_msg::{LentMessage, Message};
use zre_values::{Octets, OutOfMemory, PeerId, take_apart};

/// Why a message doesn't belong to the run. The tests stand in this order.
#[derive(Clone, Copy, Debug, PartialEq, Eq, Error)]
pub enum RunFault {
    /// The first message isn't HELLO with number 1.
    #[error("the first message isn't HELLO with number 1")]
    NotHello,

    /// A later message is HELLO.
    #[error("a second HELLO came")]
    SecondHello,

    /// Its number isn't the one that is due.
    #[error("another number is due")]
    Broken { due: u16, got: u16 },

    /// The view would pass a limit.
    #[error("the view would pass a limit")]
    Limit,

    /// No memory was left. The run is unchanged.
    #[error("out of memory")]
    OutOfMemory,
}

/// What a run answers to a message: nothing, or why it doesn't belong to the run.
pub type Answer = Result<(), RunFault>;

impl From<OutOfMemory> for RunFault {
    ghost from_gives = { λ _ e. e ≡ faults.OutOfMemory };

    fn from(_: OutOfMemory) -> Self {
        RunFault::OutOfMemory
    }
}

/// The messages of one connection of a peer, from its HELLO on: RFC 36 numbers them 1, 2, 3 and so on in sixteen
/// bits, and the run takes each with the number that is due and no other.
pub struct Run {
    alloc: Global,
    id: PeerId,
    view: Option<View>,
    count: u16,
    spent: bool,
    ghost within: { ForSome view (λ v. is_small v ≡ true) },
}

impl Drop for Run {
    fn drop(self) {
        take_apart!(self, Run: alloc, id, view, count, spent);
    }
}

// The view that the first message of a run sets.
fn view_of_first(alloc: Global, message: &mut Message) -> Result<View, RunFault>
    ensures ok { IfOk result (λ view. (message.old.sequence ≡ 1) × (is_hello message.old.body ≡ true)
        × (view ≡ after blank message.old.body) × (is_small (after blank message.old.body) ≡ true)) }
    ensures refused { IfErr result (λ e. e ≢ RunFault.OutOfMemory →
        (may_follow [] message.old ≡ false) × (e ≡ fault_of [] message.old)) }
{
    if message.sequence != 1 {
        return Err(RunFault::NotHello);
    }
    opened(alloc, &mut message.body)
}

// The first message of a run.
fn first(
    alloc: Global,
    id: PeerId,
    message: &mut Message,
    events: &mut Events,
) -> Result<View, RunFault>
    ensures hello { IfOk result (λ view. (is_hello message.old.body ≡ true) × (view ≡ after blank message.old.body)) }
    ensures ok { IfOk result (λ view. (may_follow [] message.old ≡ true)
        × (view ≡ view_of (message.old ∷ []))
        × (events.new ≡ events.old ++ events_of id (view_of []) message.old.body)) }
    ensures refused { IfErr result (λ e. e ≢ RunFault.OutOfMemory →
        (may_follow [] message.old ≡ false) × (e ≡ fault_of [] message.old) × (events.new ≡ events.old)) }
{
    let view = view_of_first(alloc, message)?;
    tell_hello(alloc, id, &view, events)?;
    Ok(view)
}

fn expect_number(due: u16, got: u16) -> Answer
    ensures ok { OnOk result (got ≡ due) }
    ensures refused { IfErr result (λ e. (got ≢ due) × (e ≡ RunFault.Broken due got)) }
{
    if got != due {
        return Err(RunFault::Broken { due, got });
    }
    Ok(())
}

impl View {
    // A message after HELLO that lies in its frames: it is counted and changes the view, or is refused.
    #[inline(always)]
    #[tactic(auto, using(crate::proofs::LinesAfterHello::lent_is_later))]
    fn later(
        &mut self,
        alloc: Global,
        id: PeerId,
        due: u16,
        lent: &LentMessage<'_>,
        events: &mut Events,
    ) -> Answer
        // The view is within its limits.
        requires small { is_small self.old ≡ true }
        // It is the next one: the view and the events after it.
        ensures ok { OnOk result ((goes_on self.old due (message_of lent.now) ≡ true)
            × (self.new ≡ after self.old (message_of lent.now).body)
            × (events.new ≡ events.old ++ events_of id self.old (message_of lent.now).body)) }
        // What holds of the view in any case.
        ensures small { is_small self.new ≡ true }
        // It isn't: nothing changes, and why.
        ensures unchanged { OnErr result (self.new ≡ self.old) }
        ensures refused { RefusesLater result self.old due (message_of lent.now) events.old events.new }
    {
        expect_number(due, lent.sequence)?;
        self.change(alloc, id, lent, events)
    }

    // A message after HELLO that lies in its frames, with the lines of its events, which begin with `heads`.
    #[inline(always)]
    #[tactic(auto, using(crate::proofs::LinesAfterHello::lent_is_later))]
    fn tell_later(
        &mut self,
        alloc: Global,
        due: u16,
        lent: &LentMessage<'_>,
        heads: &Heads,
        out: &mut Octets,
    ) -> Answer
        // The view is within its limits.
        requires small { is_small self.old ≡ true }
        // It is the next one: the view after it, and the lines.
        ensures ok { OnOk result ((goes_on self.old due (message_of lent.now) ≡ true)
            × (self.new ≡ after self.old (message_of lent.now).body)) }
        ensures lines { TellsLines result heads.now self.old (message_of lent.now).body out.old out.new }
        // What holds of the view in any case.
        ensures name { self.new.name ≡ self.old.name }
        ensures small { is_small self.new ≡ true }
        // It isn't: nothing changes, and why.
        ensures unchanged { OnErr result (self.new ≡ self.old) }
        ensures refused { RefusesLater result self.old due (message_of lent.now) out.old out.new }
    {
        expect_number(due, lent.sequence)?;
        self.tell_change(alloc, lent, heads, out)
    }
}

impl Run {
    ghost use Rattle.zre_peer.specs.Standing.{Stands, Takes, RefusesToTake, Tells, RefusesToTell, IsReady};
    ghost use Rattle.zre_peer.specs.Standing.{id_of, view_in, is_spent};
    ghost use Rattle.std.specs.Prelude.{option_copied};

    /// The run of a peer of which no message was taken yet. It takes no memory.
    pub fn new(alloc: Global, id: PeerId) -> Self
        ensures stands { Stands result [] }
        ensures id { id_of result ≡ id }
    {
        Run {
            alloc,
            id,
            view: None,
            count: 0,
            spent: false,
        }
    }

    /// The peer that the run is of.
    pub fn id(&self) -> PeerId
        ensures { result ≡ id_of self.now }
    {
        self.id
    }

    /// What the peer has told, from its HELLO on. After a refusal it is as before the refused message.
    pub fn view(&self) -> Option<&View>
        ensures { option_copied result ≡ view_in self.now }
    {
        self.view.as_ref()
    }

    /// Whether a message was refused. Then no further message is taken.
    pub fn spent(&self) -> bool
        ensures { result ≡ is_spent self.now }
    {
        self.spent
    }

    // The number of the next message.
    fn due(&self) -> u16
        ensures { result ≡ (self.now.count + 1) % 65536 }
    {
        self.count.wrapping_add(1)
    }

    // Notes an answer: a message that was taken is counted, with this number, and after a refusal no further one is
    // taken. Lack of memory changes nothing.
    #[inline(always)]
    fn settle(&mut self, number: u16, answer: Answer) -> Answer
        // The answer is given as it is.
        requires { is_spent self.old ≡ false }
        ensures returned { result ≡ answer }
        // What the run is after it.
        ensures ok { OnOk answer (self.new ≡ record self.old { count = number }) }
        ensures refused { IfErr answer (λ e. e ≢ RunFault.OutOfMemory → self.new ≡ record self.old { spent = true }) }
        ensures unchanged { answer ≡ Err RunFault.OutOfMemory → self.new ≡ self.old }
    {
        match answer {
            Ok(()) => self.count = number,
            Err(fault) => self.spent = fault != RunFault::OutOfMemory,
        }
        answer
    }

    /// Takes the next message, and gives its events.
    pub fn next(&mut self, message: Message) -> Result<Events, RunFault>
        requires { is_spent self.old ≡ false }
        // It is the next one: its events.
        ensures ok { (ms : List Message) → Stands self.old ms → IfOk result (λ events.
            Stands self.new (ms ++ message ∷ []) × (events ≡ events_of (id_of self.old) (view_of ms) message.body)) }
        ensures unspent { OnOk result (is_spent self.new ≡ false) }
        // It isn't: the fault, and no further message is taken.
        ensures refused { (ms : List Message) → Stands self.old ms → IfErr result (λ e. e ≢ RunFault.OutOfMemory →
            (in_order (ms ++ message ∷ []) ≡ false) × (e ≡ fault_of ms message)) }
        ensures spent { IfErr result (λ e. e ≢ RunFault.OutOfMemory → is_spent self.new ≡ true) }
        // Of a sender's numbered list, none is missing, repeated or out of order.
        ensures ledger { (ms : List Message) → Stands self.old ms → KeepsItsList result ms message }
        // What is unchanged.
        ensures unchanged { result ≡ Err RunFault.OutOfMemory → self.new ≡ self.old }
        ensures view_unchanged { OnErr result (view_in self.new ≡ view_in self.old) }
        ensures id { id_of self.new ≡ id_of self.old }
    {
        let mut events = Events::new(self.alloc);
        self.take(message, &mut events)?;
        Ok(events)
    }

    /// Takes the next message and appends its events to a list. After `OutOfMemory` some of them may have been
    /// appended.
    pub fn take(&mut self, mut message: Message, events: &mut Events) -> Answer
        requires { is_spent self.old ≡ false }
        // It is the next one: its events, and the view of a HELLO.
        ensures first { view_in self.old ≡ None → OnOk result (
            (is_hello message.body ≡ true) × (view_in self.new ≡ Some (after blank message.body))) }
        ensures ok { Takes result self.old self.new message events.old events.new }
        ensures unspent { OnOk result (is_spent self.new ≡ false) }
        // It isn't: the fault, and no further message is taken.
        ensures refused { RefusesToTake result self.old message events.old events.new }
        ensures spent { IfErr result (λ e. e ≢ RunFault.OutOfMemory → is_spent self.new ≡ true) }
        // What is unchanged.
        ensures unchanged { result ≡ Err RunFault.OutOfMemory → self.new ≡ self.old }
        ensures view_unchanged { OnErr result (view_in self.new ≡ view_in self.old) }
        ensures id { id_of self.new ≡ id_of self.old }
    {
        let taken = self.take_from(&mut message, events);
        drop(message);
        taken
    }

    /// Takes the next message and appends its events to a list; the fields of a HELLO are moved out of it. After
    /// `OutOfMemory` some of the events may have been appended.
    pub(crate) fn take_from(&mut self, message: &mut Message, events: &mut Events) -> Answer
        requires { is_spent self.old ≡ false }
        // It is the next one: its events, and the view of a HELLO.
        ensures first { view_in self.old ≡ None → OnOk result (
            (is_hello message.old.body ≡ true) × (view_in self.new ≡ Some (after blank message.old.body))) }
        ensures ok { Takes result self.old self.new message.old events.old events.new }
        ensures unspent { OnOk result (is_spent self.new ≡ false) }
        // It isn't: the fault, and no further message is taken.
        ensures refused { RefusesToTake result self.old message.old events.old events.new }
        ensures spent { IfErr result (λ e. e ≢ RunFault.OutOfMemory → is_spent self.new ≡ true) }
        // What is unchanged.
        ensures unchanged { result ≡ Err RunFault.OutOfMemory → self.new ≡ self.old }
        ensures view_unchanged { OnErr result (view_in self.new ≡ view_in self.old) }
        ensures id { id_of self.new ≡ id_of self.old }
    {
        if self.view.is_some() {
            return match lent(message) {
                Some(lent) => self.take_lent(&lent, events),
                None => Err(self.refuse_hello()),
            };
        }
        let next = self.due();
        match first(self.alloc, self.id, message, events) {
            Ok(view) => {
                self.view = Some(view);
                self.settle(next, Ok(()))
            }
            Err(fault) => self.settle(next, Err(fault)),
        }
    }

    /// Takes a message after HELLO that lies in its frames: its fields and its content are copied once, into its event.
    pub fn take_lent(&mut self, lent: &LentMessage<'_>, events: &mut Events) -> Answer
        requires unspent { is_spent self.old ≡ false }
        requires after_hello { is_some (view_in self.old) ≡ true }
        // It is the next one: its events.
        ensures ok { Takes result self.old self.new (message_of lent.now) events.old events.new }
        ensures unspent { OnOk result (is_spent self.new ≡ false) }
        // It isn't: the fault, which isn't that of a first message, and no further message is taken.
        ensures refused { RefusesToTake result self.old (message_of lent.now) events.old events.new }
        ensures not_first { IfErr result (λ e. e ≢ RunFault.NotHello) }
        ensures spent { IfErr result (λ e. e ≢ RunFault.OutOfMemory → is_spent self.new ≡ true) }
        // What is unchanged.
        ensures unchanged { result ≡ Err RunFault.OutOfMemory → self.new ≡ self.old }
        ensures view_unchanged { OnErr result (view_in self.new ≡ view_in self.old) }
        ensures id { id_of self.new ≡ id_of self.old }
    {
        let next = self.due();
        let Some(view) = &mut self.view else {
            unreachable!();
        };
        let taken = view.later(self.alloc, self.id, next, lent, events);
        self.settle(next, taken)
    }

    /// Takes a message after HELLO that lies in its frames, and appends the lines of its events to a text; they begin
    /// with `heads`. After `OutOfMemory` a prefix of them may be there.
    #[inline(always)]
    pub(crate) fn tell(&mut self, lent: &LentMessage<'_>, heads: &Heads, out: &mut Octets) -> Answer
        // The run has taken HELLO and refused nothing, and these begin its lines.
        requires unspent { is_spent self.old ≡ false }
        requires after_hello { is_some (view_in self.old) ≡ true }
        requires ready { IsReady self.old heads.now }
        // It is the next one: its lines.
        ensures ok { Tells result self.old self.new (message_of lent.now) out.old out.new }
        ensures unspent { OnOk result (is_spent self.new ≡ false) }
        // It isn't: the fault, and no further message is taken.
        ensures refused { RefusesToTell result self.old (message_of lent.now) out.old out.new }
        ensures spent { IfErr result (λ e. e ≢ RunFault.OutOfMemory → is_spent self.new ≡ true) }
        // What is unchanged.
        ensures view_unchanged { OnErr result (view_in self.new ≡ view_in self.old) }
        ensures ready { IsReady self.new heads.now }
        ensures id { id_of self.new ≡ id_of self.old }
    {
        let next = self.due();
        let Some(view) = &mut self.view else {
            unreachable!();
        };
        let taken = view.tell_later(self.alloc, next, lent, heads, out);
        self.settle(next, taken)
    }

    /// Refuses a HELLO after the first.
    pub(crate) fn refuse_hello(&mut self) -> RunFault
        // HELLO was taken.
        requires { is_some (view_in self.old) ≡ true }
        // The fault, and no further message is taken.
        ensures refused { (ms : List Message) (m : Message) → Stands self.old ms → is_hello m.body ≡ true →
            (may_follow ms m ≡ false) × (result ≡ fault_of ms m) }
        ensures fault { result ≡ RunFault.SecondHello }
        ensures spent { self.new ≡ record self.old { spent = true } }
    {
        self.spent = true;
        RunFault::SecondHello
    }
}

//! What a message after HELLO does to the view, and what it tells.

ghost use Rattle.std.specs.Prelude.{ℕ, ◌≡◌, ◌++◌, true, false, IfOk, IfErr, OnOk, OnErr};
ghost use Rattle.zre_msg.specs.declared.message.Body.TheVariants as bodies;
ghost use Rattle.zre_msg.specs.Content.{content_of};
ghost use Rattle.zre_msg.specs.Lent.{message_of};
ghost use Rattle.zre_peer.specs.Changes.{ChangesWithEvents, PassesLimit};
ghost use Rattle.zre_peer.specs.Runs.{events_of};
ghost use Rattle.zre_peer.specs.Views.{after, is_small};

use crate::event::{Event, Events};
use crate::hello::push_join;
use crate::peer_run::{Answer, RunFault};
use crate::view::View;
use std::alloc::Global;
use zre_msg::{LentBody, LentContent, LentMessage};
use zre_values::{Octets, OutOfMemory, PeerId};

impl View {
    // Whether the view stays within the limits with one more group.
    fn can_join(&self, group: &[u8]) -> bool
        requires { is_small self.now ≡ true }
        ensures { (status : ℕ) → result ≡ is_small (after self.now (bodies.Join group.now status)) }
    {
        self.groups.can_add(group)
    }

    // Refuses a JOIN with which the view would pass a limit.
    pub(crate) fn expect_join(&self, group: &[u8]) -> Answer
        requires { is_small self.now ≡ true }
        ensures ok { (status : ℕ) → OnOk result (is_small (after self.now (bodies.Join group.now status)) ≡ true) }
        ensures refused { (status : ℕ) → IfErr result (λ e.
            (is_small (after self.now (bodies.Join group.now status)) ≡ false) × (e ≡ RunFault.Limit)) }
    {
        if !self.can_join(group) {
            return Err(RunFault::Limit);
        }
        Ok(())
    }

    /// Adds the group of a JOIN. After an error the view is as it was.
    pub(crate) fn join(&mut self, alloc: Global, group: &[u8], status: u8) -> Answer
        ensures ok { OnOk result (self.new ≡ after self.old (bodies.Join group.now status)) }
        ensures unchanged { OnErr result (self.new ≡ self.old) }
        ensures refused { IfErr result (λ e. e ≡ RunFault.OutOfMemory) }
    {
        self.groups.insert(alloc, group)?;
        self.status = status;
        Ok(())
    }

    /// Takes away the group of a LEAVE.
    pub(crate) fn leave(&mut self, group: &[u8], status: u8)
        requires { is_small self.old ≡ true }
        ensures small { is_small (after self.old (bodies.Leave group.now status)) ≡ true }
        ensures after { self.new ≡ after self.old (bodies.Leave group.now status) }
    {
        if let Some(i) = self.groups.place_of(group) {
            self.groups.remove_at(i);
        }
        self.status = status;
    }

    // A group with the name of the peer, as an event has them.
    #[inline(always)]
    fn named(&self, alloc: Global, group: &[u8]) -> Result<(Octets, Octets), OutOfMemory>
        ensures { IfOk result (λ named. (named.0 ≡ self.now.name) × (named.1 ≡ group.now)) }
    {
        let name = self.name.try_clone()?;
        let group = Octets::copy(alloc, group)?;
        Ok((name, group))
    }

    // The event of a WHISPER.
    #[inline(always)]
    fn tell_whisper(
        &self,
        alloc: Global,
        id: PeerId,
        content: LentContent<'_>,
        events: &mut Events,
    ) -> Result<(), OutOfMemory>
        ensures { OnOk result (events.new
            ≡ events.old ++ events_of id self.now (bodies.Whisper (content_of content.entry))) }
    {
        let content = content.copy(alloc)?;
        let name = self.name.try_clone()?;
        events.push(Event::Whisper { id, name, content })
    }

    // The event of a SHOUT.
    #[inline(always)]
    fn tell_shout(
        &self,
        alloc: Global,
        id: PeerId,
        group: &[u8],
        content: LentContent<'_>,
        events: &mut Events,
    ) -> Result<(), OutOfMemory>
        ensures { OnOk result (events.new
            ≡ events.old ++ events_of id self.now (bodies.Shout group.now (content_of content.entry))) }
    {
        let content = content.copy(alloc)?;
        let name = self.name.try_clone()?;
        let group = Octets::copy(alloc, group)?;
        events.push(Event::Shout {
            id,
            name,
            group,
            content,
        })
    }

    /// Takes a message after HELLO: changes the view, and appends the events, for which its fields and its content are
    /// copied once. After an error the view is as it was.
    #[inline(always)]
    pub(crate) fn change(
        &mut self,
        alloc: Global,
        id: PeerId,
        lent: &LentMessage<'_>,
        events: &mut Events,
    ) -> Answer
        // The view is within its limits.
        requires { is_small self.old ≡ true }
        // The view and the events after it.
        ensures ok { OnOk result (ChangesWithEvents id self.old self.new (message_of lent.now).body
            events.old events.new) }
        // It is refused: nothing changes, and why.
        ensures unchanged { OnErr result (self.new ≡ self.old) }
        ensures refused { PassesLimit result self.old (message_of lent.now).body events.old events.new }
    {
        match lent.command {
            LentBody::Join { group, status } => {
                self.expect_join(group)?;
                push_join(alloc, events, id, &self.name, group)?;
                self.join(alloc, group, status)
            }
            LentBody::Leave { group, status } => {
                let (name, told) = self.named(alloc, group)?;
                events.push(Event::Leave {
                    id,
                    name,
                    group: told,
                })?;
                self.leave(group, status);
                Ok(())
            }
            LentBody::Whisper => Ok(self.tell_whisper(alloc, id, lent.content, events)?),
            LentBody::Shout { group } => {
                Ok(self.tell_shout(alloc, id, group, lent.content, events)?)
            }
            LentBody::Ping | LentBody::PingOk => Ok(()),
            LentBody::Other { .. } => Ok(()),
        }
    }
}

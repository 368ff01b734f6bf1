//! Links stand, are answered, take what they were offered, and break.

ghost use Rattle.std.specs.Prelude.{◌≡◌, ℕ, length, List, [], ◌∷◌, ◌++◌, true, false, None, OnOk, IfOk, IfSome};
ghost use Rattle.std.specs.Prelude.{◌+◌, ◌≤◌};
ghost use Rattle.std.specs.Prelude.{IsSome, if◌then◌else◌, nat_eq, ◌||◌};
ghost use Rattle.std.specs.List.{list_any};
ghost use Rattle.zre_outside.specs.declared.entry.Entry.{Entry as EntryValue};
ghost use Rattle.zre_outside.specs.declared.entry.Input.TheVariants as given;
ghost use Rattle.zre_zmtp.specs.Looks.{Looks};
ghost use Rattle.zre_values.specs.declared.settings.Settings.{Settings as Config};
ghost use Rattle.zre_journal.specs.Chronicle.{Mark, Comes, after};
ghost use Rattle.zre_journal.specs.Peers.{life};
ghost use Rattle.zre_journal.specs.Happens.{at_input, with_entry};
ghost use Rattle.zre_journal.specs.Held.{kept};
ghost use Rattle.zre_journal.specs.LinkEntries.{at_linked, at_reply, at_unlinked, at_took, end_by};
ghost use Rattle.zre_node.specs.Journal.{Took};
ghost use Rattle.zre_node.specs.Kinds.{is_about_link};
ghost use Rattle.zre_node.specs.Links.{Notes, IsReplied};
ghost use Rattle.zre_node.specs.Stands.{Holds, Did};

use crate::effects::Effects;
use crate::incoming::hearing::Piece;
use crate::tables::Tables;
use std::sync::ledger::Ledger;
use zre_outside::Input;
use zre_peer::Cause;
use zre_values::OutOfMemory;
use zre_zmtp::Steps;

/// The link that an entry names is noted, so that what it has to send is offered.
pub fn note(out: &mut Effects, input: &Input) -> Result<(), OutOfMemory>
    ensures { OnOk result (Notes input.now out.old out.new) }
{
    match input {
        Input::Linked { link } | Input::Reply { link, .. } | Input::Took { link, .. } => {
            out.pushed.push(*link)
        }
        _ => Ok(()),
    }
}

impl Tables {
    // The link of a known peer stands.
    fn linked(&mut self, link: u64)
        ensures { (g : Config) (K : List Mark) → Holds g K self.old →
            Holds g (after (at_linked g link (life link K) K) K) self.new }
    {
        self.peers.linked(link);
    }

    // So many octets of the link of a known peer have gone out, or as many as might.
    fn took(&mut self, link: u64, count: u64)
        ensures { (g : Config) (K : List Mark) → Holds g K self.old →
            Holds g (after (at_took g link count (life link K) K) K) self.new }
    {
        self.peers.took(link, count);
    }

    // The link of a known peer broke, and the peer ends.
    fn unlinked(&mut self, out: &mut Effects, link: u64) -> Result<(), OutOfMemory>
        ensures { (g : Config) (K : List Mark) → Holds g K self.old →
            OnOk result (Did g (at_unlinked g link (life link K)) K self.new out.old out.new) }
    {
        if !self.peers.contains(link) {
            return Ok(());
        }
        self.end(out, link, Cause::Link)
    }

    // The clock goes on to the reading of an entry with a reply on a link, whose PINGs are answered: why the reply ends
    // its peer, if it does.
    fn come_reply<L: Ledger>(
        &mut self,
        reply: &Piece<'_>,
        steps: &mut Steps<L>,
    ) -> Result<Option<Cause>, OutOfMemory>
        ensures came { (g : Config) (H : List Mark) (e : EntryValue) → e.at ≡ reply.now.at
            → e.input ≡ given.Reply reply.now.from reply.now.bytes.now → Holds g H self.old →
            IfOk result (λ why. IsReplied g H e reply.now.from why self.new) }
        ensures once { steps.new ≤ steps.old + length reply.now.bytes.now }
        ensures looks { (g : Config) (H : List Mark) (e : EntryValue) →
            e.input ≡ given.Reply reply.now.from reply.now.bytes.now → Holds g H self.old →
            Looks steps.old steps.new (kept g H) (kept g (Comes e ∷ H)) (length reply.now.bytes.now) result }
    {
        self.clock = reply.at.max(self.clock);
        self.peers.reply(reply.from, reply.bytes, steps)
    }

    /// What an entry about a link brings, but for replies.
    pub fn bring_link(&mut self, out: &mut Effects, input: Input) -> Result<(), OutOfMemory>
        ensures { (g : Config) (H K : List Mark) → is_about_link input ≡ true → Holds g K self.old →
            OnOk result (Did g (at_input g input H K) K self.new out.old out.new) }
    {
        match input {
            Input::Linked { link } => {
                self.linked(link);
                Ok(())
            }
            Input::Unlinked { link } => self.unlinked(out, link),
            Input::Took { link, count } => {
                self.took(link, count);
                Ok(())
            }
            _ => Ok(()),
        }
    }

    /// A reply comes on a link: its PINGs are answered. Where a PONG has no room, and else where the replies are no
    /// stream of a ROUTER, the peer ends.
    #[inline(never)]
    pub fn take_reply<L: Ledger>(
        &mut self,
        out: &mut Effects,
        reply: &Piece<'_>,
        steps: &mut Steps<L>,
    ) -> Result<(), OutOfMemory>
        ensures took { (g : Config) (H : List Mark) (e : EntryValue) → e.at ≡ reply.now.at
            → e.input ≡ given.Reply reply.now.from reply.now.bytes.now →
            out.old.pushed ≡ [] → Holds g H self.old → OnOk result (Took g e H self.new out.old out.new) }
        ensures once { steps.new ≤ steps.old + length reply.now.bytes.now }
        ensures looks { (g : Config) (H : List Mark) (e : EntryValue) →
            e.input ≡ given.Reply reply.now.from reply.now.bytes.now → Holds g H self.old →
            Looks steps.old steps.new (kept g H) (kept g (with_entry g e H)) (length reply.now.bytes.now) result }
    {
        out.pushed.push(reply.from)?;
        let why = self.come_reply(reply, steps)?;
        self.end_by_reply(out, reply.from, why)?;
        self.offer(out)
    }

    // The known peer of a link ends, where there is a cause.
    fn end_by_reply(
        &mut self,
        out: &mut Effects,
        link: u64,
        why: Option<Cause>,
    ) -> Result<(), OutOfMemory>
        ensures { (g : Config) (K : List Mark) → Holds g K self.old → IfSome why (λ cause. IsSome (life link K)) →
            OnOk result (Did g (end_by g link why) K self.new out.old out.new) }
    {
        match why {
            Some(cause) => self.end(out, link, cause),
            None => Ok(()),
        }
    }
}

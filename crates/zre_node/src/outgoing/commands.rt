//! What the user asks for.

ghost use Rattle.std.specs.Prelude.{◌≡◌, List, [], ◌∷◌, true, false, OnOk, MatchOption};
ghost use Rattle.zre_outside.specs.declared.entry.Entry.{Entry as EntryValue};
ghost use Rattle.zre_outside.specs.declared.entry.Input.TheVariants as given;
ghost use Rattle.zre_journal.specs.Endings.{is_end};
ghost use Rattle.zre_values.specs.declared.settings.Settings.{Settings as Config};
ghost use Rattle.zre_journal.specs.Chronicle.{Mark, Refuses};
ghost use Rattle.zre_journal.specs.Peers.{Life, life_of, is_entered};
ghost use Rattle.zre_journal.specs.Commands.{at_join, at_leave, at_whisper, at_shout, at_command};
ghost use Rattle.zre_node.specs.declared.tables.Tables.{Tables as TablesValue};
ghost use Rattle.zre_node.specs.Journal.{Took};
ghost use Rattle.zre_node.specs.Stands.{Holds, Did, Does};

use crate::effects::Effects;
use crate::tables::Tables;
use zre_group::JoinFault;
use zre_link::Tail;
use zre_msg::{Body, Message};
use zre_outside::Command;
use zre_peer::{Event, RefuseWhy};
use zre_values::limits::{GROUP_OCTETS, OWN_GROUPS};
use zre_values::{Frames, Octets, OutOfMemory, PeerId};

// A command isn't done, and the user is told why. The tables stay as they are.
fn decline(out: &mut Effects, why: RefuseWhy) -> Result<(), OutOfMemory>
    ensures { (g : Config) (K : List Mark) (t : TablesValue) → Holds g K t →
        OnOk result (Did g (Refuses why ∷ []) K t out.old out.new) }
{
    out.tell(Event::Refused { why })
}

impl Tables {
    // The node joins a group, and tells all peers so.
    fn join(&mut self, out: &mut Effects, group: Octets) -> Result<(), OutOfMemory>
        ensures { Does (λ g K. at_join g group K) self.old self.new out.old out.new result }
    {
        if group.len() > GROUP_OCTETS {
            return decline(out, RefuseWhy::TooBig);
        }
        prove!(self.own.len() <= OWN_GROUPS);
        match self.own.join(group.as_slice()) {
            Ok(status) => self.push_everywhere(out, &mut Body::Join { group, status }),
            Err(JoinFault::Same) => decline(out, RefuseWhy::Same(group)),
            Err(JoinFault::Limit) => decline(out, RefuseWhy::Limit(group)),
            Err(JoinFault::OutOfMemory) => Err(OutOfMemory),
        }
    }

    // The node leaves a group, and tells all peers so. None of its groups has a name that is too long to be joined.
    fn leave(&mut self, out: &mut Effects, group: Octets) -> Result<(), OutOfMemory>
        ensures { Does (λ g K. at_leave g group K) self.old self.new out.old out.new result }
    {
        if group.len() > GROUP_OCTETS {
            return decline(out, RefuseWhy::NoGroup(group));
        }
        match self.own.leave(group.as_slice()) {
            Ok(status) => self.push_everywhere(out, &mut Body::Leave { group, status }),
            Err(_) => decline(out, RefuseWhy::NoGroup(group)),
        }
    }

    // The link of the entered peer with this id.
    fn entered(&self, id: PeerId) -> Option<u64>
        ensures { (g : Config) (K : List Mark) → Holds g K self.now →
            MatchOption result ((v : Life) → life_of id K ≡ Some v → is_entered K v ≡ false)
            (λ l. (v : Life) × (life_of id K ≡ Some v) × (is_entered K v ≡ true) × (v.link ≡ l)) }
    {
        let Some(link) = self.peers.link_of(id) else {
            return None;
        };
        let Some(peer) = self.peers.get(link) else {
            return None;
        };
        if !peer.is_entered() {
            return None;
        }
        Some(link)
    }

    // Content is sent to one peer.
    fn whisper(
        &mut self,
        out: &mut Effects,
        peer: PeerId,
        content: Frames,
    ) -> Result<(), OutOfMemory>
        ensures { Does (λ g K. at_whisper g peer content (life_of peer K) K) self.old self.new out.old out.new result }
    {
        let Some(link) = self.entered(peer) else {
            return decline(out, RefuseWhy::NoPeer(peer));
        };
        let mut message = Message {
            sequence: 0,
            body: Body::Whisper { content },
        };
        if message.is_big() {
            return decline(out, RefuseWhy::TooBig);
        }
        self.push(out, link, &mut message.body)
    }

    // Content is sent to the peers that are in a group. It's spelled once for all of them.
    fn shout(
        &mut self,
        out: &mut Effects,
        group: Octets,
        content: Frames,
    ) -> Result<(), OutOfMemory>
        ensures { Does (λ g K. at_shout g group content K) self.old self.new out.old out.new result }
    {
        if group.len() > GROUP_OCTETS {
            return decline(out, RefuseWhy::TooBig);
        }
        let links = self.peers.members(group.as_slice())?;
        let message = Message {
            sequence: 0,
            body: Body::Shout { group, content },
        };
        if message.is_big() {
            drop(message);
            return decline(out, RefuseWhy::TooBig);
        }
        let Body::Shout { group, content } = &message.body else {
            unreachable!()
        };
        let tail = Tail::of(self.alloc, content)?;
        let shouted = self.shout_all(out, links.as_slice(), group.as_slice(), &tail);
        drop(message);
        shouted
    }

    // What a command brings, but for the one that stops the node.
    fn command(&mut self, out: &mut Effects, command: Command) -> Result<(), OutOfMemory>
        ensures { (g : Config) (K : List Mark) → is_end (given.Do command) ≡ false → Holds g K self.old →
            OnOk result (Did g (at_command g command K) K self.new out.old out.new) }
    {
        match command {
            Command::Join { group } => self.join(out, group),
            Command::Leave { group } => self.leave(out, group),
            Command::Whisper { peer, content } => self.whisper(out, peer, content),
            Command::Shout { group, content } => self.shout(out, group, content),
            Command::Bad { line } => decline(out, RefuseWhy::BadLine(line)),
            Command::Quit => Ok(()),
        }
    }

    /// The user asks for something, but not for the stop of the node.
    #[inline(never)]
    pub fn take_command(
        &mut self,
        out: &mut Effects,
        at: u64,
        command: Command,
    ) -> Result<(), OutOfMemory>
        ensures { (g : Config) (H : List Mark) (e : EntryValue) → e.at ≡ at → e.input ≡ given.Do command
            → is_end (given.Do command) ≡ false →
            out.old.pushed ≡ [] → Holds g H self.old → OnOk result (Took g e H self.new out.old out.new) }
    {
        self.come(at);
        self.command(out, command)?;
        self.offer(out)
    }
}

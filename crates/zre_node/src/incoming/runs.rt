//! Messages, and the runs of peers that they make.

ghost use Rattle.std.specs.Prelude.{◌≡◌, ◌≢◌, List, ◌∷◌, [], ◌++◌, None, Some, OnOk, IfErr, OnErr, IfOk, IsSome};
ghost use Rattle.std.specs.Prelude.{true, false, ℕ, if◌then◌else◌};
ghost use Rattle.std.specs.Result.{result_ok};
ghost use Rattle.zre_msg.specs.Commands.{body_of};
ghost use Rattle.zre_msg.specs.Lent.{message_of};
ghost use Rattle.zre_msg.specs.Reading.{read_frames};
ghost use Rattle.zre_values.specs.declared.settings.Settings.{Settings as Config};
ghost use Rattle.zre_journal.specs.Chronicle.{Mark};
ghost use Rattle.zre_journal.specs.Arrivals.{at_later};
ghost use Rattle.zre_journal.specs.Pushes.{push as pushing};
ghost use Rattle.zre_journal.specs.Peers.{life};
ghost use Rattle.zre_msg.specs.declared.message.Body.TheVariants.{PingOk};
ghost use Rattle.zre_zmtp.specs.Lending.{bodies_in};
ghost use Rattle.zre_node.specs.Said.{at_read};
ghost use Rattle.zre_node.specs.Stands.{Holds, Did, DoesOnRun, is_ping};

use crate::effects::Effects;
use crate::tables::Tables;
use std::alloc::Global;
use zre_msg::{Body, LentBody, LentMessage, Message, ReadFault};
use zre_peer::{Cause, RunFault, lent};
use zre_values::{Frames, Octets, OutOfMemory};
use zre_zmtp::LentBodies;

fn is_ping(command: &LentBody<'_>) -> bool
    ensures { (more : List (List ℕ)) → result ≡ is_ping (body_of command.now more) }
{
    matches!(command, LentBody::Ping)
}

/// Copies of lent bodies, as the frames of a message.
pub fn copied(alloc: Global, bodies: &LentBodies<'_>) -> Result<Frames, OutOfMemory>
    ensures { IfOk result (λ frames. frames ≡ bodies_in bodies.now) }
{
    let mut frames = Frames::of(alloc, Octets::copy(alloc, bodies.first)?);
    if let Some(second) = bodies.second {
        frames.push(Octets::copy(alloc, second)?)?;
    }
    Ok(frames)
}

impl Tables {
    /// A message after the first, which lies in its frames, on the connection that runs the peer of this link.
    #[inline(always)]
    pub fn later(
        &mut self,
        out: &mut Effects,
        link: u64,
        lent: &LentMessage<'_>,
    ) -> Result<(), OutOfMemory>
        ensures { DoesOnRun link (λ g H conn. at_later g conn link (message_of lent.now) H)
            self.old self.new out.old out.new result }
    {
        let ping = is_ping(&lent.command);
        match self.peers.take(link, self.clock, lent, &mut out.events) {
            Ok(()) => self.answer_ping(out, link, ping),
            Err(RunFault::SecondHello) => self.end(out, link, Cause::Hello),
            Err(RunFault::Broken { due, got }) => self.end(out, link, Cause::Order { due, got }),
            Err(RunFault::Limit) => self.end(out, link, Cause::Limit),
            Err(RunFault::NotHello) => Err(OutOfMemory),
            Err(RunFault::OutOfMemory) => Err(OutOfMemory),
        }
    }

    /// A message after the first, which stands by itself, on the connection that runs the peer of this link.
    #[inline(never)]
    pub fn later_whole(
        &mut self,
        out: &mut Effects,
        link: u64,
        message: &Message,
    ) -> Result<(), OutOfMemory>
        ensures { DoesOnRun link (λ g H conn. at_later g conn link message.now H)
            self.old self.new out.old out.new result }
    {
        match lent(message) {
            Some(lent) => self.later(out, link, &lent),
            None => self.end(out, link, Cause::Hello),
        }
    }

    /// The message that the frames mean, if they mean one, on the connection that runs the peer of this link.
    pub fn later_in(
        &mut self,
        out: &mut Effects,
        link: u64,
        frames: &Frames,
    ) -> Result<(), OutOfMemory>
        ensures { DoesOnRun link (λ g H conn. at_read g conn link (result_ok (read_frames frames.now)) H)
            self.old self.new out.old out.new result }
    {
        match Message::see(frames) {
            Ok(Some(lent)) => self.later(out, link, &lent),
            Ok(None) => self.hello_in(out, link, frames),
            Err(ReadFault::Bad(_)) => Ok(()),
            Err(ReadFault::OutOfMemory) => Err(OutOfMemory),
        }
    }

    /// The message that lent bodies mean, if they mean one, on the connection that runs the peer of this link.
    pub fn later_lent(
        &mut self,
        out: &mut Effects,
        link: u64,
        bodies: &LentBodies<'_>,
    ) -> Result<(), OutOfMemory>
        ensures { DoesOnRun link (λ g H conn. at_read g conn link (result_ok (read_frames (bodies_in bodies.now))) H)
            self.old self.new out.old out.new result }
    {
        match Message::see_in(bodies.first, bodies.second) {
            Ok(Some(lent)) => self.later(out, link, &lent),
            Ok(None) => self.hello_lent(out, link, bodies),
            Err(ReadFault::Bad(_)) => Ok(()),
            Err(ReadFault::OutOfMemory) => Err(OutOfMemory),
        }
    }

    // The message of lent bodies that begin as HELLO does, if they mean one.
    #[cold]
    #[inline(never)]
    fn hello_lent(
        &mut self,
        out: &mut Effects,
        link: u64,
        bodies: &LentBodies<'_>,
    ) -> Result<(), OutOfMemory>
        ensures { DoesOnRun link (λ g H conn. at_read g conn link (result_ok (read_frames (bodies_in bodies.now))) H)
            self.old self.new out.old out.new result }
    {
        let frames = copied(self.alloc, bodies)?;
        self.hello_in(out, link, &frames)
    }

    // The message of frames that begin as HELLO does, if they mean one: a further HELLO ends the peer.
    #[inline(never)]
    fn hello_in(&mut self, out: &mut Effects, link: u64, frames: &Frames) -> Result<(), OutOfMemory>
        ensures { DoesOnRun link (λ g H conn. at_read g conn link (result_ok (read_frames frames.now)) H)
            self.old self.new out.old out.new result }
    {
        match Message::read(self.alloc, frames) {
            Ok(message) => self.later_whole(out, link, &message),
            Err(ReadFault::Bad(_)) => Ok(()),
            Err(ReadFault::OutOfMemory) => Err(OutOfMemory),
        }
    }

    // PING is answered.
    fn answer_ping(&mut self, out: &mut Effects, link: u64, ping: bool) -> Result<(), OutOfMemory>
        ensures { (g : Config) (K : List Mark) → Holds g K self.old → IsSome (life link K) →
            OnOk result (Did g (if ping then pushing g link PingOk K else []) K self.new out.old out.new) }
    {
        if ping {
            self.push(out, link, &mut Body::PingOk)
        } else {
            Ok(())
        }
    }
}

//! What a message after HELLO does to the view, with the lines of its events in place of the events.

ghost use Rattle.std.specs.Prelude.{◌≡◌, ◌++◌, true, OnOk, OnErr};
ghost use Rattle.zre_msg.specs.declared.message.Body.TheVariants as bodies;
ghost use Rattle.zre_msg.specs.Content.{content_of};
ghost use Rattle.zre_msg.specs.Lent.{message_of};
ghost use Rattle.zre_peer.specs.Changes.{Changes, TellsLines, PassesLimit};
ghost use Rattle.zre_peer.specs.Lines.{content_end, group_end, lines, shout_end};
ghost use Rattle.zre_peer.specs.Heads.{heads_of};
ghost use Rattle.zre_peer.specs.Runs.{events_of};
ghost use Rattle.zre_peer.specs.Views.{is_small};
ghost use Rattle.zre_values.specs.declared.peer_id.PeerId.{PeerId};

use crate::heads::Heads;
use crate::line::push_content_end;
use crate::peer_run::Answer;
use crate::view::View;
use std::alloc::Global;
use zre_msg::{LentBody, LentContent, LentMessage};
use zre_values::{Octets, OutOfMemory, push_field};

// Appends some octets as they are, and frames of content that end a line.
fn push_lent_end(
    out: &mut Octets,
    before: &[u8],
    content: LentContent<'_>,
) -> Result<(), OutOfMemory>
    ensures { OnOk result (out.new ≡ out.old ++ before.now ++ content_end (content_of content.entry)) }
{
    let frames = match content {
        LentContent::One(Some(frame)) => return push_field(out, before, frame, b'\n'),
        LentContent::One(None) => &[],
        LentContent::Frames(frames) => frames,
    };
    out.append(before)?;
    push_content_end(out, frames)
}

// The beginning of a line, and a group.
fn push_group(out: &mut Octets, head: &Octets, group: &[u8]) -> Result<(), OutOfMemory>
    ensures { OnOk result (out.new ≡ out.old ++ head.now ++ group_end group.now) }
{
    push_field(out, head.as_slice(), group, b'\n')
}

fn push_whisper(
    out: &mut Octets,
    heads: &Heads,
    content: LentContent<'_>,
) -> Result<(), OutOfMemory>
    ensures { (id : PeerId) (view : View) → heads.now ≡ heads_of id view.name →
        OnOk result (out.new ≡ out.old ++ lines (events_of id view (bodies.Whisper (content_of content.entry)))) }
{
    push_lent_end(out, heads.whisper.as_slice(), content)
}

fn push_shout(
    out: &mut Octets,
    heads: &Heads,
    group: &[u8],
    content: LentContent<'_>,
) -> Result<(), OutOfMemory>
    ensures { (id : PeerId) (view : View) → heads.now ≡ heads_of id view.name →
        OnOk result (out.new
        ≡ out.old ++ lines (events_of id view (bodies.Shout group.now (content_of content.entry)))) }
{
    push_field(out, heads.shout.as_slice(), group, b' ')?;
    push_lent_end(out, &[], content)
}

impl View {
    /// Takes a message that is no HELLO: changes the view, and appends the lines of its events, which begin with
    /// `heads`. After an error the view is as it was.
    #[inline(always)]
    pub(crate) fn tell_change(
        &mut self,
        alloc: Global,
        lent: &LentMessage<'_>,
        heads: &Heads,
        out: &mut Octets,
    ) -> Answer
        // The view is within its limits.
        requires { is_small self.old ≡ true }
        // The view after it, and the lines of its events.
        ensures ok { OnOk result (Changes self.old self.new (message_of lent.now).body) }
        ensures lines { TellsLines result heads.now self.old (message_of lent.now).body out.old out.new }
        // It is refused: nothing changes, and why.
        ensures unchanged { OnErr result (self.new ≡ self.old) }
        ensures refused { PassesLimit result self.old (message_of lent.now).body out.old out.new }
    {
        match lent.command {
            LentBody::Join { group, status } => {
                self.expect_join(group)?;
                push_group(out, &heads.join, group)?;
                self.join(alloc, group, status)
            }
            LentBody::Leave { group, status } => {
                push_group(out, &heads.leave, group)?;
                self.leave(group, status);
                Ok(())
            }
            LentBody::Whisper => Ok(push_whisper(out, heads, lent.content)?),
            LentBody::Shout { group } => Ok(push_shout(out, heads, group, lent.content)?),
            LentBody::Ping | LentBody::PingOk => Ok(()),
            LentBody::Other { .. } => Ok(()),
        }
    }
}

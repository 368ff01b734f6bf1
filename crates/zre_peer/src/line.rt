//! The lines of events.

ghost use Rattle.std.specs.Prelude.{◌≡◌, ◌++◌, OnOk, IfOk, codes, decimal};
ghost use Rattle.zre_peer.specs.Lines.{who_text, content_end, enter_end, group_end, shout_end, line, lines};
ghost use Rattle.zre_peer.specs.declared.event.Event.TheVariants as kinds;

use crate::cause_text::{push_cause, push_close, push_ignore, push_refusal};
use crate::causes::{Cause, CloseWhy, IgnoreWhy, RefuseWhy};
use crate::event::Event;
use std::alloc::Global;
use zre_values::{
    Octets, OutOfMemory, Pairs, PeerId, push_decimal, push_field, push_quoted_list,
    push_quoted_pairs,
};

/// Appends the identity and the name of a peer, as they stand after the word of an event that has further fields.
pub(crate) fn push_who(out: &mut Octets, id: PeerId, name: &[u8]) -> Result<(), OutOfMemory>
    ensures { OnOk result (out.new ≡ out.old ++ who_text id name.now) }
{
    push_field(out, &id.write_spaced(), name, b' ')
}

/// Appends a group that ends a line.
pub(crate) fn push_group_end(out: &mut Octets, group: &[u8]) -> Result<(), OutOfMemory>
    ensures { OnOk result (out.new ≡ out.old ++ group_end group.now) }
{
    push_field(out, &[], group, b'\n')
}

/// Appends frames of content that end a line.
pub(crate) fn push_content_end(out: &mut Octets, content: &[Octets]) -> Result<(), OutOfMemory>
    ensures { OnOk result (out.new ≡ out.old ++ content_end content.now) }
{
    push_quoted_list(out, content)?;
    out.push(b'\n')
}

/// Appends a group and frames of content that end a line.
pub(crate) fn push_shout_end(
    out: &mut Octets,
    group: &[u8],
    content: &[Octets],
) -> Result<(), OutOfMemory>
    ensures { OnOk result (out.new ≡ out.old ++ shout_end group.now content.now) }
{
    push_field(out, &[], group, b' ')?;
    push_content_end(out, content)
}

// The word of an event, and who it is of.
fn push_head(out: &mut Octets, word: &[u8], id: PeerId, name: &Octets) -> Result<(), OutOfMemory>
    ensures { OnOk result (out.new ≡ out.old ++ word.now ++ who_text id name.now) }
{
    out.append(word)?;
    push_who(out, id, name.as_slice())
}

fn push_enter_end(out: &mut Octets, endpoint: &Octets, headers: &Pairs) -> Result<(), OutOfMemory>
    ensures { OnOk result (out.new ≡ out.old ++ enter_end endpoint.now headers.now) }
{
    push_field(out, &[], endpoint.as_slice(), b' ')?;
    push_quoted_pairs(out, headers)?;
    out.push(b'\n')
}

fn push_evasive(out: &mut Octets, id: PeerId, name: &Octets) -> Result<(), OutOfMemory>
    ensures { OnOk result (out.new ≡ out.old ++ line (kinds.Evasive id name.now)) }
{
    out.append(b"EVASIVE ")?;
    push_field(out, &id.write_spaced(), name.as_slice(), b'\n')
}

fn push_exit(out: &mut Octets, id: PeerId, name: &Octets, cause: Cause) -> Result<(), OutOfMemory>
    ensures { OnOk result (out.new ≡ out.old ++ line (kinds.Exit id name.now cause)) }
{
    push_head(out, b"EXIT ", id, name)?;
    push_cause(out, cause)?;
    out.push(b'\n')
}

// The word of an event, and the number of a connection.
fn push_conn(out: &mut Octets, word: &[u8], conn: u64) -> Result<(), OutOfMemory>
    ensures { OnOk result (out.new ≡ out.old ++ word.now ++ decimal conn ++ codes " ") }
{
    out.append(word)?;
    push_decimal(out, conn)?;
    out.push(b' ')
}

fn push_closed(out: &mut Octets, conn: u64, why: CloseWhy) -> Result<(), OutOfMemory>
    ensures { OnOk result (out.new ≡ out.old ++ line (kinds.Closed conn why)) }
{
    push_conn(out, b"CLOSED ", conn)?;
    push_close(out, why)?;
    out.push(b'\n')
}

fn push_ignored(out: &mut Octets, conn: u64, why: IgnoreWhy) -> Result<(), OutOfMemory>
    ensures { OnOk result (out.new ≡ out.old ++ line (kinds.Ignored conn why)) }
{
    push_conn(out, b"IGNORED ", conn)?;
    push_ignore(out, why)?;
    out.push(b'\n')
}

fn push_refused(out: &mut Octets, why: &RefuseWhy) -> Result<(), OutOfMemory>
    ensures { OnOk result (out.new ≡ out.old ++ line (kinds.Refused why.now)) }
{
    out.append(b"REFUSED ")?;
    push_refusal(out, why)?;
    out.push(b'\n')
}

/// Appends the line of an event. After an error a prefix of it may have been appended.
pub fn push_line(out: &mut Octets, event: &Event) -> Result<(), OutOfMemory>
    ensures { OnOk result (out.new ≡ out.old ++ line event.now) }
{
    match event {
        Event::Enter {
            id,
            name,
            endpoint,
            headers,
        } => {
            push_head(out, b"ENTER ", *id, name)?;
            push_enter_end(out, endpoint, headers)
        }
        Event::Join { id, name, group } => {
            push_head(out, b"JOIN ", *id, name)?;
            push_group_end(out, group.as_slice())
        }
        Event::Leave { id, name, group } => {
            push_head(out, b"LEAVE ", *id, name)?;
            push_group_end(out, group.as_slice())
        }
        Event::Whisper { id, name, content } => {
            push_head(out, b"WHISPER ", *id, name)?;
            push_content_end(out, content.as_slice())
        }
        Event::Shout {
            id,
            name,
            group,
            content,
        } => {
            push_head(out, b"SHOUT ", *id, name)?;
            push_shout_end(out, group.as_slice(), content.as_slice())
        }
        Event::Evasive { id, name } => push_evasive(out, *id, name),
        Event::Exit { id, name, cause } => push_exit(out, *id, name, *cause),
        Event::Stop => out.append(b"STOP\n"),
        Event::Closed { conn, why } => push_closed(out, *conn, *why),
        Event::Ignored { conn, why } => push_ignored(out, *conn, *why),
        Event::Refused { why } => push_refused(out, why),
    }
}

/// Appends the lines of some events. After an error a prefix of them may have been appended.
pub fn push_lines(out: &mut Octets, events: &[Event]) -> Result<(), OutOfMemory>
    ensures { OnOk result (out.new ≡ out.old ++ lines events.now) }
{
    for event in events {
        push_line(out, event)?;
    }
    Ok(())
}

impl Event {
    /// The line of the event, with its line feed.
    pub fn write(&self, alloc: Global) -> Result<Octets, OutOfMemory>
        ensures { IfOk result (λ text. text ≡ line self.now) }
    {
        let mut text = Octets::new(alloc);
        push_line(&mut text, self)?;
        Ok(text)
    }
}

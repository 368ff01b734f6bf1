//! The texts of what messages mean.

ghost use Rattle.std.specs.Prelude.{◌≡◌, ◌++◌, true, Ok, OnOk};
ghost use Rattle.zre_msg.specs.Content.{content_of};
ghost use Rattle.zre_msg.specs.Lent.{message_of};
ghost use Rattle.zre_peer.specs.Runs.{is_hello};
ghost use Rattle.zre_values.specs.Text.{quoted_list};
ghost use Rattle.zre_commands.specs.show.Lines.{head_text, place_text, sender_text, whisper_text, shout_text};
ghost use Rattle.zre_commands.specs.show.Lines.{change_text, other_text, meaning_text, why_text};
ghost use Rattle.zre_commands.specs.show.Lines.{bad_text};

use zre_msg::{Bad, BadWhy, Body, LentBody, LentContent, LentMessage, Message};
use zre_peer::lent;
use zre_values::{
    Frames, Octets, OutOfMemory, Pairs, push_decimal, push_quoted, push_quoted_frames,
    push_quoted_list, push_quoted_pairs,
};

fn push_head(out: &mut Octets, word: &[u8], sequence: u16) -> Result<(), OutOfMemory>
    ensures { OnOk result (out.new ≡ out.old ++ head_text word.now sequence) }
{
    out.append(word)?;
    out.push(b' ')?;
    push_decimal(out, u64::from(sequence))
}

fn push_sender(out: &mut Octets, name: &Octets, headers: &Pairs) -> Result<(), OutOfMemory>
    ensures { OnOk result (out.new ≡ out.old ++ sender_text name.now headers.now) }
{
    out.push(b' ')?;
    push_quoted(out, name.as_slice())?;
    out.push(b' ')?;
    push_quoted_pairs(out, headers)
}

// Where the sender of HELLO is reached, its groups and its status, after the head.
fn push_place(
    out: &mut Octets,
    endpoint: &Octets,
    groups: &Frames,
    status: u8,
) -> Result<(), OutOfMemory>
    ensures { OnOk result (out.new ≡ out.old ++ place_text endpoint.now groups.now status) }
{
    out.push(b' ')?;
    push_quoted(out, endpoint.as_slice())?;
    out.push(b' ')?;
    push_quoted_frames(out, groups)?;
    out.push(b' ')?;
    push_decimal(out, u64::from(status))
}

// The frames after the first of a message.
fn push_content(out: &mut Octets, content: LentContent<'_>) -> Result<(), OutOfMemory>
    ensures { OnOk result (out.new ≡ out.old ++ quoted_list (content_of content.entry)) }
{
    match content {
        LentContent::Frames(frames) => push_quoted_list(out, frames),
        LentContent::One(Some(frame)) => push_quoted(out, frame),
        LentContent::One(None) => push_quoted_list(out, &[]),
    }
}

fn push_whisper(
    out: &mut Octets,
    sequence: u16,
    content: LentContent<'_>,
) -> Result<(), OutOfMemory>
    ensures { OnOk result (out.new ≡ out.old ++ whisper_text sequence (content_of content.entry)) }
{
    push_head(out, b"WHISPER", sequence)?;
    out.push(b' ')?;
    push_content(out, content)
}

fn push_shout(
    out: &mut Octets,
    sequence: u16,
    group: &[u8],
    content: LentContent<'_>,
) -> Result<(), OutOfMemory>
    ensures { OnOk result (out.new ≡ out.old ++ shout_text sequence group.now (content_of content.entry)) }
{
    push_head(out, b"SHOUT", sequence)?;
    out.push(b' ')?;
    push_quoted(out, group)?;
    out.push(b' ')?;
    push_content(out, content)
}

// The group and the status of a change, after the head.
fn push_change(out: &mut Octets, group: &[u8], status: u8) -> Result<(), OutOfMemory>
    ensures { OnOk result (out.new ≡ out.old ++ change_text group.now status) }
{
    out.push(b' ')?;
    push_quoted(out, group)?;
    out.push(b' ')?;
    push_decimal(out, u64::from(status))
}

fn push_other(out: &mut Octets, sequence: u16, number: u8) -> Result<(), OutOfMemory>
    ensures { OnOk result (out.new ≡ out.old ++ other_text sequence number) }
{
    push_head(out, b"OTHER", sequence)?;
    out.push(b' ')?;
    push_decimal(out, u64::from(number))
}

/// Appends the text of a message that lies in its frames. After an error a front of it may stand there, as after every
/// call of this module.
#[inline(always)]
pub(crate) fn push_lent(out: &mut Octets, lent: &LentMessage<'_>) -> Result<(), OutOfMemory>
    ensures { OnOk result (out.new ≡ out.old ++ meaning_text (Ok (message_of lent.now))) }
{
    let sequence = lent.sequence;
    match lent.command {
        LentBody::Whisper => push_whisper(out, sequence, lent.content),
        LentBody::Shout { group } => push_shout(out, sequence, group, lent.content),
        LentBody::Join { group, status } => {
            push_head(out, b"JOIN", sequence)?;
            push_change(out, group, status)
        }
        LentBody::Leave { group, status } => {
            push_head(out, b"LEAVE", sequence)?;
            push_change(out, group, status)
        }
        LentBody::Ping => push_head(out, b"PING", sequence),
        LentBody::PingOk => push_head(out, b"PING-OK", sequence),
        LentBody::Other { number, .. } => push_other(out, sequence, number),
    }
}

// Appends the text of a HELLO.
fn push_hello(out: &mut Octets, message: &Message) -> Result<(), OutOfMemory>
    requires { is_hello message.now.body ≡ true }
    ensures { OnOk result (out.new ≡ out.old ++ meaning_text (Ok message.now)) }
{
    if let Body::Hello {
        endpoint,
        groups,
        status,
        name,
        headers,
    } = &message.body
    {
        push_head(out, b"HELLO", message.sequence)?;
        push_place(out, endpoint, groups, *status)?;
        push_sender(out, name, headers)?;
    }
    Ok(())
}

/// Appends the text of a message.
pub(crate) fn push_message(out: &mut Octets, message: &Message) -> Result<(), OutOfMemory>
    ensures { OnOk result (out.new ≡ out.old ++ meaning_text (Ok message.now)) }
{
    match lent(message) {
        Some(lent) => push_lent(out, &lent),
        None => push_hello(out, message),
    }
}

fn push_why(out: &mut Octets, why: BadWhy) -> Result<(), OutOfMemory>
    ensures { OnOk result (out.new ≡ out.old ++ why_text why) }
{
    match why {
        BadWhy::Signature => out.append(b"Signature"),
        BadWhy::Version => out.append(b"Version"),
        BadWhy::Short => out.append(b"Short"),
        BadWhy::Trailing => out.append(b"Trailing"),
        BadWhy::ExtraFrames => out.append(b"ExtraFrames"),
    }
}

/// Appends what is wrong with frames that mean no message.
pub(crate) fn push_bad(out: &mut Octets, bad: Bad) -> Result<(), OutOfMemory>
    ensures { OnOk result (out.new ≡ out.old ++ bad_text bad) }
{
    out.append(b"BAD ")?;
    push_why(out, bad.why)?;
    out.push(b' ')?;
    push_decimal(out, u64::from(bad.frame))?;
    out.push(b' ')?;
    push_decimal(out, u64::from(bad.place))
}

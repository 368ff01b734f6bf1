//! The lines of entries.

ghost use Rattle.std.specs.Prelude.{◌≡◌, ◌++◌, ◌∷◌, decimal, IfOk, OnOk};
ghost use Rattle.zre_values.specs.Text.{quoted, quoted_list, id_text};
ghost use Rattle.zre_values.specs.Address.{address_text};
ghost use Rattle.zre_capture.specs.Lines.{hex_text, command_text, input_text, difference, reading_text, line};
ghost use Rattle.zre_capture.specs.declared.format.Format.TheVariants.{First, Second};

use crate::format::Format;
use crate::hexadecimal::push_hex;
use std::alloc::Global;
use zre_outside::{Command, Entry, Input};
use zre_values::{
    Frames, Octets, OutOfMemory, PeerId, push_address, push_decimal, push_quoted,
    push_quoted_frames,
};

fn push_number(out: &mut Octets, word: &[u8], n: u64) -> Result<(), OutOfMemory>
    ensures { OnOk result (out.new ≡ out.old ++ (word.now ++ (32 ∷ decimal n))) }
{
    out.append(word)?;
    out.push(b' ')?;
    push_decimal(out, n)
}

fn push_piece(out: &mut Octets, word: &[u8], n: u64, bytes: &[u8]) -> Result<(), OutOfMemory>
    ensures { OnOk result (out.new ≡ out.old ++ (word.now ++ (32 ∷ (decimal n ++ (32 ∷ hex_text bytes.now))))) }
{
    push_number(out, word, n)?;
    out.push(b' ')?;
    push_hex(out, bytes)
}

fn push_group(out: &mut Octets, word: &[u8], group: &[u8]) -> Result<(), OutOfMemory>
    ensures { OnOk result (out.new ≡ out.old ++ (word.now ++ (32 ∷ quoted group.now))) }
{
    out.append(word)?;
    out.push(b' ')?;
    push_quoted(out, group)
}

fn push_whisper(out: &mut Octets, peer: PeerId, content: &Frames) -> Result<(), OutOfMemory>
    ensures { OnOk result (out.new ≡ out.old ++ command_text (Command.Whisper peer content.now)) }
{
    out.append(b"whisper ")?;
    peer.push_to(out)?;
    out.push(b' ')?;
    push_quoted_frames(out, content)
}

fn push_shout(out: &mut Octets, group: &[u8], content: &Frames) -> Result<(), OutOfMemory>
    ensures { OnOk result (out.new ≡ out.old ++ command_text (Command.Shout group.now content.now)) }
{
    push_group(out, b"shout", group)?;
    out.push(b' ')?;
    push_quoted_frames(out, content)
}

fn push_command(out: &mut Octets, command: &Command) -> Result<(), OutOfMemory>
    ensures { OnOk result (out.new ≡ out.old ++ command_text command.now) }
{
    match command {
        Command::Join { group } => push_group(out, b"join", group.as_slice()),
        Command::Leave { group } => push_group(out, b"leave", group.as_slice()),
        Command::Whisper { peer, content } => push_whisper(out, *peer, content),
        Command::Shout { group, content } => push_shout(out, group.as_slice(), content),
        Command::Bad { line } => push_number(out, b"bad", *line),
        Command::Quit => out.append(b"quit"),
    }
}

fn push_datagram(out: &mut Octets, from: [u8; 4], bytes: &[u8]) -> Result<(), OutOfMemory>
    ensures { OnOk result (out.new ≡ out.old ++ input_text (Input.Datagram from bytes.now)) }
{
    out.append(b"datagram ")?;
    push_address(out, from)?;
    out.push(b' ')?;
    push_hex(out, bytes)
}

fn push_took(out: &mut Octets, link: u64, count: u64) -> Result<(), OutOfMemory>
    ensures { OnOk result (out.new ≡ out.old ++ input_text (Input.Took link count)) }
{
    push_number(out, b"took", link)?;
    out.push(b' ')?;
    push_decimal(out, count)
}

fn push_do(out: &mut Octets, command: &Command) -> Result<(), OutOfMemory>
    ensures { OnOk result (out.new ≡ out.old ++ input_text (Input.Do command.now)) }
{
    out.append(b"do ")?;
    push_command(out, command)
}

fn push_input(out: &mut Octets, input: &Input) -> Result<(), OutOfMemory>
    ensures { OnOk result (out.new ≡ out.old ++ input_text input.now) }
{
    match input {
        Input::Datagram { from, bytes } => push_datagram(out, *from, bytes.as_slice()),
        Input::Opened { conn } => push_number(out, b"opened", *conn),
        Input::Piece { conn, bytes } => push_piece(out, b"piece", *conn, bytes.as_slice()),
        Input::Shut { conn } => push_number(out, b"shut", *conn),
        Input::Linked { link } => push_number(out, b"linked", *link),
        Input::Reply { link, bytes } => push_piece(out, b"reply", *link, bytes.as_slice()),
        Input::Unlinked { link } => push_number(out, b"unlinked", *link),
        Input::Took { link, count } => push_took(out, *link, *count),
        Input::Tick => out.append(b"tick"),
        Input::Do(command) => push_do(out, command),
        Input::End => out.append(b"end"),
    }
}

// What a reading differs by from the one before.
fn push_difference(out: &mut Octets, before: u64, at: u64) -> Result<(), OutOfMemory>
    ensures { OnOk result (out.new ≡ out.old ++ difference before at) }
{
    if before <= at {
        return push_decimal(out, at - before);
    }
    out.push(b'-')?;
    push_decimal(out, before - at)
}

fn push_reading(out: &mut Octets, format: Format, before: u64, at: u64) -> Result<(), OutOfMemory>
    ensures { OnOk result (out.new ≡ out.old ++ reading_text format before at) }
{
    match format {
        Format::First => push_decimal(out, at),
        Format::Second => push_difference(out, before, at),
    }
}

fn push_line(
    out: &mut Octets,
    format: Format,
    before: u64,
    entry: &Entry,
) -> Result<(), OutOfMemory>
    ensures { OnOk result (out.new ≡ out.old ++ line format before entry.now) }
{
    push_reading(out, format, before, entry.at)?;
    out.push(b' ')?;
    push_input(out, &entry.input)?;
    out.push(b'\n')
}

/// Appends the line of an entry in format 1, which doesn't rest on a reading before. After an error a front of it may
/// stand there.
pub fn push_entry(out: &mut Octets, entry: &Entry) -> Result<(), OutOfMemory>
    ensures { OnOk result (out.new ≡ out.old ++ line First 0 entry.now) }
{
    push_line(out, Format::First, 0, entry)
}

/// Appends the line of an entry in format 2, after an entry with this reading, 0 at first. After an error a front of it
/// may stand there.
pub fn push_entry2(out: &mut Octets, before: u64, entry: &Entry) -> Result<(), OutOfMemory>
    ensures { OnOk result (out.new ≡ out.old ++ line Second before entry.now) }
{
    push_line(out, Format::Second, before, entry)
}

/// The line of an entry in format 1, with its line feed. An entry has one line alone.
pub fn write_entry(alloc: Global, entry: &Entry) -> Result<Octets, OutOfMemory>
    ensures { IfOk result (λ written. written ≡ line First 0 entry.now) }
{
    let mut written = Octets::new(alloc);
    let Ok(()) = push_entry(&mut written, entry) else {
        drop(written);
        return Err(OutOfMemory);
    };
    Ok(written)
}

/// The line of an entry in format 2, with its line feed, after an entry with this reading, 0 at first.
pub fn write_entry2(alloc: Global, before: u64, entry: &Entry) -> Result<Octets, OutOfMemory>
    ensures { IfOk result (λ written. written ≡ line Second before entry.now) }
{
    let mut written = Octets::new(alloc);
    let Ok(()) = push_entry2(&mut written, before, entry) else {
        drop(written);
        return Err(OutOfMemory);
    };
    Ok(written)
}

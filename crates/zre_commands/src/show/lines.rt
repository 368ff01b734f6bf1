//! The lines of items.

ghost use Rattle.std.specs.Prelude.{◌≡◌, ◌++◌, OnOk};
ghost use Rattle.zre_commands.specs.show.Lines.{greeting_line, command_line, message_line, line, lines};

use crate::frames::octets_of;
use crate::show::meaning::push_meaning;
use std::alloc::Global;
use zre_values::{Frames, Octets, OutOfMemory, push_decimal, push_quoted};
use zre_zmtp::{Item, What};

fn push_greeting(out: &mut Octets, major: u8, minor: u8) -> Result<(), OutOfMemory>
    ensures { OnOk result (out.new ≡ out.old ++ greeting_line major minor) }
{
    out.append(b"greeting ")?;
    push_decimal(out, u64::from(major))?;
    out.push(b'.')?;
    push_decimal(out, u64::from(minor))?;
    out.push(b'\n')
}

fn push_command(out: &mut Octets, name: &[u8], size: u64) -> Result<(), OutOfMemory>
    ensures { OnOk result (out.new ≡ out.old ++ command_line name.now size) }
{
    out.append(b"command ")?;
    push_quoted(out, name)?;
    out.push(b' ')?;
    push_decimal(out, size)?;
    out.push(b'\n')
}

fn push_message(alloc: Global, out: &mut Octets, frames: &Frames) -> Result<(), OutOfMemory>
    ensures { OnOk result (out.new ≡ out.old ++ message_line frames.now) }
{
    out.append(b"message ")?;
    push_decimal(out, frames.len() as u64)?;
    out.push(b' ')?;
    push_decimal(out, octets_of(frames)?)?;
    out.push(b' ')?;
    push_meaning(alloc, out, frames)?;
    out.push(b'\n')
}

fn push_line(alloc: Global, out: &mut Octets, item: &Item) -> Result<(), OutOfMemory>
    ensures { OnOk result (out.new ≡ out.old ++ line item.now) }
{
    match &item.what {
        What::Greeting { major, minor } => push_greeting(out, *major, *minor),
        What::Ready { size, .. } => push_command(out, b"READY", *size),
        What::Command { size, name, .. } => push_command(out, name.as_slice(), *size),
        What::Message(frames) => push_message(alloc, out, frames),
    }
}

/// Appends the lines of some items. After an error a front of them may stand there.
pub(crate) fn push_lines(alloc: Global, out: &mut Octets, items: &[Item]) -> Result<(), OutOfMemory>
    ensures { OnOk result (out.new ≡ out.old ++ lines items.now) }
{
    for item in items {
        push_line(alloc, out, item)?;
    }
    Ok(())
}

//! What is said, as octets of which none begin others: so one list of messages begins another one exactly where its
//! octets begin the other's, and runs and links are compared octet by octet.

ghost use Rattle.std.specs.Prelude.{◌≡◌, ◌++◌, OnOk};
ghost use Rattle.zre_msg.specs.declared.message.Body.TheVariants.{Whisper, Shout};
ghost use Rattle.zre_audit.specs.Coding.{escaped, part, parts, octets_of};

use zre_values::{Octets, OutOfMemory};

fn push_escaped(out: &mut Octets, octet: u8) -> Result<(), OutOfMemory>
    ensures { OnOk result (out.new ≡ out.old ++ escaped octet) }
{
    if octet < 2 {
        out.push(1)?;
    }
    out.push(octet)
}

fn push_part(out: &mut Octets, octets: &[u8]) -> Result<(), OutOfMemory>
    ensures { OnOk result (out.new ≡ out.old ++ part octets.now) }
{
    for octet in octets {
        push_escaped(out, *octet)?;
    }
    out.push(0)
}

fn push_parts(out: &mut Octets, frames: &[Octets]) -> Result<(), OutOfMemory>
    ensures { OnOk result (out.new ≡ out.old ++ parts frames.now) }
{
    for frame in frames {
        push_part(out, frame.as_slice())?;
    }
    out.append(&[1, 2])
}

/// Appends the octets of a WHISPER.
pub(crate) fn push_whisper(out: &mut Octets, content: &[Octets]) -> Result<(), OutOfMemory>
    ensures { OnOk result (out.new ≡ out.old ++ octets_of (Whisper content.now)) }
{
    push_parts(out, content)
}

/// Appends the octets of a SHOUT.
pub(crate) fn push_shout(
    out: &mut Octets,
    group: &[u8],
    content: &[Octets],
) -> Result<(), OutOfMemory>
    ensures { OnOk result (out.new ≡ out.old ++ octets_of (Shout group.now content.now)) }
{
    out.append(&[1, 3])?;
    push_part(out, group)?;
    push_parts(out, content)
}

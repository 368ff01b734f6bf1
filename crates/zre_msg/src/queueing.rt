//! Messages as octets on a connection.

ghost use Rattle.std.specs.Prelude.{◌≡◌, ◌<◌, ℕ, List, ◌∷◌, ◌++◌, length, OnOk};
ghost use Rattle.zre_values.specs.Framing.{frame, frames};
ghost use Rattle.zre_msg.specs.Flags.{flag_of};
ghost use Rattle.zre_msg.specs.Spelling.{Fits, FitsString, octets, shout_head};

use crate::message::Message;
use crate::writing::{push_head, push_string};
use zre_values::{Octets, OutOfMemory};

// What stands before the body in a frame. `more` is 1 where another frame follows, and 0 where none does.
fn push_size(out: &mut Octets, more: u8, len: u64) -> Result<(), OutOfMemory>
    requires { more < 2 }
    ensures { (body : List ℕ) → length body ≡ len → OnOk result (out.new ++ body ≡ out.old ++ frame more body) }
{
    if len < 256 {
        return out.append(&[more, len as u8]);
    }
    out.push(more + 2)?;
    out.append(&len.to_be_bytes())
}

fn push_frame(out: &mut Octets, more: u8, body: &[u8]) -> Result<(), OutOfMemory>
    requires { more < 2 }
    ensures { OnOk result (out.new ≡ out.old ++ frame more body.now) }
{
    push_size(out, more, body.len() as u64)?;
    out.append(body)
}

// Whether another frame follows, as a flag.
fn more_flag(later: &[Octets]) -> u8
    ensures { result ≡ flag_of later.now }
{
    if later.is_empty() { 0 } else { 1 }
}

fn push_frames(out: &mut Octets, bodies: &[Octets]) -> Result<(), OutOfMemory>
    ensures { OnOk result (out.new ≡ out.old ++ frames bodies.now) }
{
    let mut rest = bodies;
    'frames: while let Some((body, later)) = rest.split_first() {
        push_frame(out, more_flag(later), body.as_slice())?;
        rest = later;
    }
    Ok(())
}

/// Appends the first frame of a SHOUT, in its shortest form. `more` tells whether frames of content follow it. After an
/// error a front of it may stand there.
pub fn push_shout_head(
    out: &mut Octets,
    sequence: u16,
    group: &[u8],
    more: bool,
) -> Result<(), OutOfMemory>
    requires { FitsString group.now }
    ensures { OnOk result (out.new ≡ out.old ++ shout_head sequence group.now more) }
{
    push_size(out, more as u8, group.len() as u64 + 7)?;
    push_head(out, 3, sequence)?;
    push_string(out, group)
}

impl Message {
    /// Appends the octets of the message on a connection: its frames in their shortest form. After an error a front
    /// of them may stand there.
    pub fn push_to(&self, out: &mut Octets) -> Result<(), OutOfMemory>
        requires { Fits self.now }
        ensures { OnOk result (out.new ≡ out.old ++ octets self.now) }
    {
        let len = self.first_len();
        if len == u64::MAX {
            return Err(OutOfMemory);
        }
        let Some(further) = self.body.further() else {
            push_size(out, 0, len)?;
            return self.push_first(out);
        };
        push_size(out, more_flag(further.as_slice()), len)?;
        self.push_first(out)?;
        push_frames(out, further.as_slice())
    }
}

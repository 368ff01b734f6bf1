//! What the frames of a message mean, as text. A message other than HELLO is read where it lies in its frames.

ghost use Rattle.std.specs.Prelude.{◌≡◌, ◌++◌, OnOk};
ghost use Rattle.zre_msg.specs.Reading.{read_frames};
ghost use Rattle.zre_commands.specs.show.Lines.{meaning_text};

use crate::show::texts::{push_bad, push_lent, push_message};
use std::alloc::Global;
use zre_msg::{Message, ReadFault};
use zre_values::{Frames, Octets, OutOfMemory};

// Appends what the frames mean, where they begin as HELLO does.
#[inline(never)]
fn push_hello(alloc: Global, out: &mut Octets, frames: &Frames) -> Result<(), OutOfMemory>
    ensures { OnOk result (out.new ≡ out.old ++ meaning_text (read_frames frames.now)) }
{
    match Message::read(alloc, frames) {
        Ok(message) => {
            let told = push_message(out, &message);
            drop(message);
            told
        }
        Err(ReadFault::Bad(bad)) => push_bad(out, bad),
        Err(ReadFault::OutOfMemory) => Err(OutOfMemory),
    }
}

/// Appends what the frames mean, or what is wrong with them. After an error a front of it may stand there.
pub(crate) fn push_meaning(
    alloc: Global,
    out: &mut Octets,
    frames: &Frames,
) -> Result<(), OutOfMemory>
    ensures { OnOk result (out.new ≡ out.old ++ meaning_text (read_frames frames.now)) }
{
    match Message::see(frames) {
        Ok(Some(lent)) => push_lent(out, &lent),
        Ok(None) => push_hello(alloc, out, frames),
        Err(ReadFault::Bad(bad)) => push_bad(out, bad),
        Err(ReadFault::OutOfMemory) => Err(OutOfMemory),
    }
}

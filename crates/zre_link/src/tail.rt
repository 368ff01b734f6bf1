//! The content of a shout, spelled once for all links.

ghost use Rattle.std.specs.Prelude.{◌≡◌, ◌==◌, ◌<◌, ◌^◌, ◌++◌, length, IfOk, OnOk, OnErr};
ghost use Rattle.zre_values.specs.Framing.{frames};
ghost use Rattle.zre_link.specs.Tail.{spelled_octets};

use crate::queue::Queue;
use bytes::Bytes;
use std::alloc::Global;
use std::marker::Model;
use zre_values::{Frames, Octets, OutOfMemory, take_apart};
use zre_zmtp::write_message;

/// Fewer octets are copied onto each link: that costs less than to share them.
const SHARED: usize = 512;

/// How the octets of a content are held.
#[derive(Drop)]
pub enum Spelled {
    /// They are copied onto each link.
    Copied(Octets),
    /// All links share them.
    Shared(Bytes),
}

/// The frames of a SHOUT after its first, as the octets that go out: each in its shortest form. It's made once, and put
/// on any number of links.
pub struct Tail {
    spelled: Spelled,
}

impl Drop for Tail {
    fn drop(self) {
        take_apart!(self, Tail: spelled);
    }
}

impl Model for Tail {
    ghost use Rattle.std.specs.Prelude.{◌≡◌, ℕ, List};
    ghost use Rattle.zre_values.specs.Framing.{frames};
    ghost use Rattle.zre_link.specs.Tail.{bodies_of, spelled_octets};

    ghost Value = { List (List ℕ) };

    ghost view = { λ tail. bodies_of (spelled_octets tail.spelled) };

    ghost invariant = { λ tail. spelled_octets tail.spelled ≡ frames (bodies_of (spelled_octets tail.spelled)) };
}

// The frames of a content.
fn spell(alloc: Global, content: &Frames) -> Result<Octets, OutOfMemory>
    ensures { IfOk result (λ octets. octets ≡ frames content.now) }
{
    if content.len() == 0 {
        return Ok(Octets::new(alloc));
    }
    write_message(alloc, content)
}

// The octets as all links have them: copied where they are fewer than 512, else shared.
fn copied_or_shared(alloc: Global, octets: Octets) -> Result<Spelled, OutOfMemory>
    ensures spelling { IfOk result (λ spelled. spelled_octets spelled ≡ octets) }
    ensures bounded { length octets < 2 ^ 64 }
{
    if octets.len() < SHARED {
        return Ok(Spelled::Copied(octets));
    }
    let shared = Bytes::copy_from_slice(alloc, octets.as_slice())?;
    Ok(Spelled::Shared(shared))
}

impl Tail {
    /// The tail of a SHOUT with this content.
    pub fn of(alloc: Global, content: &Frames) -> Result<Tail, OutOfMemory>
        ensures { IfOk result (λ tail. tail ≡ content.now) }
    {
        let octets = spell(alloc, content)?;
        let spelled = copied_or_shared(alloc, octets)?;
        Ok(Tail { spelled })
    }

    /// How many octets its frames have.
    pub fn len(&self) -> usize
        ensures { result ≡ length (frames self.now) }
    {
        match &self.spelled {
            Spelled::Copied(octets) => octets.len(),
            Spelled::Shared(octets) => octets.len(),
        }
    }

    /// Whether there are no frames.
    pub fn is_empty(&self) -> bool
        ensures { result ≡ (length self.now == 0) }
    {
        self.len() == 0
    }

    /// Appends a text and then the octets of the frames, or nothing. The text may be longer after.
    pub(crate) fn put_after(&self, queue: &mut Queue, text: &mut Octets) -> Result<(), OutOfMemory>
        ensures ok { OnOk result (queue.new ≡ queue.old ++ (text.old ++ frames self.now)) }
        ensures err { OnErr result (queue.new ≡ queue.old) }
    {
        match &self.spelled {
            Spelled::Copied(octets) => {
                text.append(octets.as_slice())?;
                queue.append(text.as_slice())
            }
            Spelled::Shared(octets) => queue.share(text.as_slice(), octets.clone()?),
        }
    }
}

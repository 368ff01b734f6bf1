//! Messages that lie in the frames that they are read from.

ghost use Rattle.std.specs.Prelude.{◌≡◌, ◌==◌, ◌∷◌, [], length, IfOk};
ghost use Rattle.zre_msg.specs.Content.{content_of};

use crate::commands::LentBody;
use std::alloc::Global;
use zre_values::{Frames, Octets, OutOfMemory};

/// The frames after the first, where they lie.
#[derive(Clone, Copy)]
pub enum LentContent<'a> {
    /// A list of frames.
    Frames(&'a [Octets]),
    /// One frame, or none.
    One(Option<&'a [u8]>),
}

/// A message other than HELLO, with fields and content that lie where it was read from.
#[derive(Clone, Copy)]
pub struct LentMessage<'a> {
    /// The number of the message.
    pub sequence: u16,
    /// The command with its fields.
    pub command: LentBody<'a>,
    /// The frames after the first.
    pub content: LentContent<'a>,
}

// A copy of one frame, as a list.
#[inline(always)]
fn copy_frame(alloc: Global, frame: &[u8]) -> Result<Frames, OutOfMemory>
    ensures { IfOk result (λ frames. frames ≡ frame.now ∷ []) }
{
    Ok(Frames::of(alloc, Octets::copy(alloc, frame)?))
}

// Copies of frames. Most content is one frame, which takes no loop.
#[inline]
fn copy_frames(alloc: Global, frames: &[Octets]) -> Result<Frames, OutOfMemory>
    ensures { IfOk result (λ copied. copied ≡ frames.now) }
{
    match frames {
        [frame] => copy_frame(alloc, frame.as_slice()),
        _ => Frames::copy(alloc, frames),
    }
}

impl<'a> LentContent<'a> {
    /// Whether there are none.
    pub fn is_empty(&self) -> bool
        ensures { result ≡ (length (content_of self.now) == 0) }
    {
        match self {
            LentContent::Frames(frames) => frames.is_empty(),
            LentContent::One(frame) => frame.is_none(),
        }
    }

    /// Copies of them.
    #[inline(always)]
    pub fn copy(&self, alloc: Global) -> Result<Frames, OutOfMemory>
        ensures { IfOk result (λ frames. frames ≡ content_of self.now) }
    {
        match self {
            LentContent::Frames(frames) => copy_frames(alloc, frames),
            LentContent::One(None) => Ok(Frames::new(alloc)),
            LentContent::One(Some(frame)) => copy_frame(alloc, frame),
        }
    }
}

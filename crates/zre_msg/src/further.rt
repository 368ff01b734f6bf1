//! The frames after the first.

ghost use Rattle.std.specs.Prelude.{◌≡◌, ◌==◌, ◌++◌, length, IfOk, OnOk};

use crate::lent::LentContent;
use std::alloc::Global;
use zre_values::{Frames, Octets, OutOfMemory};

/// The frames after the first of a message: lent, so that a message that holds them holds copies, or given, so
/// that it holds them themselves.
#[derive(Drop)]
pub enum Further<'a> {
    /// They are copied into the message.
    Lent(LentContent<'a>),
    /// They are moved into it.
    Given(Frames),
}

impl<'a> Further<'a> {
    ghost use Rattle.zre_msg.specs.Further.{frames_of};

    /// Whether there are none.
    pub fn is_empty(&self) -> bool
        ensures { result ≡ (length (frames_of self.now) == 0) }
    {
        match self {
            Further::Lent(content) => content.is_empty(),
            Further::Given(frames) => frames.len() == 0,
        }
    }

    /// The frames themselves, or copies of those that are lent.
    pub fn take(self, alloc: Global) -> Result<Frames, OutOfMemory>
        ensures { IfOk result (λ frames. frames ≡ frames_of self.entry) }
    {
        match self {
            Further::Lent(content) => content.copy(alloc),
            Further::Given(frames) => Ok(frames),
        }
    }
}

/// Appends copies of the frames. After an error some of them may stand there.
pub fn push_copies(alloc: Global, out: &mut Frames, frames: &[Octets]) -> Result<(), OutOfMemory>
    ensures { OnOk result (out.new ≡ out.old ++ frames.now) }
{
    for frame in frames {
        out.push(Octets::copy(alloc, frame.as_slice())?)?;
    }
    Ok(())
}

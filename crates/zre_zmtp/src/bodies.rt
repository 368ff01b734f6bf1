//! The bodies of a message that isn't copied into an item.

ghost use Rattle.std.specs.Prelude.{◌≡◌, []};

use std::alloc::Global;
use zre_values::{Octets, OutOfMemory};

/// Room for the bodies of a message that came in several pieces. It serves again and again.
#[derive(Drop)]
pub struct Bodies {
    /// The body of the first frame, where the message has two.
    pub first: Octets,
    /// That of the last frame.
    pub last: Octets,
}

impl Bodies {
    /// Both are empty, and take no memory yet.
    pub fn new(alloc: Global) -> Self
        ensures { (result.first ≡ []) × (result.last ≡ []) }
    {
        Bodies {
            first: Octets::new(alloc),
            last: Octets::new(alloc),
        }
    }
}

/// The bodies of a message of one or two frames, where they lie.
#[derive(Clone, Copy)]
pub struct LentBodies<'a> {
    /// The body of the first frame.
    pub first: &'a [u8],
    /// That of the second, where the message has one.
    pub second: Option<&'a [u8]>,
}

/// What a reader made of a piece that it may take without an item.
#[derive(Clone, Copy)]
pub enum Came<'a> {
    /// A message of one or two frames ended with the piece.
    Message(LentBodies<'a>),
    /// The piece is a part of a frame, and is kept.
    Part,
    /// The piece says something else. Nothing changed: it is there to be fed.
    Other,
}

/// What a reader answers where a piece may be taken.
pub type Taken<'a> = Result<Came<'a>, OutOfMemory>;

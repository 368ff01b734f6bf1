//! The buffer that a source is read into, and how much of it one read may fill.

ghost use Rattle.std.specs.Prelude.{◌≡◌, ◌<◌, ◌≤◌, vec_len, IfOk};

use std::alloc::{AllocError, Global};

/// The most octets that one read asks for.
pub const PIECE: usize = 8192;

/// How many octets the next read asks for, where so many may still be taken.
pub fn room_for(left: u64) -> usize
    requires { 0 < left }
    // Some octets, and no more than are allowed.
    ensures some { 0 < result }
    ensures most { result ≤ PIECE }
    ensures within { result ≤ left }
{
    if left < PIECE as u64 {
        left as usize
    } else {
        PIECE
    }
}

/// A buffer of so many octets. Its clause says no more than the length, since a proof would compute so many octets.
pub fn zeros(alloc: Global, len: usize) -> Result<Vec<u8>, AllocError>
    ensures { IfOk result (λ v. vec_len v ≡ len) }
{
    vec![in alloc; 0u8; len]
}

//! OutOfMemory, as an answer of its own.

use std::alloc::{AllocError, AllocFailed};
use thiserror::Error;

/// No memory was left for what was asked. It comes from nothing else, and has no cause in any contract.
#[derive(Clone, Copy, Debug, PartialEq, Eq, Error)]
#[error("out of memory")]
pub struct OutOfMemory;

impl From<AllocError> for OutOfMemory {
    fn from(_: AllocError) -> Self {
        OutOfMemory
    }
}

impl<T: Drop> From<AllocFailed<T>> for OutOfMemory {
    fn from(_: AllocFailed<T>) -> Self {
        OutOfMemory
    }
}

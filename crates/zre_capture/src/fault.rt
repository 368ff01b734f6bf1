//! Why a capture is refused.

ghost use Rattle.std.specs.Prelude.{◌≡◌};

use thiserror::Error;

/// A line that isn't one of a capture, and where in it: the first field that isn't as required, or what follows the
/// last one.
#[derive(Clone, Copy, Debug, PartialEq, Eq, Error)]
#[error("not a capture")]
pub struct BadCapture {
    /// From 1.
    pub line: u64,
    /// From 1.
    pub column: u64,
}

/// Why a reader takes no more.
#[derive(Clone, Copy, Debug, PartialEq, Eq, Error)]
pub enum CaptureFault {
    /// The octets so far have this bad line, whatever follows.
    #[error("not a capture")]
    Bad(BadCapture),
    /// No memory was left.
    #[error("out of memory")]
    OutOfMemory,
}

impl From<zre_values::OutOfMemory> for CaptureFault {
    ghost use Rattle.zre_capture.specs.declared.fault.CaptureFault.TheVariants.{OutOfMemory};

    ghost from_gives = { λ _ e. e ≡ OutOfMemory };

    fn from(_: zre_values::OutOfMemory) -> Self {
        CaptureFault::OutOfMemory
    }
}

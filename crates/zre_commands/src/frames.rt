//! Frames of content.

ghost use Rattle.std.specs.Prelude.{◌≡◌, length, sum_by, IfOk};

use zre_values::{Frames, OutOfMemory};

/// How many octets the frames have. A number that no u64 holds is told as OutOfMemory.
pub(crate) fn octets_of(frames: &Frames) -> Result<u64, OutOfMemory>
    ensures { IfOk result (λ n. n ≡ sum_by length frames.now) }
{
    let octets = frames.total();
    if octets == u64::MAX {
        return Err(OutOfMemory);
    }
    Ok(octets)
}

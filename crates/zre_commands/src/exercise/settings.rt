//! The settings of the node.

ghost use Rattle.std.specs.Prelude.{◌≡◌, IfOk};
ghost use Rattle.zre_commands.specs.exercise.Settings.{settings};

use std::alloc::Global;
use zre_journal::Config;
use zre_values::{Octets, OutOfMemory, Pairs, PeerId};

/// The settings of the node that goes through the exercise.
pub(crate) fn settings(alloc: Global) -> Result<Config, OutOfMemory>
    ensures { IfOk result (λ config. config ≡ settings) }
{
    let name = Octets::copy(alloc, b"node")?;
    Ok(Config {
        id: PeerId([0xff; 16]),
        name,
        headers: Pairs::new(alloc),
        host: [10, 0, 0, 1],
        port: 49152,
        evasive: 5000,
        expired: 30000,
    })
}

//! The node goes on the network.

ghost use Rattle.std.specs.Prelude.{◌≡◌, ◌≢◌, ◌≤◌, [], true, option_map, IfOk, IfErr, OnOk};
ghost use Rattle.zre_outside.specs.Causes.{Rose};
ghost use Rattle.zre_outside.specs.Worlds.{with_start};
ghost use Rattle.zre_values.specs.Settings.{is_valid};
ghost use Rattle.zre_node.specs.Journal.{StandsFor};
ghost use Rattle.zre_commands.specs.declared.pump.status.Status.TheVariants.{ReadFault, WorldFault};
ghost use Rattle.zre_console.specs.Stages.{IsOutside};
ghost use Rattle.zre_console.specs.Statuses.{Yields};
ghost use Rattle.zre_console.specs.Tables.{IsLaid, HasMore};

use crate::statuses::of_fault;
use crate::table::Table;
use std::alloc::Global;
use zre_commands::pump::Status;
use zre_journal::Config;
use zre_outside::{Start, World};
use zre_values::OutOfMemory;

/// Goes on the network, and makes what the threads need, with passes for so many callers more.
pub fn enter<W: World>(
    alloc: Global,
    config: Config,
    start: &Start,
    world: &mut W,
    more: u8,
) -> Result<Table, Status>
    // The settings are valid, and there are passes for so many more callers.
    requires valid { is_valid config ≡ true }
    requires few { more ≤ 14 }
    // The pipes are laid, the node is new, and the world is started.
    ensures laid { IfOk result (λ table. IsLaid more table × HasMore more table) }
    ensures node { IfOk result (λ table. StandsFor config [] table.node_args.node) }
    ensures told { OnOk result (W.told world.new ≡ option_map (with_start start.now) (W.told world.old)) }
    // The world's count never falls, and why it did not come that far.
    ensures later { W.faults world.old ≤ W.faults world.new }
    ensures refused { IfErr result (λ status. IsOutside start.now status (W.told world.old) (W.told world.new)
        (Rose (W.faults world.old) (W.faults world.new))) }
    // Where it refused to be started, that is the status, unless memory ran out.
    ensures counts { OnOk result (W.refused world.new ≡ W.refused world.old) }
    ensures first { IfErr result (λ status. Yields status WorldFault (W.refused world.new ≡ W.refused world.old)) }
    ensures unread { IfErr result (λ status. status ≢ ReadFault) }
{
    if let Err(fault) = world.start(start) {
        return Err(of_fault(fault, Status::WorldFault));
    }
    match Table::lay(alloc, config, more) {
        Ok(table) => Ok(table),
        Err(OutOfMemory) => Err(Status::OutOfMemory),
    }
}

//! All that is made before the threads are started.

ghost use Rattle.std.specs.Prelude.{◌≡◌, ◌≤◌, [], true, IfOk};
ghost use Rattle.zre_values.specs.Settings.{is_valid};
ghost use Rattle.zre_node.specs.Journal.{StandsFor};
ghost use Rattle.zre_console.specs.Tables.{IsLaid, HasMore};

use crate::places::{CallerArgs, NodeArgs, PrinterArgs, Shares, caller_args, share, take_two};
use std::alloc::Global;
use zre_actor::{CallerPasses, Made, Pipes};
use zre_journal::Config;
use zre_node::Node;
use zre_values::OutOfMemory;

/// What all threads but the node's need.
#[derive(Drop)]
pub struct Others {
    /// Of who prints.
    pub printer: PrinterArgs,
    /// Of who puts last.
    pub last: CallerArgs,
    /// The passes that weren't taken yet.
    pub callers: CallerPasses,
}

/// The pipes with all passes, and the node.
#[derive(Drop)]
pub struct Table {
    /// Of the node's thread.
    pub node_args: NodeArgs,
    /// Of all others.
    pub others: Others,
}

impl Table {
    /// Makes all of it, with passes for so many callers more than who puts last and who asks the node to stop.
    pub fn lay(alloc: Global, config: Config, more: u8) -> Result<Table, OutOfMemory>
        // The settings are valid, and there are passes for so many more callers.
        requires valid { is_valid config ≡ true }
        requires few { more ≤ 14 }
        // The pipes are laid, and the node is new.
        ensures laid { IfOk result (IsLaid more) }
        ensures more { IfOk result (HasMore more) }
        ensures node { IfOk result (λ t. StandsFor config [] t.node_args.node) }
    {
        let Made {
            pipes,
            actor,
            mut callers,
            taker,
        } = Pipes::make(alloc, more + 2)?;
        let node = Node::new(alloc, config)?;
        let Shares {
            pipes,
            pipes_of_node,
            over,
        } = share(alloc, pipes)?;
        let (last, asker) = take_two(&mut callers);
        let last = caller_args(&pipes, &over, last)?;
        let node_args = NodeArgs {
            pipes: pipes_of_node,
            node,
            pass: actor,
        };
        let printer = PrinterArgs {
            pipes,
            over,
            asker,
            taker,
        };
        let others = Others {
            printer,
            last,
            callers,
        };
        Ok(Table { node_args, others })
    }
}

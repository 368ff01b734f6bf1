//! What lives only once its settings are told: a node, or the watch of one.

ghost use Rattle.std.specs.Prelude.{List, [], true, ◌≡◌, Option, IfOk, OnOk};
ghost use Rattle.zre_outside.specs.declared.entry.Entry.{Entry as EntryValue};
ghost use Rattle.zre_values.specs.Settings.{is_valid};
ghost use Rattle.zre_values.specs.declared.settings.Settings.{Settings as ConfigValue};
ghost use Rattle.zre_node.specs.Journal.{StandsFor};
ghost use Rattle.zre_records.specs.replay.Lives.{Lives, TookIfAny};

use crate::replay::taking::take_entries;
use std::alloc::Global;
use zre_journal::Config;
use zre_node::Node;
use zre_outside::Entries;
use zre_values::{Octets, OutOfMemory};

/// What is made of settings, and stands for a journal then.
pub(crate) trait LivedNode: Sized + Drop {
    /// It stands for this journal of a node with these settings.
    ghost stands: { ConfigValue → List EntryValue → Self → Type 0 };

    /// One before any entry.
    fn begin(alloc: Global, config: Config) -> Result<Self, OutOfMemory>
        requires { is_valid config ≡ true }
        ensures { IfOk result (stands config []) };
}

impl LivedNode for Node {
    ghost stands = { λ g J n. StandsFor g J n };

    fn begin(alloc: Global, config: Config) -> Result<Node, OutOfMemory> {
        Node::new(alloc, config)
    }
}

/// The node takes entries, one after the other, if there is one. The list that is handed back has their memory.
pub(crate) fn take_if_any(
    node: &mut Option<Node>,
    entries: Entries,
    out: &mut Octets,
) -> Result<Entries, OutOfMemory>
    ensures { (told : Option ConfigValue) (J : List EntryValue) → Lives told J node.old
        → OnOk result (TookIfAny told J entries node.new out.old out.new) }
{
    match node {
        Some(node) => take_entries(node, entries, out),
        None => Ok(entries),
    }
}

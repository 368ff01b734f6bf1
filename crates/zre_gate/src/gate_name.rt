//! What the threads of one gate know of its clients.

ghost use Rattle.std.specs.Prelude.{Option, None};
ghost use Rattle.zre_gate.specs.ClientLists.{ClientList};

use std::marker::Brand;

/// A name of one gate, by which what its threads hand on is known to belong to it.
pub trait GateName {
    /// Its clients.
    ghost client_list: { Option ClientList };
}

impl GateName for Brand {
    ghost client_list = { None };
}

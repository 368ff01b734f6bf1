//! The first of some lists that is one too many for others.

ghost use Rattle.std.specs.Prelude.{◌≡◌, nat_eq, option_map, IfOk};
ghost use Rattle.zre_audit.specs.Prefixes.{first_short};

use crate::counting::{count_begun, rising};
use std::alloc::Global;
use zre_values::{Octets, OutOfMemory};

/// Of which list more begin with it than there are others that do.
#[derive(Clone, Copy)]
pub(crate) struct Excess {
    /// Which it is, counted from 1.
    pub number: u64,
    /// How many of the lists begin with it, itself among them.
    pub more: u64,
    /// How many of the others do.
    pub fewer: u64,
}

/// The first of the lists of which more begin with it than of the others, if there is one.
pub(crate) fn first_excess(
    alloc: Global,
    lists: &[Octets],
    others: &[Octets],
) -> Result<Option<Excess>, OutOfMemory>
    ensures { IfOk result (λ found. option_map (λ e. (e.number, e.more, e.fewer)) found
        ≡ first_short nat_eq lists.now others.now) }
{
    let rising_lists = rising(alloc, lists)?;
    let rising_others = rising(alloc, others)?;
    for (place, list) in lists.iter().enumerate() {
        let more = count_begun(rising_lists.as_slice(), list.as_slice());
        let fewer = count_begun(rising_others.as_slice(), list.as_slice());
        if fewer < more {
            let number = place as u64 + 1;
            return Ok(Some(Excess {
                number,
                more,
                fewer,
            }));
        }
    }
    Ok(None)
}

//! How many lists of octets begin with others: in the order of their octets they stand together.

ghost use Rattle.std.specs.Prelude.{◌≡◌, ◌||◌, map, nat_eq, IfOk};
ghost use Rattle.std.specs.Cmp.Lexicographic.{slice_cmp};
ghost use Rattle.std.specs.Ordering.{nat_cmp, is_lt};
ghost use Rattle.zre_audit.specs.Prefixes.{begins, begun};
ghost use Rattle.zre_audit.specs.Sorted.{AreRising, IsRising};

use std::alloc::Global;
use std::cmp::Ordering;
use zre_values::{Octets, OutOfMemory};

// Whether octets come before others in their order.
fn is_below(x: &[u8], octets: &[u8]) -> bool
    ensures { result ≡ is_lt (slice_cmp nat_cmp x.now octets.now) }
{
    matches!(x.cmp(octets), Ordering::Less)
}

// Whether octets come before others in their order, or begin with them.
fn is_up_to(x: &[u8], octets: &[u8]) -> bool
    ensures { result ≡ (is_lt (slice_cmp nat_cmp x.now octets.now) || begins nat_eq octets.now x.now) }
{
    is_below(x, octets) || x.starts_with(octets)
}

/// The lists, in the order of their octets.
pub(crate) fn rising<'a>(alloc: Global, lists: &'a [Octets]) -> Result<Vec<&'a [u8]>, OutOfMemory>
    ensures { IfOk result (λ rising. IsRising lists.now (map (λ list. list.now) rising.items)) }
{
    let mut rising = Vec::new(alloc);
    for list in lists {
        rising.push(list.as_slice())?;
    }
    rising.sort_unstable();
    Ok(rising)
}

/// How many of these lists, which are in order, begin with these octets.
pub(crate) fn count_begun(rising: &[&[u8]], octets: &[u8]) -> u64
    requires { AreRising (map (λ list. list.now) rising.now) }
    ensures { result ≡ begun nat_eq octets.now (map (λ list. list.now) rising.now) }
{
    let below = rising.partition_point(|x| is_below(x, octets));
    let up_to = rising.partition_point(|x| is_up_to(x, octets));
    up_to.saturating_sub(below) as u64
}

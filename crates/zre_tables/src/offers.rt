//! What links have to send.

ghost use Rattle.std.specs.Prelude.{◌≡◌, ◌++◌, nat_eq, map, true, IfOk, OnOk};
ghost use Rattle.std.specs.List.{filter, list_any};
ghost use Rattle.std.specs.List.Sorted.{IsStrictlyIncreasing, IsStrictlySortedBy};
ghost use Rattle.std.specs.Map.{keys_of};
ghost use Rattle.std.specs.Ordering.{nat_cmp};
ghost use Rattle.zre_outside.specs.declared.act.Act.TheVariants.{Offer};
ghost use Rattle.zre_values.specs.Keys.{IsRisingListOf};
ghost use Rattle.zre_tables.specs.Rows.{passes_at};
ghost use Rattle.zre_tables.specs.Searches.{begins_with, offered_among, row_offered, since_link};

use crate::peer::Peer;
use crate::peers::Peers;
use crate::rows::Rows;
use crate::searches::are_many;
use std::alloc::Global;
use zre_outside::{Act, Acts};
use zre_values::{Keys, OutOfMemory};

// Whether each of these links is below the next.
fn is_rising(links: &[u64]) -> bool
    ensures { result ≡ true → IsStrictlyIncreasing links.now }
{
    for i in 1..links.len() {
        if links[i] <= links[i - 1] {
            return false;
        }
    }
    true
}

// These links, rising and each once.
fn rising_of(alloc: Global, links: &[u64]) -> Result<Keys, OutOfMemory>
    ensures { IfOk result (IsRisingListOf (λ link. list_any (nat_eq link) links.now)) }
{
    let mut rising = links.to_vec(alloc)?;
    rising.sort_unstable();
    rising.dedup();
    Ok(Keys::from_vec(rising))
}

// Those of these links that have something to send are offered, in order.
fn offer_each(rows: &Rows<Peer>, links: &[u64], acts: &mut Acts) -> Result<(), OutOfMemory>
    requires { IsStrictlySortedBy nat_cmp (keys_of rows.now.all.items) }
    ensures { OnOk result (acts.new
        ≡ acts.old ++ map (λ link. Offer link) (filter (passes_at row_offered rows.now.all.items) links.now)) }
{
    for link in links {
        let Some(peer) = rows.get(*link) else {
            continue;
        };
        if peer.link.is_offered() {
            acts.push(Act::Offer { link: *link })?;
        }
    }
    Ok(())
}

// These links from the first on that isn't below another.
fn not_below(links: &[u64], link: u64) -> &[u64]
    ensures { result.now ≡ since_link link links.now }
{
    let mut rest = links;
    while !rest.is_empty() && rest[0] < link {
        rest = &rest[1..];
    }
    rest
}

// Whether these links begin with another.
fn is_next(links: &[u64], link: u64) -> bool
    ensures { result ≡ begins_with link links.now }
{
    !links.is_empty() && links[0] == link
}

// The rows on whose links something was put are offered where they have something to send, by a walk over all rows.
// The links rise.
fn offer_rows(rows: &Rows<Peer>, links: &[u64], acts: &mut Acts) -> Result<(), OutOfMemory>
    requires rising { IsStrictlyIncreasing links.now }
    requires sorted { IsStrictlySortedBy nat_cmp (keys_of rows.now.all.items) }
    ensures { OnOk result (acts.new ≡ acts.old ++ offered_among links.now rows.now.all.items) }
{
    let mut rest = links;
    for (link, peer) in &rows.all {
        rest = not_below(rest, *link);
        if is_next(rest, *link) && peer.link.is_offered() {
            acts.push(Act::Offer { link: *link })?;
        }
    }
    Ok(())
}

// Offers links that rise, by searches or by a walk over the rows, whichever is cheaper.
fn offer_rising(rows: &Rows<Peer>, links: &[u64], acts: &mut Acts) -> Result<(), OutOfMemory>
    requires rising { IsStrictlyIncreasing links.now }
    requires sorted { IsStrictlySortedBy nat_cmp (keys_of rows.now.all.items) }
    ensures { OnOk result (acts.new ≡ acts.old ++ offered_among links.now rows.now.all.items) }
{
    if are_many(links, rows) {
        offer_rows(rows, links, acts)
    } else {
        offer_each(rows, links, acts)
    }
}

impl Peers {
    /// The links on which something was put, and that have something to send, are offered. It looks at these alone, and
    /// takes memory only where they don't rise.
    pub fn offer(&self, pushed: &Keys, acts: &mut Acts) -> Result<(), OutOfMemory>
        ensures { OnOk result (acts.new ≡ acts.old ++ offered_among pushed.now self.now) }
    {
        let links = pushed.as_slice();
        if is_rising(links) {
            return offer_rising(&self.rows, links, acts);
        }
        let rising = rising_of(self.alloc, links)?;
        offer_each(&self.rows, rising.as_slice(), acts)
    }
}

//! What a HELLO sets and tells.

ghost use Rattle.std.specs.Prelude.{◌≡◌, ◌≢◌, ◌&&◌, ◌++◌, ◌∷◌, [], length, map, nat_le, IfOk, IfErr, OnOk, true};
ghost use Rattle.std.specs.Prelude.{false, if◌then◌else◌};
ghost use Rattle.zre_peer.specs.Members.{are_few, distinct, first_named};
ghost use Rattle.zre_peer.specs.Runs.{is_hello};
ghost use Rattle.zre_peer.specs.Views.{after, blank, is_small};
ghost use Rattle.zre_peer.specs.declared.event.Event.TheVariants as kinds;
ghost use Rattle.zre_peer.specs.declared.peer_run.RunFault.TheVariants as faults;
ghost use Rattle.zre_values.specs.declared.limits.TheConstants.{HEADERS};

use crate::event::{Event, Events};
use crate::groups::Groups;
use crate::headers::Headers;
use crate::peer_run::RunFault;
use crate::view::View;
use std::alloc::Global;
use std::mem;
use zre_msg::Body;
use zre_values::{Frames, Octets, OutOfMemory, Pairs, PeerId};

// The groups that a HELLO names, each once. With the first that passes a limit the others aren't looked at.
fn distinct_of(alloc: Global, groups: &Frames) -> Result<Groups, RunFault>
    ensures ok { IfOk result (λ found. (found ≡ distinct groups.now) × (are_few (distinct groups.now) ≡ true)) }
    ensures refused { IfErr result (λ e. e ≢ RunFault.OutOfMemory → (e ≡ RunFault.Limit)
        × (are_few (distinct groups.now) ≡ false)) }
{
    let mut found = Groups::new(alloc);
    for group in groups.as_slice() {
        if !found.can_add(group.as_slice()) {
            return Err(RunFault::Limit);
        }
        found.insert(alloc, group.as_slice())?;
    }
    Ok(found)
}

// The headers that a HELLO has, of equal names the first. With the first that passes the limit the others aren't
// looked at.
fn first_named_of(alloc: Global, headers: &Pairs) -> Result<Headers, RunFault>
    ensures ok { IfOk result (λ found. (found ≡ first_named headers.now)
        × (nat_le (length (first_named headers.now)) HEADERS ≡ true)) }
    ensures refused { IfErr result (λ e. e ≢ RunFault.OutOfMemory →
        (e ≡ RunFault.Limit) × (nat_le (length (first_named headers.now)) HEADERS ≡ false)) }
{
    let mut found = Headers::new(alloc);
    for header in headers.as_slice() {
        let (name, value) = (header.0.as_slice(), header.1.as_slice());
        if !found.can_add(name) {
            return Err(RunFault::Limit);
        }
        found.insert(alloc, name, value)?;
    }
    Ok(found)
}

/// The view that a HELLO sets, whose name and endpoint it takes out of the message. Another message sets none, and a
/// view that would pass a limit isn't made.
#[tactic(auto, unfolding(crate::specs::Views::is_small))]
pub(crate) fn opened(alloc: Global, body: &mut Body) -> Result<View, RunFault>
    ensures ok { IfOk result (λ view. (is_hello body.old ≡ true) × (view ≡ after blank body.old)
        × (is_small (after blank body.old) ≡ true)) }
    ensures refused { IfErr result (λ e. e ≢ RunFault.OutOfMemory →
        ((is_hello body.old && is_small (after blank body.old)) ≡ false)
        × (e ≡ (if is_hello body.old then faults.Limit else faults.NotHello))) }
{
    let Body::Hello {
        endpoint,
        groups,
        status,
        name,
        headers,
    } = body
    else {
        return Err(RunFault::NotHello);
    };
    let groups = distinct_of(alloc, groups)?;
    let headers = first_named_of(alloc, headers)?;
    Ok(View {
        name: mem::replace(name, Octets::new(alloc)),
        endpoint: mem::replace(endpoint, Octets::new(alloc)),
        headers,
        groups,
        status: *status,
    })
}

/// Appends the event of a group that a peer joins.
pub(crate) fn push_join(
    alloc: Global,
    events: &mut Events,
    id: PeerId,
    name: &Octets,
    group: &[u8],
) -> Result<(), OutOfMemory>
    ensures { OnOk result (events.new ≡ events.old ++ kinds.Join id name.now group.now ∷ []) }
{
    events.push(Event::Join {
        id,
        name: name.try_clone()?,
        group: Octets::copy(alloc, group)?,
    })
}

/// Appends the events of the HELLO that led to this view.
pub(crate) fn tell_hello(
    alloc: Global,
    id: PeerId,
    view: &View,
    events: &mut Events,
) -> Result<(), OutOfMemory>
    ensures { OnOk result (events.new ≡ events.old
        ++ kinds.Enter id view.now.name view.now.endpoint view.now.headers
        ∷ map (λ g. kinds.Join id view.now.name g) view.now.groups) }
{
    events.push(Event::Enter {
        id,
        name: view.name.try_clone()?,
        endpoint: view.endpoint.try_clone()?,
        headers: view.headers.to_pairs(alloc)?,
    })?;
    for i in 0..view.groups.len() {
        push_join(alloc, events, id, &view.name, view.groups.get(i))?;
    }
    Ok(())
}

//! Items, and what arrives with them.

ghost use Rattle.std.specs.Prelude.{◌≡◌, ◌++◌, Option, option_map, option_and_then, option_to_list, IfOk, OnOk};
ghost use Rattle.std.specs.Option.{option_or};
ghost use Rattle.zre_zmtp.specs.Ping.{context_in};
ghost use Rattle.std.specs.Result.{result_ok};
ghost use Rattle.zre_msg.specs.Reading.{read_frames};
ghost use Rattle.zre_mailbox.specs.Talk.{peer_of, arrival_of, arrivals_in};
ghost use Rattle.zre_mailbox.specs.Conn.{introduced, identity_in};
ghost use Rattle.zre_mailbox.specs.declared.arrival.Arrival.TheVariants.{Ping as PingArrival};
ghost use Rattle.zre_mailbox.specs.declared.arrival.Arrival.TheVariants.{Message as MessageArrival};

use crate::arrival::{Arrival, Arrivals};
use std::alloc::Global;
use zre_msg::{Message, ReadFault};
use zre_values::{Frames, Octets, OutOfMemory, PeerId};
use zre_zmtp::{Item, What};

// The peer with that identity, if it is one.
fn peer_of(identity: &[u8]) -> Option<PeerId>
    ensures { result ≡ peer_of identity.now }
{
    let (first, uuid) = identity.split_first()?;
    match <[u8; 16]>::try_from(uuid) {
        Ok(uuid) if *first == 1 => Some(PeerId(uuid)),
        _ => None,
    }
}

// The message that the frames mean, if they mean one, with copies of what it holds.
fn message_of(alloc: Global, frames: &Frames) -> Result<Option<Arrival>, OutOfMemory>
    ensures { IfOk result (λ a. a ≡ option_map (λ m. MessageArrival m) (result_ok (read_frames frames.now))) }
{
    match Message::read(alloc, frames) {
        Ok(message) => Ok(Some(Arrival::Message(message))),
        Err(ReadFault::Bad(_)) => Ok(None),
        Err(ReadFault::OutOfMemory) => Err(OutOfMemory),
    }
}

// The PING that an item is, if it is one.
fn ping_of(alloc: Global, what: &What) -> Result<Option<Arrival>, OutOfMemory>
    ensures { IfOk result (λ a. a ≡ option_map (λ t. PingArrival t) (context_in what.now)) }
{
    match what.context() {
        Some(context) => Ok(Some(Arrival::Ping(Octets::copy(alloc, context)?))),
        None => Ok(None),
    }
}

/// What arrives with an item, if anything does. Messages outside the grammar and commands other than PING don't.
pub fn arrival_of(alloc: Global, what: &What) -> Result<Option<Arrival>, OutOfMemory>
    ensures { IfOk result (λ a. a ≡ arrival_of what.now) }
{
    match what {
        What::Greeting { .. } => Ok(Some(Arrival::Greeted)),
        What::Ready { .. } => Ok(introduced_by(what).map(Arrival::Shaken)),
        What::Command { .. } => ping_of(alloc, what),
        What::Message(frames) => message_of(alloc, frames),
    }
}

// The peer that READY introduces, if the item is READY.
fn introduced_by(what: &What) -> Option<PeerId>
    ensures { result ≡ option_and_then introduced (arrival_of what.now) }
{
    match what {
        What::Ready { identity, .. } => match identity {
            Some(identity) => peer_of(identity.as_slice()),
            None => None,
        },
        What::Greeting { .. } | What::Command { .. } | What::Message(_) => None,
    }
}

// Whom the first READY among the items introduces.
fn introduced_in(items: &[Item]) -> Option<PeerId>
    ensures { result ≡ identity_in (arrivals_in items.now) }
{
    for item in items {
        if let Some(peer) = introduced_by(&item.what) {
            return Some(peer);
        }
    }
    None
}

/// Who is known after the items: who was before, and else whom they introduce.
pub(crate) fn known_after(known: Option<PeerId>, items: &[Item]) -> Option<PeerId>
    ensures { result ≡ option_or known (identity_in (arrivals_in items.now)) }
{
    match known {
        Some(peer) => Some(peer),
        None => introduced_in(items),
    }
}

// Appends what arrives with an item.
fn take_item(alloc: Global, what: &What, out: &mut Arrivals) -> Result<(), OutOfMemory>
    ensures { OnOk result (out.new ≡ out.old ++ option_to_list (arrival_of what.now)) }
{
    if let Some(arrival) = arrival_of(alloc, what)? {
        out.push(arrival)?;
    }
    Ok(())
}

/// Appends what arrives with the items.
pub(crate) fn take_items(
    alloc: Global,
    items: &[Item],
    out: &mut Arrivals,
) -> Result<(), OutOfMemory>
    ensures { OnOk result (out.new ≡ out.old ++ arrivals_in items.now) }
{
    for item in items {
        take_item(alloc, &item.what, out)?;
    }
    Ok(())
}

//! What can be seen of an entry from outside: what it asks to be said, and who is born with it.

ghost use Rattle.std.specs.Prelude.{◌≡◌, option_map, IfOk};
ghost use Rattle.std.specs.List.{list_any};
ghost use Rattle.zre_msg.specs.declared.message.Body.TheVariants.{Whisper, Shout};
ghost use Rattle.zre_audit.specs.Coding.{octets_of};
ghost use Rattle.zre_audit.specs.Seen.{asked_by, whispered_by, announced_by};
ghost use Rattle.zre_audit.specs.Seen.{first_entered as first, born_with, is_connect};

use crate::coding::{push_shout, push_whisper};
use std::alloc::Global;
use zre_beacon::Beacon;
use zre_outside::{Act, Command, Input};
use zre_peer::Event;
use zre_values::{Frames, Octets, OutOfMemory, PeerId};

fn whisper(alloc: Global, content: &Frames) -> Result<Octets, OutOfMemory>
    ensures { IfOk result (λ octets. octets ≡ octets_of (Whisper content.now)) }
{
    let mut octets = Octets::new(alloc);
    push_whisper(&mut octets, content.as_slice())?;
    Ok(octets)
}

fn shout(alloc: Global, group: &[u8], content: &Frames) -> Result<Octets, OutOfMemory>
    ensures { IfOk result (λ octets. octets ≡ octets_of (Shout group.now content.now)) }
{
    let mut octets = Octets::new(alloc);
    push_shout(&mut octets, group, content.as_slice())?;
    Ok(octets)
}

/// The octets of the message that a user asks to be said.
pub(crate) fn asked(alloc: Global, input: &Input) -> Result<Option<Octets>, OutOfMemory>
    ensures { IfOk result (λ octets. octets ≡ option_map octets_of (asked_by input.now)) }
{
    match input {
        Input::Do(Command::Whisper { content, .. }) => Ok(Some(whisper(alloc, content)?)),
        Input::Do(Command::Shout { group, content }) => {
            Ok(Some(shout(alloc, group.as_slice(), content)?))
        }
        _ => Ok(None),
    }
}

/// The peer that a message is to be said to, where a user asks for one to be said to one peer.
pub(crate) fn whispered(input: &Input) -> Option<PeerId>
    ensures { result ≡ whispered_by input.now }
{
    match input {
        Input::Do(Command::Whisper { peer, .. }) => Some(*peer),
        _ => None,
    }
}

/// The peer that a datagram announces.
pub(crate) fn announced(input: &Input) -> Option<PeerId>
    ensures { result ≡ announced_by input.now }
{
    let Input::Datagram { bytes, .. } = input else {
        return None;
    };
    match Beacon::read(bytes.as_slice()) {
        Some(beacon) => Some(beacon.id),
        None => None,
    }
}

fn first_entered(events: &[Event]) -> Option<PeerId>
    ensures { result ≡ first events.now }
{
    for event in events {
        if let Event::Enter { id, .. } = event {
            return Some(*id);
        }
    }
    None
}

fn has_connect(acts: &[Act]) -> bool
    ensures { result ≡ list_any is_connect acts.now }
{
    acts.iter().any(|act| matches!(act, Act::Connect { .. }))
}

/// The peer that is born with an entry: a link is made, to the peer that is announced or to the one that enters.
pub(crate) fn born(announced: Option<PeerId>, acts: &[Act], events: &[Event]) -> Option<PeerId>
    ensures { result ≡ born_with announced acts.now events.now }
{
    if !has_connect(acts) {
        return None;
    }
    match announced {
        Some(id) => Some(id),
        None => first_entered(events),
    }
}

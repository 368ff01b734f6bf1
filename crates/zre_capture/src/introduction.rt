//! How the peers of the exercise introduce themselves.

ghost use Rattle.std.specs.Prelude.{◌≡◌, ◌++◌, codes, decimal, IfOk, OnOk};
ghost use Rattle.zre_values.specs.Endpoint.{endpoint_text};
ghost use Rattle.zre_msg.specs.Spelling.{Fits, octets};
ghost use Rattle.zre_capture.specs.Exercise.{identity, host, beacon, hello, introduction, readiness};
ghost use Rattle.zre_capture.specs.Exercise.{heard, opened, introduced};

use std::alloc::Global;
use zre_beacon::Beacon;
use zre_msg::{Body, Message};
use zre_outside::{Entry, Input};
use zre_values::{Endpoint, Frames, Octets, OutOfMemory, Pairs, PeerId, push_decimal};
use zre_zmtp::{SocketType, greeting, ready};

// The port of each peer.
const PORT: u16 = 49152;

fn identity(peer: u8) -> PeerId
    ensures { result ≡ identity peer }
{
    let mut octets = [0u8; 16];
    octets[12..].copy_from_slice(&(peer as u32 + 1).to_be_bytes());
    PeerId(octets)
}

// The address of a peer.
fn host(peer: u8) -> [u8; 4]
    ensures { result ≡ host peer }
{
    [10, 1, 0, peer]
}

// The beacon of a peer.
#[tactic(auto, unfolding(crate::specs::Exercise::beacon))]
fn beacon(alloc: Global, peer: u8) -> Result<Octets, OutOfMemory>
    ensures { IfOk result (λ octets. octets ≡ beacon peer) }
{
    let beacon = Beacon {
        id: identity(peer),
        port: PORT,
    };
    Octets::copy(alloc, &beacon.write())
}

fn name(alloc: Global, peer: u8) -> Result<Octets, OutOfMemory>
    ensures { IfOk result (λ octets. octets ≡ codes "p" ++ decimal peer) }
{
    let mut name = Octets::copy(alloc, b"p")?;
    push_decimal(&mut name, peer as u64)?;
    Ok(name)
}

fn endpoint(alloc: Global, peer: u8) -> Result<Octets, OutOfMemory>
    ensures { IfOk result (λ octets. octets ≡ endpoint_text (record { addr = host peer; port = 49152 })) }
{
    Endpoint {
        addr: host(peer),
        port: PORT,
    }
    .write(alloc)
}

// Its HELLO.
#[tactic(auto, unfolding(crate::specs::Exercise::hello))]
fn hello(alloc: Global, peer: u8) -> Result<Message, OutOfMemory>
    ensures says { IfOk result (λ message. octets message ≡ hello peer) }
    ensures fits { IfOk result (λ message. Fits message) }
{
    let endpoint = endpoint(alloc, peer)?;
    let name = name(alloc, peer)?;
    Ok(Message {
        sequence: 1,
        body: Body::Hello {
            endpoint,
            groups: Frames::new(alloc),
            status: 0,
            name,
            headers: Pairs::new(alloc),
        },
    })
}

// Appends the octets of a message.
fn push_message(out: &mut Octets, message: Message) -> Result<(), OutOfMemory>
    requires { Fits message }
    ensures { OnOk result (out.new ≡ out.old ++ octets message) }
{
    let pushed = message.push_to(out);
    drop(message);
    pushed
}

// Its READY.
fn readiness(alloc: Global, peer: u8) -> Result<Octets, OutOfMemory>
    ensures { IfOk result (λ octets. octets ≡ readiness peer) }
{
    ready(alloc, SocketType::Dealer, Some(identity(peer)))
}

fn push_ready(alloc: Global, out: &mut Octets, peer: u8) -> Result<(), OutOfMemory>
    ensures { OnOk result (out.new ≡ out.old ++ readiness peer) }
{
    let ready = readiness(alloc, peer)?;
    out.append(ready.as_slice())
}

// What comes after its greeting.
fn push_rest(alloc: Global, out: &mut Octets, peer: u8) -> Result<(), OutOfMemory>
    ensures { OnOk result (out.new ≡ out.old ++ readiness peer ++ hello peer) }
{
    push_ready(alloc, out, peer)?;
    push_message(out, hello(alloc, peer)?)
}

// What comes first on the connection of a peer.
#[tactic(auto, unfolding(crate::specs::Exercise::introduction))]
fn introduction(alloc: Global, peer: u8) -> Result<Octets, OutOfMemory>
    ensures { IfOk result (λ octets. octets ≡ introduction peer) }
{
    let mut octets = Octets::copy(alloc, &greeting())?;
    push_rest(alloc, &mut octets, peer)?;
    Ok(octets)
}

fn at_start(input: Input) -> Entry
    ensures { result ≡ record { at = 0; input = input } }
{
    Entry { at: 0, input }
}

/// The beacon of a peer is heard.
pub(crate) fn heard(alloc: Global, peer: u8) -> Result<Entry, OutOfMemory>
    ensures { IfOk result (λ entry. entry ≡ heard peer) }
{
    let bytes = beacon(alloc, peer)?;
    Ok(at_start(Input::Datagram {
        from: host(peer),
        bytes,
    }))
}

/// A peer opens its connection.
pub(crate) fn opened(peer: u8) -> Entry
    ensures { result ≡ opened peer }
{
    at_start(Input::Opened {
        conn: peer as u64 + 1,
    })
}

/// A peer introduces itself.
pub(crate) fn introduced(alloc: Global, peer: u8) -> Result<Entry, OutOfMemory>
    ensures { IfOk result (λ entry. entry ≡ introduced peer) }
{
    let bytes = introduction(alloc, peer)?;
    Ok(at_start(Input::Piece {
        conn: peer as u64 + 1,
        bytes,
    }))
}

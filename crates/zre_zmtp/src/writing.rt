//! What this node writes of a stream.

ghost use Rattle.std.specs.Prelude.{◌≡◌, ◌≤◌, ◌<◌, ◌++◌, length, IfOk, OnOk};
ghost use Rattle.zre_values.specs.Framing.{frame, frames as frames_of};
ghost use Rattle.zre_zmtp.specs.Written.{own_greeting, socket_name, property_octets, identity_octets, ready_frame};
ghost use Rattle.zre_zmtp.specs.Written.{pong_frame};

use std::alloc::Global;
use zre_values::{Frames, Octets, OutOfMemory, PeerId};

/// The types of the two sockets that peers of RFC 36 have: a DEALER sends to the ROUTER of another.
#[derive(Clone, Copy, Debug, PartialEq, Eq)]
pub enum SocketType {
    /// The socket that sends to one peer.
    Dealer,
    /// The mailbox, which many DEALERs send to.
    Router,
}

const GREETING: [u8; 64] = [
    0xff, 0, 0, 0, 0, 0, 0, 0, 0, 0x7f, 3, 1, b'N', b'U', b'L', b'L', 0, 0, 0, 0, 0, 0, 0, 0, 0, 0,
    0, 0, 0, 0, 0, 0, 0, 0, 0, 0, 0, 0, 0, 0, 0, 0, 0, 0, 0, 0, 0, 0, 0, 0, 0, 0, 0, 0, 0, 0, 0, 0,
    0, 0, 0, 0, 0, 0,
];

/// The greeting of this node (RFC 23, greeting): version 3.1 (RFC 37), of which it has PING and PONG, the NULL
/// mechanism, no server.
pub fn greeting() -> [u8; 64]
    ensures { result ≡ own_greeting }
{
    GREETING
}

fn socket_name(kind: SocketType) -> &'static [u8]
    ensures { result.now ≡ socket_name kind }
{
    match kind {
        SocketType::Dealer => b"DEALER",
        SocketType::Router => b"ROUTER",
    }
}

fn push_property(out: &mut Octets, name: &[u8], value: &[u8]) -> Result<(), OutOfMemory>
    requires name { length name.now < 256 }
    requires value { length value.now < 256 }
    ensures { OnOk result (out.new ≡ out.old ++ property_octets name.now value.now) }
{
    out.push(name.len() as u8)?;
    out.append(name)?;
    out.append(&(value.len() as u32).to_be_bytes())?;
    out.append(value)
}

fn push_identity(out: &mut Octets, identity: Option<PeerId>) -> Result<(), OutOfMemory>
    ensures { OnOk result (out.new ≡ out.old ++ identity_octets identity) }
{
    match identity {
        None => Ok(()),
        Some(id) => {
            let mut value = [1u8; 17];
            value[1..].copy_from_slice(&id.0);
            push_property(out, b"Identity", &value)
        }
    }
}

// A frame in its shortest form. The flags are those of a short one.
fn push_frame(out: &mut Octets, flags: u8, body: &[u8]) -> Result<(), OutOfMemory>
    requires { flags < 5 }
    ensures { OnOk result (out.new ≡ out.old ++ frame flags body.now) }
{
    if body.len() < 256 {
        out.push(flags)?;
        out.push(body.len() as u8)?;
    } else {
        out.push(flags + 2)?;
        out.append(&(body.len() as u64).to_be_bytes())?;
    }
    out.append(body)
}

/// READY with the type of this node's socket, and its identity where one is given (RFC 23, the NULL mechanism): a whole
/// command frame.
pub fn ready(
    alloc: Global,
    kind: SocketType,
    identity: Option<PeerId>,
) -> Result<Octets, OutOfMemory>
    ensures { IfOk result (λ octets. octets ≡ ready_frame kind identity) }
{
    let mut body = Octets::copy(alloc, b"\x05READY")?;
    push_property(&mut body, b"Socket-Type", socket_name(kind))?;
    push_identity(&mut body, identity)?;
    let mut octets = Octets::new(alloc);
    push_frame(&mut octets, 4, body.as_slice())?;
    Ok(octets)
}

/// PONG with the context of the PING that it answers (RFC 37, heartbeats): a whole command frame. Where the context has
/// at most 16 octets, as that of a PING has, it takes no memory.
pub fn pong(alloc: Global, context: &[u8]) -> Result<Octets, OutOfMemory>
    ensures { IfOk result (λ octets. octets ≡ pong_frame context.now) }
{
    let mut body = Octets::copy(alloc, b"\x04PONG")?;
    body.append(context)?;
    let mut octets = Octets::new(alloc);
    push_frame(&mut octets, 4, body.as_slice())?;
    Ok(octets)
}

/// The frames of a message, each in its shortest form (RFC 23, framing).
pub fn write_message(alloc: Global, frames: &Frames) -> Result<Octets, OutOfMemory>
    requires { 1 ≤ length frames.now }
    ensures { IfOk result (λ octets. octets ≡ frames_of frames.now) }
{
    let mut octets = Octets::new(alloc);
    let Some((last, others)) = frames.as_slice().split_last() else {
        return Ok(octets);
    };
    for frame in others {
        push_frame(&mut octets, 1, frame.as_slice())?;
    }
    push_frame(&mut octets, 0, last.as_slice())?;
    Ok(octets)
}

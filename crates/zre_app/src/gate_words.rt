//! The words of `gate`.

ghost use Rattle.std.specs.Prelude.{◌≡◌, ◌==◌, ◌≤◌, map, position, IfOk, IfSome};
ghost use Rattle.zre_app.specs.GateWords.{gate_keys, clients_in, port_of_place, place_of, local_in, gate_in};
ghost use Rattle.zre_app.specs.GateWords.{is_gate, gate_of, CanGate};

use crate::chat_words::{chat_in, keys_of_chat};
use crate::keys::{Key, Often, are_words_of, value_of};
use crate::node_words::keys_of_node;
use crate::words::{after_name, is_named};
use std::alloc::Global;
use zre_capture::{address, found, number};
use zre_chat::Chat;
use zre_gate::Gate;
use zre_values::{Endpoint, Frames, Octets, OutOfMemory};

// The keys of `gate`: those of `chat`, and two more.
fn gate_keys() -> [Key<'static>; 14]
    ensures { map (λ key. (key.0.now, key.1)) result ≡ gate_keys }
{
    keys_of_chat!((b"clients=", Often::Once), (b"local=", Often::Once))
}

// How many clients there are.
fn clients_in(words: &[Octets]) -> Option<u8>
    ensures value { result ≡ clients_in words.now }
    ensures some { IfSome result (λ n. 1 ≤ n) }
    ensures few { IfSome result (λ n. n ≤ 14) }
{
    let text = value_of(b"clients=", words)?;
    match number(text) {
        Some(n) if 1 <= n && n <= 14 => Some(n as u8),
        _ => None,
    }
}

fn port_of_place(text: &[u8]) -> Option<u16>
    ensures { result ≡ port_of_place text.now }
{
    match number(text) {
        Some(n) if 1 <= n && n <= 65535 => Some(n as u16),
        _ => None,
    }
}

fn colon_in(text: &[u8]) -> Option<usize>
    ensures { result ≡ position (λ b. b == 58) text.now }
{
    text.iter().position(|b| *b == b':')
}

// An address and a port, with `:` between them.
fn place_of(text: &[u8]) -> Option<Endpoint>
    ensures { result ≡ place_of text.now }
{
    let (front, rest) = text.split_at(colon_in(text)?);
    let (_, after) = rest.split_at(1);
    let addr = address(front)?;
    let port = port_of_place(after)?;
    Some(Endpoint { addr, port })
}

// Where the clients come to.
fn local_in(words: &[Octets]) -> Option<Endpoint>
    ensures { result ≡ local_in words.now }
{
    place_of(value_of(b"local=", words)?)
}

fn gate_in(alloc: Global, words: &[Octets]) -> Result<Option<Gate>, OutOfMemory>
    ensures value { IfOk result (λ gate. gate ≡ gate_in words.now) }
    ensures ready { IfOk result (λ gate. IfSome gate CanGate) }
{
    let Chat {
        config,
        start,
        capture,
    } = found!(chat_in(alloc, words)?);
    let local = found!(local_in(words));
    let clients = found!(clients_in(words));
    Ok(Some(Gate {
        config,
        start,
        capture,
        local,
        clients,
    }))
}

/// Whether the name of the call is `gate`.
pub fn is_gate(words: &Frames) -> bool
    ensures { result ≡ is_gate words.now }
{
    is_named(b"gate", words)
}

/// The gate that the words are. None where they aren't its name and words of its list, or where one isn't UTF-8.
pub fn gate_of(alloc: Global, words: &Frames) -> Result<Option<Gate>, OutOfMemory>
    ensures value { IfOk result (λ gate. gate ≡ gate_of words.now) }
    ensures ready { IfOk result (λ gate. IfSome gate CanGate) }
{
    match after_name(b"gate", words) {
        Some(words) if are_words_of(&gate_keys(), words) => gate_in(alloc, words),
        _ => Ok(None),
    }
}

//! The words that set up a node.

ghost use Rattle.std.specs.Prelude.{◌≡◌, ◌==◌, ◌∷◌, ℕ, List, [], true, None, if◌then◌else◌, map};
ghost use Rattle.std.specs.Prelude.{option_and_then, position, codes, IfOk, IfSome};
ghost use Rattle.zre_app.specs.NodeWords.{node_keys, number_or, port_of, id_in, host_in, port_in, evasive_in};
ghost use Rattle.zre_app.specs.NodeWords.{expired_in, fixed_in, name_in, header_of, headers_from, config_in};
ghost use Rattle.zre_app.specs.Keys.{after as after_key, value_of as value_of_key};
ghost use Rattle.zre_values.specs.Settings.{is_valid};

use crate::keys::{Key, Often, after, begins, identity, value_of};
use std::alloc::Global;
use zre_capture::{address, found, number};
use zre_journal::Config;
use zre_values::{Octets, OutOfMemory, Pairs, PeerId};

/// The settings of fixed size.
#[derive(Clone, Copy, Debug)]
pub(crate) struct Fixed {
    pub id: PeerId,
    pub host: [u8; 4],
    pub port: u16,
    pub evasive: u64,
    pub expired: u64,
}

/// An array of the keys of a node, and of more.
macro_rules! keys_of_node {
    ($($more:expr),*) => {
        [
            (b"id=", Often::Once),
            (b"host=", Often::Once),
            (b"port=", Often::Once),
            (b"name=", Often::AtMostOnce),
            (b"header=", Often::AnyTimes),
            (b"evasive=", Often::AtMostOnce),
            (b"expired=", Often::AtMostOnce),
            $($more),*
        ]
    };
}

pub(crate) use keys_of_node;

/// The keys of a node.
pub(crate) fn node_keys() -> [Key<'static>; 7]
    ensures { map (λ key. (key.0.now, key.1)) result ≡ node_keys }
{
    keys_of_node!()
}

/// The number of a key that may be left out.
pub(crate) fn number_or(default: u64, key: &[u8], words: &[Octets]) -> Option<u64>
    ensures { result ≡ number_or default (value_of_key key.now words.now) }
{
    match value_of(key, words) {
        Some(text) => number(text),
        None => Some(default),
    }
}

fn port_of(text: &[u8]) -> Option<u16>
    ensures { result ≡ port_of text.now }
{
    match number(text) {
        Some(n) if n < 65536 => Some(n as u16),
        _ => None,
    }
}

fn id_in(words: &[Octets]) -> Option<PeerId>
    ensures { result ≡ id_in words.now }
{
    identity(value_of(b"id=", words)?)
}

fn host_in(words: &[Octets]) -> Option<[u8; 4]>
    ensures { result ≡ host_in words.now }
{
    address(value_of(b"host=", words)?)
}

fn port_in(words: &[Octets]) -> Option<u16>
    ensures { result ≡ port_in words.now }
{
    port_of(value_of(b"port=", words)?)
}

fn evasive_in(words: &[Octets]) -> Option<u64>
    ensures { result ≡ evasive_in words.now }
{
    number_or(5000, b"evasive=", words)
}

fn expired_in(words: &[Octets]) -> Option<u64>
    ensures { result ≡ expired_in words.now }
{
    number_or(30000, b"expired=", words)
}

fn fixed_in(words: &[Octets]) -> Option<Fixed>
    ensures { result ≡ fixed_in words.now }
{
    let host = host_in(words)?;
    Some(Fixed {
        id: id_in(words)?,
        host,
        port: port_in(words)?,
        evasive: evasive_in(words)?,
        expired: expired_in(words)?,
    })
}

fn name_in(alloc: Global, id: PeerId, words: &[Octets]) -> Result<Octets, OutOfMemory>
    ensures { IfOk result (λ name. name ≡ name_in id words.now) }
{
    match value_of(b"name=", words) {
        Some(text) => Octets::copy(alloc, text),
        None => Octets::copy(alloc, &id.write()[..6]),
    }
}

fn place_of(text: &[u8], octet: u8) -> Option<usize>
    ensures { result ≡ position (λ b. b == octet) text.now }
{
    text.iter().position(|b| *b == octet)
}

// The header of a text, copied.
fn header_of(alloc: Global, text: &[u8]) -> Result<Option<(Octets, Octets)>, OutOfMemory>
    ensures { IfOk result (λ header. header ≡ header_of text.now) }
{
    let Some(i) = place_of(text, b'=') else {
        return Ok(None);
    };
    let (front, rest) = text.split_at(i);
    let (_, after) = rest.split_at(1);
    Ok(Some((Octets::copy(alloc, front)?, Octets::copy(alloc, after)?)))
}

// The header of a word that begins with the key of one.
fn header_in(alloc: Global, word: &[u8]) -> Result<Option<(Octets, Octets)>, OutOfMemory>
    ensures { IfOk result (λ header. header ≡ option_and_then header_of (after_key (codes "header=") word.now)) }
{
    match after(b"header=", word) {
        Some(text) => header_of(alloc, text),
        None => Ok(None),
    }
}

// A word's header is appended, if it is the word of one. Says whether it isn't a bad one.
fn take_header(alloc: Global, word: &[u8], headers: &mut Pairs) -> Result<bool, OutOfMemory>
    ensures { (words : List (List ℕ)) → IfOk result (λ good. headers_from headers.old (word.now ∷ words)
        ≡ (if good then headers_from headers.new words else None)) }
{
    if !begins(b"header=", word) {
        return Ok(true);
    }
    let Some((name, value)) = header_in(alloc, word)? else {
        return Ok(false);
    };
    headers.push(name, value)?;
    Ok(true)
}

fn headers_in(alloc: Global, words: &[Octets]) -> Result<Option<Pairs>, OutOfMemory>
    ensures { IfOk result (λ headers. headers ≡ headers_from [] words.now) }
{
    let mut headers = Pairs::new(alloc);
    for word in words {
        if !take_header(alloc, word.as_slice(), &mut headers)? {
            return Ok(None);
        }
    }
    Ok(Some(headers))
}

/// The settings that the words name, where a node can be with them.
pub(crate) fn config_in(alloc: Global, words: &[Octets]) -> Result<Option<Config>, OutOfMemory>
    ensures value { IfOk result (λ config. config ≡ config_in words.now) }
    ensures valid { IfOk result (λ config. IfSome config (λ g. is_valid g ≡ true)) }
{
    let fixed = found!(fixed_in(words));
    let headers = found!(headers_in(alloc, words)?);
    let config = Config {
        id: fixed.id,
        name: name_in(alloc, fixed.id, words)?,
        headers,
        host: fixed.host,
        port: fixed.port,
        evasive: fixed.evasive,
        expired: fixed.expired,
    };
    if config.valid() {
        Ok(Some(config))
    } else {
        Ok(None)
    }
}

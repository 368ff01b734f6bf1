//! The words of `chat`.

ghost use Rattle.std.specs.Prelude.{◌≡◌, ◌≤◌, ◌∷◌, ℕ, List, [], true, None, if◌then◌else◌, map};
ghost use Rattle.std.specs.Prelude.{option_and_then, length, IfOk, IfSome};
ghost use Rattle.std.specs.Str.{is_utf8};
ghost use Rattle.zre_app.specs.ChatWords.{addresses_from, address_or, beacon_in, capture_in, file_name_of, interval_in};
ghost use Rattle.zre_app.specs.ChatWords.{listen_in, start_in, to_in, chat_keys, chat_in, chat_of, CanChat};
ghost use Rattle.zre_app.specs.Keys.{value_of as value_of_key};
ghost use Rattle.zre_app.specs.NodeWords.{between, number_or as number_or_default};

use crate::keys::{Key, Often, after, are_words_of, value_of};
use crate::node_words::{config_in, keys_of_node, number_or};
use crate::words::{after_name, is_text};
use std::alloc::Global;
use zre_capture::{address, found};
use zre_chat::Chat;
use zre_journal::Config;
use zre_outside::{Addresses, Start};
use zre_values::{Frames, Octets, OutOfMemory};

// The most addresses to which beacons are sent.
const ADDRESSES: usize = 64;

// The milliseconds of a day, the longest time from one beacon to the next.
const DAY: u64 = 86400000;

/// An array of the keys of `chat`, those of a node and five more, and of more.
macro_rules! keys_of_chat {
    ($($more:expr),*) => {
        keys_of_node!(
            (b"to=", Often::AnyTimes),
            (b"listen=", Often::AtMostOnce),
            (b"beacon=", Often::AtMostOnce),
            (b"interval=", Often::AtMostOnce),
            (b"capture=", Often::AtMostOnce)
            $(, $more)*
        )
    };
}

pub(crate) use keys_of_chat;

fn chat_keys() -> [Key<'static>; 12]
    ensures { map (λ key. (key.0.now, key.1)) result ≡ chat_keys }
{
    keys_of_chat!()
}

// A word's address is appended, if it is the word of one. Says whether it isn't a bad one.
fn take_address(word: &[u8], to: &mut Addresses) -> Result<bool, OutOfMemory>
    ensures { (words : List (List ℕ)) → IfOk result (λ good. addresses_from to.old (word.now ∷ words)
        ≡ (if good then addresses_from to.new words else None)) }
{
    let Some(text) = after(b"to=", word) else {
        return Ok(true);
    };
    let Some(host) = address(text) else {
        return Ok(false);
    };
    to.push(host)?;
    Ok(true)
}

fn addresses_in(alloc: Global, words: &[Octets]) -> Result<Option<Addresses>, OutOfMemory>
    ensures { IfOk result (λ to. to ≡ addresses_from [] words.now) }
{
    let mut to = Addresses::new(alloc);
    for word in words {
        if !take_address(word.as_slice(), &mut to)? {
            return Ok(None);
        }
    }
    Ok(Some(to))
}

// Where beacons are sent to.
fn to_in(alloc: Global, words: &[Octets]) -> Result<Option<Addresses>, OutOfMemory>
    ensures value { IfOk result (λ to. to ≡ to_in words.now) }
    ensures few { IfOk result (λ to. IfSome to (λ list. length list ≤ 64)) }
{
    match addresses_in(alloc, words)? {
        Some(to) if to.len() <= ADDRESSES => Ok(Some(to)),
        _ => Ok(None),
    }
}

// The address of a key that may be left out.
fn address_or(default: [u8; 4], key: &[u8], words: &[Octets]) -> Option<[u8; 4]>
    ensures { result ≡ address_or default (value_of_key key.now words.now) }
{
    match value_of(key, words) {
        Some(text) => address(text),
        None => Some(default),
    }
}

fn listen_in(words: &[Octets]) -> Option<[u8; 4]>
    ensures { result ≡ listen_in words.now }
{
    address_or([0, 0, 0, 0], b"listen=", words)
}

// The number of a key that may be left out, where it is from 1 up to a limit.
fn number_up_to(high: u64, default: u64, key: &[u8], words: &[Octets]) -> Option<u64>
    ensures value { result
        ≡ option_and_then (between 1 high) (number_or_default default (value_of_key key.now words.now)) }
    ensures above { IfSome result (λ n. 1 ≤ n) }
    ensures below { IfSome result (λ n. n ≤ high) }
{
    match number_or(default, key, words) {
        Some(n) if 1 <= n && n <= high => Some(n),
        _ => None,
    }
}

fn beacon_in(words: &[Octets]) -> Option<u16>
    ensures value { result ≡ beacon_in words.now }
    ensures above { IfSome result (λ n. 1 ≤ n) }
{
    match number_up_to(65535, 5670, b"beacon=", words) {
        Some(n) => Some(n as u16),
        None => None,
    }
}

fn interval_in(words: &[Octets]) -> Option<u64>
    ensures value { result ≡ interval_in words.now }
    ensures above { IfSome result (λ n. 1 ≤ n) }
    ensures below { IfSome result (λ n. n ≤ 86400000) }
{
    number_up_to(DAY, 1000, b"interval=", words)
}

// How a node with these settings goes on the network.
fn start_in(alloc: Global, config: &Config, words: &[Octets]) -> Result<Option<Start>, OutOfMemory>
    // What the words say.
    ensures value { IfOk result (λ start. start ≡ start_in config.now words.now) }
    // It is of the node, within the limits.
    ensures host { IfOk result (λ start. IfSome start (λ s. s.host ≡ config.now.host)) }
    ensures port { IfOk result (λ start. IfSome start (λ s. s.port ≡ config.now.port)) }
    ensures few { IfOk result (λ start. IfSome start (λ s. length s.to ≤ 64)) }
    ensures beacon { IfOk result (λ start. IfSome start (λ s. 1 ≤ s.beacon_port)) }
    ensures interval { IfOk result (λ start. IfSome start (λ s. (1 ≤ s.interval) × (s.interval ≤ 86400000))) }
{
    let to = found!(to_in(alloc, words)?);
    let listen = found!(listen_in(words));
    let beacon_port = found!(beacon_in(words));
    let interval = found!(interval_in(words));
    Ok(Some(Start {
        host: config.host,
        port: config.port,
        listen,
        beacon_port,
        to,
        interval,
    }))
}

// The name of a file, copied.
fn file_name_of(alloc: Global, text: &[u8]) -> Result<Option<Octets>, OutOfMemory>
    ensures value { IfOk result (λ name. name ≡ file_name_of text.now) }
    ensures named { IfOk result (λ name. IfSome name (λ n. (1 ≤ length n) × (is_utf8 n ≡ true))) }
{
    if text.is_empty() || !is_text(text) {
        return Ok(None);
    }
    Ok(Some(Octets::copy(alloc, text)?))
}

// The file of a capture, where one is named.
fn capture_in(alloc: Global, words: &[Octets]) -> Result<Option<Option<Octets>>, OutOfMemory>
    ensures value { IfOk result (λ capture. capture ≡ capture_in words.now) }
    ensures named { IfOk result (λ capture. IfSome capture (λ c. IfSome c (λ n. (1 ≤ length n) × (is_utf8 n ≡ true)))) }
{
    let Some(text) = value_of(b"capture=", words) else {
        return Ok(Some(None));
    };
    let name = found!(file_name_of(alloc, text)?);
    Ok(Some(Some(name)))
}

/// The chat of these words.
pub(crate) fn chat_in(alloc: Global, words: &[Octets]) -> Result<Option<Chat>, OutOfMemory>
    ensures value { IfOk result (λ chat. chat ≡ chat_in words.now) }
    ensures ready { IfOk result (λ chat. IfSome chat CanChat) }
{
    let config = found!(config_in(alloc, words)?);
    let start = found!(start_in(alloc, &config, words)?);
    let capture = found!(capture_in(alloc, words)?);
    Ok(Some(Chat {
        config,
        start,
        capture,
    }))
}

/// The chat that the words are. None where they aren't its name and words of its list, or where one isn't UTF-8.
pub(crate) fn chat_of(alloc: Global, words: &Frames) -> Result<Option<Chat>, OutOfMemory>
    ensures value { IfOk result (λ chat. chat ≡ chat_of words.now) }
    ensures ready { IfOk result (λ chat. IfSome chat CanChat) }
{
    match after_name(b"chat", words) {
        Some(words) if are_words_of(&chat_keys(), words) => chat_in(alloc, words),
        _ => Ok(None),
    }
}

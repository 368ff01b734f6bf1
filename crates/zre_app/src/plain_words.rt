//! The words of the commands but `chat`.

ghost use Rattle.std.specs.Prelude.{◌≡◌, ◌≤◌, true, map, IfOk, IfSome};
ghost use Rattle.zre_values.specs.Settings.{is_valid};
ghost use Rattle.zre_app.specs.PlainWords.{alone, follow_of, node_of, replay_of, upgrade_of, group_in, table_of};
ghost use Rattle.zre_app.specs.PlainWords.{number_in, exercise_in};
ghost use Rattle.zre_app.specs.PlainWords.{exercise_keys, exercise_of, plain_named, plain_of, CanDo};

use crate::keys::{Key, Often, are_words_of, identity, value_of};
use crate::node_words::{config_in, node_keys};
use crate::words::are_texts;
use std::alloc::Global;
use zre_capture::{found, group, number};
use zre_journal::Config;
use zre_values::limits::GROUP_OCTETS;
use zre_values::{Frames, Octets, OutOfMemory, PeerId};

/// A command that has to do with a source and a sink alone.
#[derive(Drop)]
pub enum Plain {
    /// Write the events of one connection of this peer.
    Follow {
        id: PeerId,
    },
    /// Write a line for each item of a whole stream.
    Show,
    /// Write the events of a node with these settings, from a capture of format 1 of its journal.
    Replay {
        config: Config,
    },
    /// Write the events of a node from a capture of format 2, which says its settings.
    ReplayTold,
    /// Write a capture of format 1 of a node with these settings in format 2.
    Upgrade {
        config: Config,
    },
    /// Write the table that a node shares over a group, from a capture of format 2 of its journal.
    Table {
        group: Octets,
    },
    /// Write whether two nodes agree, from two captures of format 2.
    Audit,
    /// Write the events of several nodes, from a schedule.
    Simulate,
    /// Write the summary of a large journal that is made from a number.
    Exercise {
        seed: u64,
        peers: u16,
        messages: u32,
    },
}

fn follow_of(words: &[Octets]) -> Option<Plain>
    ensures value { result ≡ follow_of words.now }
    ensures ready { IfSome result CanDo }
{
    let keys: [Key<'_>; 1] = [(b"id=", Often::Once)];
    if !are_words_of(&keys, words) {
        return None;
    }
    let id = identity(value_of(b"id=", words)?)?;
    Some(Plain::Follow { id })
}

// A command that has no words.
fn alone(plain: Plain, words: &[Octets]) -> Option<Plain>
    requires { CanDo plain }
    ensures value { result ≡ alone plain words.now }
    ensures ready { IfSome result CanDo }
{
    if are_words_of(&[], words) {
        Some(plain)
    } else {
        None
    }
}

// The settings of a node by its words alone.
fn node_of(alloc: Global, words: &[Octets]) -> Result<Option<Config>, OutOfMemory>
    ensures value { IfOk result (λ config. config ≡ node_of words.now) }
    ensures ready { IfOk result (λ config. IfSome config (λ g. is_valid g ≡ true)) }
{
    if !are_words_of(&node_keys(), words) {
        return Ok(None);
    }
    config_in(alloc, words)
}

fn replay_of(alloc: Global, words: &[Octets]) -> Result<Option<Plain>, OutOfMemory>
    ensures value { IfOk result (λ plain. plain ≡ replay_of words.now) }
    ensures ready { IfOk result (λ plain. IfSome plain CanDo) }
{
    if words.is_empty() {
        return Ok(Some(Plain::ReplayTold));
    }
    let config = found!(node_of(alloc, words)?);
    Ok(Some(Plain::Replay { config }))
}

fn upgrade_of(alloc: Global, words: &[Octets]) -> Result<Option<Plain>, OutOfMemory>
    ensures value { IfOk result (λ plain. plain ≡ upgrade_of words.now) }
    ensures ready { IfOk result (λ plain. IfSome plain CanDo) }
{
    let config = found!(node_of(alloc, words)?);
    Ok(Some(Plain::Upgrade { config }))
}

// A group by its quoted text, where a group can have this name.
fn group_in(alloc: Global, text: &[u8]) -> Result<Option<Octets>, OutOfMemory>
    ensures { IfOk result (λ found. found ≡ group_in text.now) }
{
    match group(alloc, text)? {
        Some(name) if name.len() <= GROUP_OCTETS => Ok(Some(name)),
        _ => Ok(None),
    }
}

fn table_of(alloc: Global, words: &[Octets]) -> Result<Option<Plain>, OutOfMemory>
    ensures value { IfOk result (λ plain. plain ≡ table_of words.now) }
    ensures ready { IfOk result (λ plain. IfSome plain CanDo) }
{
    let keys: [Key<'_>; 1] = [(b"group=", Often::Once)];
    if !are_words_of(&keys, words) {
        return Ok(None);
    }
    let text = found!(value_of(b"group=", words));
    let group = found!(group_in(alloc, text)?);
    Ok(Some(Plain::Table { group }))
}

// The number of a key, where it is between these two.
fn number_in(key: &[u8], low: u64, high: u64, words: &[Octets]) -> Option<u64>
    ensures value { result ≡ number_in key.now low high words.now }
    ensures above { IfSome result (λ n. low ≤ n) }
    ensures below { IfSome result (λ n. n ≤ high) }
{
    match number(value_of(key, words)?) {
        Some(n) if low <= n && n <= high => Some(n),
        _ => None,
    }
}

// The numbers of an exercise.
fn exercise_in(words: &[Octets]) -> Option<Plain>
    ensures value { result ≡ exercise_in words.now }
    ensures ready { IfSome result CanDo }
{
    let seed = number_in(b"seed=", 0, u64::MAX, words)?;
    let peers = number_in(b"peers=", 1, 256, words)?;
    let messages = number_in(b"messages=", 0, 1000000, words)?;
    Some(Plain::Exercise {
        seed,
        peers: peers as u16,
        messages: messages as u32,
    })
}

// The keys of an exercise.
fn exercise_keys() -> [Key<'static>; 3]
    ensures { map (λ key. (key.0.now, key.1)) result ≡ exercise_keys }
{
    [
        (b"seed=", Often::Once),
        (b"peers=", Often::Once),
        (b"messages=", Often::Once),
    ]
}

fn exercise_of(words: &[Octets]) -> Option<Plain>
    ensures value { result ≡ exercise_of words.now }
    ensures ready { IfSome result CanDo }
{
    if !are_words_of(&exercise_keys(), words) {
        return None;
    }
    exercise_in(words)
}

// The command of this name, with these words.
fn plain_named(alloc: Global, name: &[u8], words: &[Octets]) -> Result<Option<Plain>, OutOfMemory>
    ensures value { IfOk result (λ plain. plain ≡ plain_named name.now words.now) }
    ensures ready { IfOk result (λ plain. IfSome plain CanDo) }
{
    if name == b"follow".as_slice() {
        return Ok(follow_of(words));
    }
    if name == b"show".as_slice() {
        return Ok(alone(Plain::Show, words));
    }
    if name == b"replay".as_slice() {
        return replay_of(alloc, words);
    }
    if name == b"upgrade".as_slice() {
        return upgrade_of(alloc, words);
    }
    if name == b"table".as_slice() {
        return table_of(alloc, words);
    }
    if name == b"audit".as_slice() {
        return Ok(alone(Plain::Audit, words));
    }
    if name == b"simulate".as_slice() {
        return Ok(alone(Plain::Simulate, words));
    }
    if name == b"exercise".as_slice() {
        return Ok(exercise_of(words));
    }
    Ok(None)
}

/// The command that the words are. None where they are in no list but that of `chat`, or where one isn't UTF-8.
pub(crate) fn plain_of(alloc: Global, words: &Frames) -> Result<Option<Plain>, OutOfMemory>
    ensures value { IfOk result (λ plain. plain ≡ plain_of words.now) }
    ensures ready { IfOk result (λ plain. IfSome plain CanDo) }
{
    let words = words.as_slice();
    let (name, others) = found!(words.split_first());
    if !are_texts(words) {
        return Ok(None);
    }
    plain_named(alloc, name.as_slice(), others)
}

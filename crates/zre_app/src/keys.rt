//! Keys and their values.

ghost use Rattle.std.specs.Prelude.{◌≡◌, map, count_by, is_some, option_copied};
ghost use Rattle.std.specs.List.{list_all, list_any};
ghost use Rattle.zre_app.specs.Keys.{are_words_of, begins, after, identity, may_stand, value_of};

use zre_values::{Octets, PeerId};

/// In how many words a key may stand.
#[derive(Clone, Copy, Debug, PartialEq, Eq)]
pub(crate) enum Often {
    Once,
    AtMostOnce,
    AnyTimes,
}

/// A key of a command, with its `=`, and how often it may stand.
pub(crate) type Key<'a> = (&'a [u8], Often);

/// What stands after a front, where the word begins with it.
pub(crate) fn after<'a>(key: &[u8], word: &'a [u8]) -> Option<&'a [u8]>
    ensures { option_copied result ≡ after key.now word.now }
{
    let mut rest = word;
    for k in key {
        match rest.split_first() {
            None => return None,
            Some((c, others)) => {
                if *c != *k {
                    return None;
                }
                rest = others;
            }
        }
    }
    Some(rest)
}

/// Whether the word begins with it.
pub(crate) fn begins(key: &[u8], word: &[u8]) -> bool
    ensures { result ≡ begins key.now word.now }
{
    after(key, word).is_some()
}

fn is_known(keys: &[Key<'_>], word: &[u8]) -> bool
    ensures { result ≡ list_any (λ key. begins key.0.now word.now) keys.now }
{
    keys.iter().any(|key| begins(key.0, word))
}

fn count_of(key: &[u8], words: &[Octets]) -> usize
    ensures { result ≡ count_by (begins key.now) words.now }
{
    words
        .iter()
        .filter(|word| begins(key, word.as_slice()))
        .count()
}

fn may_stand(often: Often, count: usize) -> bool
    ensures { result ≡ may_stand often count }
{
    match often {
        Often::Once => count == 1,
        Often::AtMostOnce => count <= 1,
        Often::AnyTimes => true,
    }
}

fn all_known(keys: &[Key<'_>], words: &[Octets]) -> bool
    ensures { result ≡ list_all (λ word. list_any (λ key. begins key.0.now word) keys.now) words.now }
{
    words.iter().all(|word| is_known(keys, word.as_slice()))
}

fn all_stand(keys: &[Key<'_>], words: &[Octets]) -> bool
    ensures { result ≡ list_all (λ key. may_stand key.1 (count_by (begins key.0.now) words.now)) keys.now }
{
    keys.iter()
        .all(|key| may_stand(key.1, count_of(key.0, words)))
}

/// Whether the words are those of a command with these keys.
pub(crate) fn are_words_of(keys: &[Key<'_>], words: &[Octets]) -> bool
    ensures { result ≡ are_words_of (map (λ key. (key.0.now, key.1)) keys.now) words.now }
{
    all_known(keys, words) && all_stand(keys, words)
}

/// The value of the first word of a key.
pub(crate) fn value_of<'a>(key: &[u8], words: &'a [Octets]) -> Option<&'a [u8]>
    ensures { option_copied result ≡ value_of key.now words.now }
{
    for word in words {
        if begins(key, word.as_slice()) {
            return after(key, word.as_slice());
        }
    }
    None
}

/// An identity in any text form of a UUID.
pub(crate) fn identity(text: &[u8]) -> Option<PeerId>
    ensures { result ≡ identity text.now }
{
    PeerId::read_octets(text)
}

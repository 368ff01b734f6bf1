//! The words of the command line as texts.

ghost use Rattle.std.specs.Prelude.{◌≡◌, option_map};
ghost use Rattle.std.specs.List.{list_all};
ghost use Rattle.std.specs.Str.{is_utf8};
ghost use Rattle.zre_app.specs.Names.{is_named, after_name};

use std::str;
use zre_values::{Frames, Octets};

/// Whether it is UTF-8.
pub(crate) fn is_text(word: &[u8]) -> bool
    ensures { result ≡ is_utf8 word.now }
{
    match str::from_utf8(word) {
        Ok(_) => true,
        Err(_) => false,
    }
}

/// Whether all are.
pub(crate) fn are_texts(words: &[Octets]) -> bool
    ensures { result ≡ list_all is_utf8 words.now }
{
    words.iter().all(|word| is_text(word.as_slice()))
}

/// Whether the first of the words is this name.
pub(crate) fn is_named(name: &[u8], words: &Frames) -> bool
    ensures { result ≡ is_named name.now words.now }
{
    match words.as_slice().split_first() {
        Some((first, _)) => first.as_slice() == name,
        None => false,
    }
}

/// The words after this name, where it stands first and all are UTF-8.
pub(crate) fn after_name<'a>(name: &[u8], words: &'a Frames) -> Option<&'a [Octets]>
    ensures { option_map (λ others. others.now) result ≡ after_name name.now words.now }
{
    let words = words.as_slice();
    let Some((first, others)) = words.split_first() else {
        return None;
    };
    if !are_texts(words) {
        return None;
    }
    if first.as_slice() == name {
        Some(others)
    } else {
        None
    }
}

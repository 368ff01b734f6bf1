//! Which word of the command line is no good, where the words are no command.

use crate::rules::{
    Kind, Often, Rule, chat_rules, exercise_rules, gate_rules, node_rules, reads_input,
};
use std::fmt::{self, Display, Formatter};
use std::str;
use zre_capture::number;
use zre_values::{Frames, Octets};

/// What is wrong, or what is asked for in place of a command.
#[derive(Clone, Copy)]
pub(crate) enum Mistake<'a> {
    /// There is no word at all, or the words ask for help.
    Help,
    /// The words ask which program this is.
    Version,
    /// A word isn't UTF-8.
    NotText,
    /// The first word is no command.
    NoCommand(&'a str),
    /// A word with no key of the command.
    NoKey(&'a str, &'a str),
    /// A word without `=`, where the command reads standard input.
    NotInput(&'a str),
    /// A key that must stand doesn't.
    Missing(&'a str, &'static str, Kind),
    /// A key stands more than once, and may not.
    Twice(&'a str, &'static str),
    /// A word's value isn't one of its key.
    NoValue(&'a str, &'a str, Kind),
    /// The time of EVASIVE is above that of EXIT.
    Times(&'a str),
    /// Every word by itself is good.
    Together(&'a str),
}

impl Display for Mistake<'_> {
    fn fmt<W: fmt::Write>(&self, f: &mut Formatter<W>) -> fmt::Result {
        match *self {
            Mistake::Help => f.write_str(
                "the words stand in the manual: man zre, or man -l docs/zre.1",
            ),
            Mistake::Version => f.write_str(
                "a node of ZRE (RFC 36), message version 2, beacon version 1, over ZMTP 3.0",
            ),
            Mistake::NotText => f.write_str("a word isn't UTF-8"),
            Mistake::NoCommand(word) => write!(f, "{word} is no command: zre help lists them"),
            Mistake::NoKey(command, word) => write!(
                f,
                "{command}: {word} is none of its words: zre help lists them"
            ),
            Mistake::NotInput(command) => write!(
                f,
                "{command} reads standard input, as in: zre {command} .. < FILE"
            ),
            Mistake::Missing(command, key, kind) => write!(
                f,
                "{command}: {key} is missing: {kind}"
            ),
            Mistake::Twice(command, key) => write!(f, "{command}: {key} may stand once"),
            Mistake::NoValue(command, word, kind) => write!(f, "{command}: {word} is not {kind}"),
            Mistake::Times(command) => write!(
                f,
                "{command}: evasive= is above expired= (by default 5000 and 30000)"
            ),
            Mistake::Together(command) => {
                write!(
                    f,
                    "{command}: more than 64 to=, more than 256 header=, or two of one name"
                )
            }
        }
    }
}

fn text_of(word: &Octets) -> Option<&str> {
    match str::from_utf8(word.as_slice()) {
        Ok(text) => Some(text),
        Err(_) => None,
    }
}

// The rule of a word's key, and the value.
fn rule_of<'a>(rules: &[Rule], word: &'a [u8]) -> Option<(Rule, &'a [u8])> {
    for rule in rules {
        if let Some(value) = word.strip_prefix(rule.key.as_bytes()) {
            return Some((*rule, value));
        }
    }
    None
}

// The first word that has none of the keys.
fn stray<'a>(command: &'a str, rules: &[Rule], words: &'a [Octets]) -> Option<Mistake<'a>> {
    for word in words {
        if rule_of(rules, word.as_slice()).is_some() {
            continue;
        }
        let Some(text) = text_of(word) else {
            return Some(Mistake::NotText);
        };
        if reads_input(command) && !word.as_slice().contains(&b'=') {
            return Some(Mistake::NotInput(command));
        }
        return Some(Mistake::NoKey(command, text));
    }
    None
}

fn count_of(key: &str, words: &[Octets]) -> usize {
    words
        .iter()
        .filter(|word| word.as_slice().starts_with(key.as_bytes()))
        .count()
}

// The first key that stands too seldom or too often.
fn uneven<'a>(command: &'a str, rules: &[Rule], words: &[Octets]) -> Option<Mistake<'a>> {
    for rule in rules {
        let count = count_of(rule.key, words);
        match rule.often {
            Often::Once if count == 0 => {
                return Some(Mistake::Missing(command, rule.key, rule.kind));
            }
            Often::Once | Often::AtMostOnce if count > 1 => {
                return Some(Mistake::Twice(command, rule.key));
            }
            _ => {}
        }
    }
    None
}

// The first word whose value isn't one of its key.
fn unfit<'a>(command: &'a str, rules: &[Rule], words: &'a [Octets]) -> Option<Mistake<'a>> {
    for word in words {
        let Some((rule, value)) = rule_of(rules, word.as_slice()) else {
            continue;
        };
        if rule.kind.is_met(value) {
            continue;
        }
        return match text_of(word) {
            Some(text) => Some(Mistake::NoValue(command, text, rule.kind)),
            None => Some(Mistake::NotText),
        };
    }
    None
}

// The number of a key, or its default.
fn number_or(default: u64, key: &str, words: &[Octets]) -> u64 {
    for word in words {
        if let Some(value) = word.as_slice().strip_prefix(key.as_bytes()) {
            return number(value).unwrap_or(default);
        }
    }
    default
}

fn among<'a>(command: &'a str, rules: &[Rule], words: &'a [Octets]) -> Mistake<'a> {
    if let Some(mistake) = stray(command, rules, words) {
        return mistake;
    }
    if let Some(mistake) = uneven(command, rules, words) {
        return mistake;
    }
    if let Some(mistake) = unfit(command, rules, words) {
        return mistake;
    }
    if number_or(5000, "evasive=", words) > number_or(30000, "expired=", words) {
        return Mistake::Times(command);
    }
    Mistake::Together(command)
}

fn of_command<'a>(command: &'a str, words: &'a [Octets]) -> Mistake<'a> {
    let id = [Rule::once("id=", Kind::Identity)];
    let group = [Rule::once("group=", Kind::Group)];
    match command {
        "chat" => among(command, &chat_rules(), words),
        "gate" => among(command, &gate_rules(), words),
        "replay" | "upgrade" => among(command, &node_rules(), words),
        "follow" => among(command, &id, words),
        "table" => among(command, &group, words),
        "exercise" => among(command, &exercise_rules(), words),
        "show" | "audit" | "simulate" => among(command, &[], words),
        "help" | "--help" | "-h" => Mistake::Help,
        "version" | "--version" | "-V" => Mistake::Version,
        _ => Mistake::NoCommand(command),
    }
}

/// What is wrong with words that are no command.
pub(crate) fn mistake_of(words: &Frames) -> Mistake<'_> {
    let Some((first, others)) = words.as_slice().split_first() else {
        return Mistake::Help;
    };
    match text_of(first) {
        Some(command) => of_command(command, others),
        None => Mistake::NotText,
    }
}

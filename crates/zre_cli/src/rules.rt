//! The words of each command, for what is said where they aren't met. What decides is `zre_app`.

use std::fmt::{self, Display, Formatter};
use std::str;
use zre_capture::{address, number};
use zre_values::{Endpoint, Frames, PeerId};

/// What a value may be.
#[derive(Clone, Copy)]
pub(crate) enum Kind {
    Identity,
    Address,
    Place,
    Name,
    Header,
    File,
    Group,
    Number(u64, u64),
}

// The place of the first such octet.
fn split_at(value: &[u8], octet: u8) -> Option<(&[u8], &[u8])> {
    let at = value.iter().position(|b| *b == octet)?;
    let (front, rest) = value.split_at(at);
    Some((front, &rest[1..]))
}

fn is_within(value: &[u8], low: u64, high: u64) -> bool {
    match number(value) {
        Some(n) => low <= n && n <= high,
        None => false,
    }
}

fn is_place(value: &[u8]) -> bool {
    match split_at(value, b':') {
        Some((host, port)) => address(host).is_some() && is_within(port, 1, 65535),
        None => false,
    }
}

fn is_header(value: &[u8]) -> bool {
    match split_at(value, b'=') {
        Some((name, value)) => name.len() <= 255 && value.len() <= 1024,
        None => false,
    }
}

impl Kind {
    /// Whether the value is one, as far as a value by itself can tell. Of a group the quoting isn't looked at.
    pub(crate) fn is_met(self, value: &[u8]) -> bool {
        match self {
            Kind::Identity => PeerId::read_octets(value).is_some(),
            Kind::Address => address(value).is_some(),
            Kind::Place => is_place(value),
            Kind::Name => value.len() <= 255 && str::from_utf8(value).is_ok(),
            Kind::Header => is_header(value) && str::from_utf8(value).is_ok(),
            Kind::File => !value.is_empty() && str::from_utf8(value).is_ok(),
            Kind::Group => false,
            Kind::Number(low, high) => is_within(value, low, high),
        }
    }
}

impl Display for Kind {
    fn fmt<W: fmt::Write>(&self, f: &mut Formatter<W>) -> fmt::Result {
        match *self {
            Kind::Identity => f.write_str("32 hexadecimal digits, as uuidgen prints them"),
            Kind::Address => f.write_str("an IPv4 address, as 192.168.1.7"),
            Kind::Place => f.write_str("an IPv4 address and a port, as 127.0.0.1:7000"),
            Kind::Name => f.write_str("a name of at most 255 octets"),
            Kind::Header => f.write_str("NAME=VALUE, of at most 255 and 1024 octets"),
            Kind::File => f.write_str("the name of a file"),
            Kind::Group => f.write_str("a group of at most 255 octets, quoted"),
            Kind::Number(low, high) => write!(f, "{low} to {high}"),
        }
    }
}

/// In how many words a key may stand.
#[derive(Clone, Copy)]
pub(crate) enum Often {
    Once,
    AtMostOnce,
    AnyTimes,
}

/// A key with its `=`, how often it may stand, and what its value may be.
#[derive(Clone, Copy)]
pub(crate) struct Rule {
    pub(crate) key: &'static str,
    pub(crate) often: Often,
    pub(crate) kind: Kind,
}

impl Rule {
    pub(crate) fn once(key: &'static str, kind: Kind) -> Rule {
        let often = Often::Once;
        Rule { key, often, kind }
    }

    fn maybe(key: &'static str, kind: Kind) -> Rule {
        let often = Often::AtMostOnce;
        Rule { key, often, kind }
    }

    fn many(key: &'static str, kind: Kind) -> Rule {
        let often = Often::AnyTimes;
        Rule { key, often, kind }
    }
}

/// The port of a mailbox, and the milliseconds up to a day.
const PORT: Kind = Kind::Number(1, 65535);

const TIME: Kind = Kind::Number(1, 86400000);

macro_rules! node_rules {
    ($($more:expr),*) => {
        [
            Rule::once("id=", Kind::Identity),
            Rule::once("host=", Kind::Address),
            Rule::once("port=", PORT),
            Rule::maybe("name=", Kind::Name),
            Rule::many("header=", Kind::Header),
            Rule::maybe("evasive=", TIME),
            Rule::maybe("expired=", TIME)
            $(, $more)*
        ]
    };
}

macro_rules! chat_rules {
    ($($more:expr),*) => {
        node_rules!(
            Rule::many("to=", Kind::Address),
            Rule::maybe("listen=", Kind::Address),
            Rule::maybe("beacon=", PORT),
            Rule::maybe("interval=", TIME),
            Rule::maybe("capture=", Kind::File)
            $(, $more)*
        )
    };
}

pub(crate) fn node_rules() -> [Rule; 7] {
    node_rules!()
}

pub(crate) fn chat_rules() -> [Rule; 12] {
    chat_rules!()
}

pub(crate) fn gate_rules() -> [Rule; 14] {
    chat_rules!(
        Rule::once("clients=", Kind::Number(1, 14)),
        Rule::once("local=", Kind::Place)
    )
}

pub(crate) fn exercise_rules() -> [Rule; 3] {
    [
        Rule::once("seed=", Kind::Number(0, u64::MAX)),
        Rule::once("peers=", Kind::Number(1, 256)),
        Rule::once("messages=", Kind::Number(0, 1000000)),
    ]
}

/// Whether the command reads standard input to its end.
pub(crate) fn reads_input(command: &str) -> bool {
    match command {
        "replay" | "upgrade" | "table" | "audit" | "simulate" | "follow" | "show" => true,
        _ => false,
    }
}

// The value of a key among the words, where it stands once.
fn value_of<'a>(words: &'a Frames, key: &[u8]) -> Option<&'a [u8]> {
    let mut found = None;
    for word in words.as_slice() {
        if let Some(value) = word.as_slice().strip_prefix(key) {
            if found.is_some() {
                return None;
            }
            found = Some(value);
        }
    }
    found
}

// An address and a port, with `:` between them.
fn place_of(host: &[u8], port: &[u8]) -> Option<Endpoint> {
    let addr = address(host)?;
    match number(port) {
        Some(n) if 1 <= n && n <= 65535 => Some(Endpoint {
            addr,
            port: n as u16,
        }),
        _ => None,
    }
}

/// How many clients a gate has; none where the words don't say.
pub(crate) fn clients_of(words: &Frames) -> u64 {
    match value_of(words, b"clients=") {
        Some(value) => number(value).unwrap_or(0),
        None => 0,
    }
}

/// The place of a gate's mailbox, where clients come to another port: one that is taken is told of at its turn.
pub(crate) fn mailbox_of(words: &Frames) -> Option<Endpoint> {
    let mailbox = place_of(value_of(words, b"host=")?, value_of(words, b"port=")?)?;
    let (host, port) = split_at(value_of(words, b"local=")?, b':')?;
    let local = place_of(host, port)?;
    if local.port == mailbox.port {
        return None;
    }
    Some(mailbox)
}

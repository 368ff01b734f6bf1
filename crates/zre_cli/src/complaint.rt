//! What is said on standard error where a command didn't do what was asked: one line.

use crate::mistake::{Mistake, mistake_of};
use std::fmt::{self, Display, Formatter};
use std::io::{self, Eprint, ErrorKind};
use std::net::{Ipv4Addr, SocketAddr};
use std::str;
use zre_fabric::{Reason, SystemPart};
use zre_values::{Endpoint, Frames};

// The system's reason, in words.
#[derive(Clone, Copy)]
struct Why(io::Error);

impl Display for Why {
    fn fmt<W: fmt::Write>(&self, f: &mut Formatter<W>) -> fmt::Result {
        match self.0.kind() {
            ErrorKind::AddrInUse => f.write_str("address already in use"),
            ErrorKind::NotFound => f.write_str("no such file or directory"),
            ErrorKind::StorageFull => f.write_str("no space left on device"),
            ErrorKind::Uncategorized => Display::fmt(&self.0, f),
            kind => Display::fmt(&kind, f),
        }
    }
}

fn address(at: Endpoint) -> SocketAddr {
    SocketAddr::from((Ipv4Addr::from(at.addr), at.port))
}

// The commands, each with the words that it must have.
const COMMANDS: &str = "\
usage: zre chat id=UUID host=ADDRESS port=PORT [WORD]...
       zre gate clients=N local=ADDRESS:PORT id=UUID host=ADDRESS port=PORT [WORD]...
       zre replay [id=UUID host=ADDRESS port=PORT [WORD]...] < CAPTURE
       zre upgrade id=UUID host=ADDRESS port=PORT [WORD]... < CAPTURE
       zre table group=GROUP < CAPTURE
       zre audit < CAPTURES
       zre simulate < SCHEDULE
       zre follow id=UUID < TRAFFIC
       zre show < STREAM
       zre exercise seed=N peers=N messages=N
WORD is one of name= header= evasive= expired=, and for chat and gate of to= listen= beacon= interval= capture= too.";

/// The words are no command, or ask for help.
pub(crate) fn of_words<R: Eprint>(rt: &R, words: &Frames) {
    let mistake = mistake_of(words);
    let _ = match mistake {
        Mistake::Help => eprintln!(rt; "{COMMANDS}\nzre: {mistake}"),
        _ => eprintln!(rt; "zre: {mistake}"),
    };
}

/// Standard input is bad at a place: a line and perhaps a column, or an octet of a stream.
pub(crate) fn of_input<R: Eprint>(rt: &R, words: &Frames, place: &str) {
    let command = first_of(words);
    let (line, column) = place.split_once(' ').unwrap_or((place, ""));
    let _ = match command {
        "follow" | "show" => eprintln!(rt;
            "zre: {command}: octet {place} of standard input: no greeting, frame or message goes on like that"
        ),
        "simulate" => eprintln!(rt;
            "zre: {command}: line {line} of standard input: no move, or one that can't be made: SCHEDULES in zre(1)"
        ),
        _ => eprintln!(rt;
            "zre: {command}: line {line}, column {column} of standard input: not as in a capture: CAPTURES in zre(1)"
        ),
    };
}

/// The system, or memory, didn't suffice.
pub(crate) fn of_system<R: Eprint>(rt: &R, what: &str) {
    let _ = eprintln!(rt; "zre: {what}");
}

/// A file, standard input or standard output couldn't be read or written.
pub(crate) fn of_file<R: Eprint>(rt: &R, what: &str, name: &str, reason: Option<io::Error>) {
    let _ = match reason {
        Some(reason) => eprintln!(rt; "zre: cannot {what} {name}: {}", Why(reason)),
        None => eprintln!(rt; "zre: cannot {what} {name}"),
    };
}

/// The network refused the node.
pub(crate) fn of_world<R: Eprint>(rt: &R, reason: Option<Reason>) {
    let Some(Reason { part, error }) = reason else {
        return;
    };
    let why = Why(error);
    let _ = match part {
        SystemPart::Clock => eprintln!(rt; "zre: cannot read the clock: {why}"),
        SystemPart::Poll => eprintln!(rt; "zre: cannot wait for the network: {why}"),
        SystemPart::Beacons(at) => eprintln!(rt;
            "zre: cannot hear beacons on {}: {why}",
            address(at)
        ),
        SystemPart::Mailbox(at) => eprintln!(rt; "zre: cannot listen on {}: {why}", address(at)),
    };
}

/// Clients couldn't be waited for.
pub(crate) fn of_desk<R: Eprint>(rt: &R, words: &Frames, reason: Option<io::Error>) {
    let place = value_of(words, b"local=").unwrap_or("the address of clients");
    let _ = match reason {
        Some(reason) => eprintln!(rt; "zre: cannot listen on {place}: {}", Why(reason)),
        None => eprintln!(rt; "zre: cannot listen on {place}"),
    };
}

/// A gate waits for one of its clients.
pub(crate) fn of_client<R: Eprint>(rt: &R, number: u64, clients: u64, place: Option<Endpoint>) {
    if let Some(place) = place {
        let at = address(place);
        let _ = eprintln!(rt; "zre: gate: waits for client {number} of {clients} on {at}");
    }
}

// The name of the command among the words.
fn first_of(words: &Frames) -> &str {
    match words.as_slice().first() {
        Some(word) => str::from_utf8(word.as_slice()).unwrap_or(""),
        None => "",
    }
}

// The value of a key among the words.
fn value_of<'a>(words: &'a Frames, key: &[u8]) -> Option<&'a str> {
    for word in words.as_slice() {
        if let Some(value) = word.as_slice().strip_prefix(key)
            && let Ok(value) = str::from_utf8(value)
        {
            return Some(value);
        }
    }
    None
}

/// The name of the capture among the words.
pub(crate) fn capture_of(words: &Frames) -> &str {
    value_of(words, b"capture=").unwrap_or("the capture")
}

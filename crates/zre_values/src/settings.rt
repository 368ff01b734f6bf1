//! The settings of a node, and what is required of them.

ghost use Rattle.std.specs.Prelude.{◌≡◌, ◌&&◌, nat_le, length, IfOk};
ghost use Rattle.std.specs.List.{list_all, list_any};
ghost use Rattle.std.specs.Str.{bytes_eq};
ghost use Rattle.zre_values.specs.Settings.{are_apart, is_fitting, is_valid};

use crate::limits::HEADERS;
use crate::{Octets, OutOfMemory, Pairs, PeerId, take_apart};
use std::alloc::Global;

/// The most octets of the node's name, and of the name of one of its headers.
pub const NAME_OCTETS: usize = 255;

/// The most octets of the value of one of its headers.
pub const VALUE_OCTETS: usize = 1024;

/// The milliseconds of a day, the longest time after which a silent peer expires.
pub const DAY: u64 = 86400000;

// Whether a header has this name.
fn has_name(headers: &[(Octets, Octets)], name: &[u8]) -> bool
    ensures { result ≡ list_any (λ other. bytes_eq other.0 name.now) headers.now }
{
    headers.iter().any(|header| header.0.as_slice() == name)
}

// Whether no two headers have one name. There are few of them, so each is compared with all after it.
fn are_apart(headers: &[(Octets, Octets)]) -> bool
    ensures { result ≡ are_apart headers.now }
{
    let mut rest = headers;
    while let Some((first, others)) = rest.split_first() {
        if has_name(others, first.0.as_slice()) {
            return false;
        }
        rest = others;
    }
    true
}

fn are_fitting(headers: &[(Octets, Octets)]) -> bool
    ensures { result ≡ list_all is_fitting headers.now }
{
    headers.iter().all(|header| header.0.len() <= NAME_OCTETS && header.1.len() <= VALUE_OCTETS)
}

// Whether the name and the headers are within the limits.
fn are_small(name: &[u8], headers: &Pairs) -> bool
    ensures { result ≡ (nat_le (length name.now) 255 && nat_le (length headers.now) 256
        && list_all is_fitting headers.now && are_apart headers.now) }
{
    name.len() <= NAME_OCTETS
        && headers.len() <= HEADERS
        && are_fitting(headers.as_slice())
        && are_apart(headers.as_slice())
}

/// Who a node is, and how long it waits for the others.
#[derive(Debug)]
pub struct Settings {
    /// The identity by which other nodes know it.
    pub id: PeerId,
    /// The name that its HELLO gives, of at most 255 octets.
    pub name: Octets,
    /// The headers that its HELLO gives, of distinct names.
    pub headers: Pairs,
    /// Where its mailbox is.
    pub host: [u8; 4],
    /// The TCP port of its mailbox, which isn't 0.
    pub port: u16,
    /// Milliseconds of silence after which a peer is evasive.
    pub evasive: u64,
    /// Milliseconds of silence after which it has expired.
    pub expired: u64,
}

impl Drop for Settings {
    fn drop(self) {
        take_apart!(self, Settings: id, name, headers, host, port, evasive, expired);
    }
}

impl Settings {
    /// A copy of the settings.
    pub fn copy(alloc: Global, other: &Settings) -> Result<Settings, OutOfMemory>
        ensures { IfOk result (λ settings. settings ≡ other.now) }
    {
        let name = Octets::copy(alloc, other.name.as_slice())?;
        let Ok(headers) = Pairs::copy(alloc, &other.headers) else {
            drop(name);
            return Err(OutOfMemory);
        };
        Ok(Settings {
            id: other.id,
            name,
            headers,
            host: other.host,
            port: other.port,
            evasive: other.evasive,
            expired: other.expired,
        })
    }

    /// Whether a node can be with these settings: the name has at most 255 octets, the headers are at most 256, of
    /// distinct names of at most 255 octets and values of at most 1,024; the port isn't 0; and the times stand in
    /// order, from 1 ms up to a day.
    pub fn valid(&self) -> bool
        ensures { result ≡ is_valid self.now }
    {
        are_small(self.name.as_slice(), &self.headers)
            && self.port > 0
            && self.evasive >= 1
            && self.evasive <= self.expired
            && self.expired <= DAY
    }
}

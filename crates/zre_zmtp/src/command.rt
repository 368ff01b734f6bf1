//! The bodies of commands (RFC 23, commands and the NULL mechanism).

ghost use Rattle.std.specs.Prelude.{◌≡◌, ℕ, ◌+◌, true, false, if◌then◌else◌, take, drop, MatchOption, ◌≤◌, ◌<◌};
ghost use Rattle.std.specs.Prelude.{length, IsTrue, slice_index, Some, None, codes, is_some, option_copied};
ghost use Rattle.std.specs.Prelude.{option_map, option_and_then};
ghost use Rattle.zre_zmtp.specs.Ready.{has_name as name_test, name as name_of, rest as rest_of, properties};
ghost use Rattle.zre_zmtp.specs.Ready.{value_of, ready_value as value_of_ready, socket_type as socket_type_of};
ghost use Rattle.zre_zmtp.specs.Ready.{identity as identity_of, is_name_octet as name_octet_test};
ghost use Rattle.zre_zmtp.specs.Ready.{has_value as value_test, value_len, has_property as property_test, property};
ghost use Rattle.zre_zmtp.specs.Ready.{after_property};
ghost use Rattle.std.specs.List.{list_all};
ghost use Rattle.std.specs.Option.{option_or};
ghost use Rattle.std.specs.Str.{str_eq_ignore_ascii_case};
ghost use Rattle.zre_zmtp.specs.Stream.{command_fault as fault_of_command, has_socket as socket_test};
ghost use Rattle.zre_zmtp.specs.Stream.{has_identity as identity_test, is_value as value_is};
ghost use Rattle.zre_zmtp.specs.Stream.{is_other as other_test};

use crate::expected::Expected;
use crate::fault::ZmtpWhy;
use crate::want::Want;
use zre_values::PeerId;

fn has_name(body: &[u8]) -> bool
    ensures { result ≡ name_test body.now }
{
    match body {
        [] => false,
        [n, rest @ ..] => *n >= 1 && *n as usize <= rest.len(),
    }
}

/// The name of a command, by its body: as much of it as is there (RFC 23, commands).
pub fn name(body: &[u8]) -> &[u8]
    ensures { result.now ≡ name_of body.now }
{
    match body {
        [] => body,
        [n, rest @ ..] => &rest[..rest.len().min(*n as usize)],
    }
}

/// What stands after the name of a command, by its body.
pub fn rest(body: &[u8]) -> &[u8]
    ensures { result.now ≡ rest_of body.now }
{
    match body {
        [] => body,
        [n, rest @ ..] => &rest[rest.len().min(*n as usize)..],
    }
}

/// What is wrong with the body of a command.
pub fn command_fault(want: &Want, expected: Expected, body: &[u8]) -> Option<ZmtpWhy>
    ensures { result ≡ fault_of_command want.now expected body.now }
{
    if !has_name(body) {
        return Some(ZmtpWhy::CommandName);
    }
    if expected != Expected::Ready {
        return None;
    }
    let name = name(body);
    if name == b"ERROR".as_slice() {
        return Some(ZmtpWhy::PeerError);
    }
    if name != b"READY".as_slice() {
        return Some(ZmtpWhy::Order);
    }
    if !are_properties(rest(body)) {
        return Some(ZmtpWhy::Metadata);
    }
    if !has_socket(want, body) {
        return Some(ZmtpWhy::SocketType);
    }
    if !has_identity(want, body) {
        return Some(ZmtpWhy::Identity);
    }
    None
}

fn is_name_octet(octet: u8) -> bool
    ensures { result ≡ name_octet_test octet }
{
    matches!(octet, b'A'..=b'Z' | b'a'..=b'z' | b'0'..=b'9' | b'-' | b'_' | b'.' | b'+')
}

fn are_name_octets(name: &[u8]) -> bool
    ensures { result ≡ list_all name_octet_test name.now }
{
    name.iter().all(|octet| is_name_octet(*octet))
}

/// The value at the front, after its length, and what follows it.
fn value_at(octets: &[u8]) -> Option<(&[u8], &[u8])>
    ensures { MatchOption result (value_test octets.now ≡ false)
        (λ found. (value_test octets.now ≡ true) × (found.0.now ≡ take (value_len octets.now) (drop 4 octets.now))
        × (found.1.now ≡ drop (4 + value_len octets.now) octets.now)) }
{
    if octets.len() < 4 {
        return None;
    }
    let size = u32::from_be_bytes([octets[0], octets[1], octets[2], octets[3]]) as usize;
    let later = &octets[4..];
    if later.len() < size {
        return None;
    }
    Some((&later[..size], &later[size..]))
}

/// The name, the value and the rest, where a property is at the front.
fn property_at(octets: &[u8]) -> Option<(&[u8], &[u8], &[u8])>
    ensures { MatchOption result (property_test octets.now ≡ false)
        (λ found. (property_test octets.now ≡ true) × ((found.0.now, found.1.now) ≡ property octets.now)
        × (found.2.now ≡ after_property octets.now)) }
{
    if !has_name(octets) {
        return None;
    }
    let name = name(octets);
    if !are_name_octets(name) {
        return None;
    }
    let (value, later) = value_at(rest(octets))?;
    Some((name, value, later))
}

/// What was found before, or else the value, where its name is the one that is wanted.
fn first_value<'a>(
    found: Option<&'a [u8]>,
    name: &[u8],
    value: &'a [u8],
    wanted: &[u8],
) -> Option<&'a [u8]>
    ensures { option_copied result
        ≡ option_or (option_copied found.entry)
        (if str_eq_ignore_ascii_case name.now wanted.now then Some value.now else None) }
{
    match found {
        Some(first) => Some(first),
        None => {
            if name.eq_ignore_ascii_case(wanted) {
                Some(value)
            } else {
                None
            }
        }
    }
}

/// The value of the first property of that name, where the octets are properties.
pub fn value_in<'a>(octets: &'a [u8], wanted: &[u8]) -> Option<Option<&'a [u8]>>
    ensures { option_map (λ found. option_copied found) result ≡ option_map (λ ps. value_of wanted.now ps)
        (properties octets.now) }
{
    let mut left = octets;
    let mut found: Option<&'a [u8]> = None;
    while !left.is_empty() {
        let (name, value, later) = property_at(left)?;
        found = first_value(found, name, value, wanted);
        left = later;
    }
    Some(found)
}

/// Whether the octets are properties, one after another.
fn are_properties(octets: &[u8]) -> bool
    ensures { result ≡ is_some (properties octets.now) }
{
    value_in(octets, &[]).is_some()
}

/// What READY's body says under a name.
fn ready_value<'a>(body: &'a [u8], wanted: &[u8]) -> Option<&'a [u8]>
    ensures { option_copied result ≡ value_of_ready wanted.now body.now }
{
    match value_in(rest(body), wanted) {
        Some(found) => found,
        None => None,
    }
}

/// The first value under `Socket-Type` in the body of READY; none where what stands after its name is no list of
/// properties.
pub fn socket_type(body: &[u8]) -> Option<&[u8]>
    ensures { option_copied result ≡ socket_type_of body.now }
{
    ready_value(body, b"Socket-Type")
}

/// The first value under `Identity`, in the same way.
pub fn identity(body: &[u8]) -> Option<&[u8]>
    ensures { option_copied result ≡ identity_of body.now }
{
    ready_value(body, b"Identity")
}

fn is_value(value: Option<&[u8]>, wanted: &[u8]) -> bool
    ensures { result ≡ value_is (option_copied value.entry) wanted.now }
{
    match value {
        Some(value) => value == wanted,
        None => false,
    }
}

fn is_other(own: &PeerId, identity: Option<&[u8]>) -> bool
    ensures { result ≡ other_test own.now.0 (option_copied identity.entry) }
{
    match identity {
        Some(value) => value.len() == 17 && value[0] == 1 && &value[1..] != own.0.as_slice(),
        None => false,
    }
}

fn has_socket(want: &Want, body: &[u8]) -> bool
    ensures { result ≡ socket_test want.now body.now }
{
    match want {
        Want::Any => true,
        Want::Router => is_value(socket_type(body), b"ROUTER"),
        Want::Dealer(_) => is_value(socket_type(body), b"DEALER"),
    }
}

fn has_identity(want: &Want, body: &[u8]) -> bool
    ensures { result ≡ identity_test want.now body.now }
{
    match want {
        Want::Any | Want::Router => true,
        Want::Dealer(own) => is_other(own, identity(body)),
    }
}

//! The texts of messages.

use crate::text::Text;
use zre_msg::Body;
use zre_values::{Frames, Octets, Pairs};

fn push_names(out: &mut Text, endpoint: &Octets, name: &Octets) {
    out.put(b" HELLO ");
    out.quoted(endpoint.as_slice());
    out.octet(b' ');
    out.quoted(name.as_slice());
    out.octet(b' ');
}

fn push_told(out: &mut Text, groups: &Frames, status: u8, headers: &Pairs) {
    out.frames(groups);
    out.count(b"", u64::from(status));
    out.octet(b' ');
    out.pairs(headers);
}

fn push_group(out: &mut Text, word: &[u8], group: &Octets, status: u8) {
    out.put(word);
    out.quoted(group.as_slice());
    out.count(b"", u64::from(status));
}

fn push_content(out: &mut Text, word: &[u8], content: &Frames) {
    out.put(word);
    out.frames(content);
}

fn push_shout(out: &mut Text, group: &Octets, content: &Frames) {
    push_content(out, b" SHOUT ", content);
    out.octet(b' ');
    out.quoted(group.as_slice());
}

fn push_other(out: &mut Text, number: u8, rest: &Octets, more: &Frames) {
    out.count(b" OTHER", u64::from(number));
    out.octet(b' ');
    out.quoted(rest.as_slice());
    push_content(out, b" ", more);
}

/// Appends a message: its number, its command, and its fields.
pub fn push_body(out: &mut Text, sequence: u16, body: &Body) {
    out.number(u64::from(sequence));
    match body {
        Body::Hello {
            endpoint,
            groups,
            status,
            name,
            headers,
        } => {
            push_names(out, endpoint, name);
            push_told(out, groups, *status, headers);
        }
        Body::Whisper { content } => push_content(out, b" WHISPER ", content),
        Body::Shout { group, content } => push_shout(out, group, content),
        Body::Join { group, status } => push_group(out, b" JOIN ", group, *status),
        Body::Leave { group, status } => push_group(out, b" LEAVE ", group, *status),
        Body::Ping => out.put(b" PING"),
        Body::PingOk => out.put(b" PING-OK"),
        Body::Other { number, rest, more } => push_other(out, *number, rest, more),
    }
}

//! The lines of acts, and of what a world is told beside them.

use crate::text::Text;
use zre_outside::{Act, Start};

fn push_octets(out: &mut Text, word: &[u8], n: u64, octets: &[u8]) {
    out.count(word, n);
    out.octet(b' ');
    out.hex(octets);
}

/// Appends the line of an act: `connect LINK A.B.C.D:PORT`, `close-link LINK`, `close-connection CONNECTION`, `answer
/// CONNECTION HEX`,
/// `offer LINK` or `beacon HEX`.
pub fn push_act(out: &mut Text, act: &Act) {
    match act {
        Act::Connect { link, to } => {
            out.count(b"connect", *link);
            out.octet(b' ');
            out.place(to.addr, to.port);
        }
        Act::CloseLink { link } => out.count(b"close-link", *link),
        Act::CloseConn { conn } => out.count(b"close-connection", *conn),
        Act::Answer { conn, bytes } => push_octets(out, b"answer", *conn, bytes.as_slice()),
        Act::Offer { link } => out.count(b"offer", *link),
        Act::Beacon { bytes } => {
            out.put(b"beacon ");
            out.hex(bytes);
        }
    }
    out.end();
}

/// Appends the line of octets that a link was offered: `offered LINK HEX`.
pub fn push_offered(out: &mut Text, link: u64, octets: &[u8]) {
    push_octets(out, b"offered", link, octets);
    out.end();
}

/// Appends the line of a start: `start HOST:PORT LISTEN:BEACON_PORT INTERVAL`, and each address to which beacons go.
pub fn push_start(out: &mut Text, s: &Start) {
    out.put(b"start ");
    out.place(s.host, s.port);
    out.octet(b' ');
    out.place(s.listen, s.beacon_port);
    out.octet(b' ');
    out.number(s.interval);
    for to in s.to.as_slice() {
        out.octet(b' ');
        out.address(*to);
    }
    out.end();
}

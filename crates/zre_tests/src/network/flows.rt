//! What goes from one world to another.

use super::*;
use std::process;
use std::test::Fail;

#[test]
fn a_beacon_goes_to_each_address_that_takes_it(rt: HostRuntime) {
    let [near, far, nobody] = hosts(process::id(rt.process()));
    let mut one = Watched::at(rt, near, &[nobody, far, near]);
    let mut other = Watched::at(rt, far, &[]);
    one.act(&Act::Beacon { bytes: [65; 22] });
    one.expect("Datagram", 1, 0, &[65; 22]);
    one.expect_quiet();
    other.expect("Datagram", 1, 0, &[65; 22]);
    other.expect_quiet();
    assert_eq!(rt; one.missed, "");
    assert_eq!(rt; other.missed, "");
}

// A link that the peer asked for and its connection: they open, and octets go both ways.
fn talk(node: &mut Watched, peer: &mut Watched, conn: u64, link: u64) {
    peer.expect("Linked", link, 0, b"");
    node.expect("Opened", conn, 0, b"");
    match Octets::copy(node.alloc, b"hello") {
        Ok(bytes) => node.answer(conn, bytes),
        Err(OutOfMemory) => node.note("hello", false),
    }
    peer.expect("Reply", link, 0, b"hello");
    peer.offer(link, b"abc");
    peer.offer(link, b"no further offer before the count");
    peer.expect("Took", link, 3, b"");
    node.expect("Piece", conn, 0, b"abc");
}

#[test]
fn a_link_and_its_connection_carry_octets_both_ways(rt: HostRuntime) {
    let [near, far, _] = hosts(process::id(rt.process()));
    let mut node = Watched::at(rt, near, &[]);
    let mut peer = Watched::at(rt, far, &[]);
    peer.connect(7, near);
    talk(&mut node, &mut peer, 1, 7);
    peer.connect(8, near);
    talk(&mut node, &mut peer, 2, 8);
    node.act(&Act::CloseConn { conn: 1 });
    peer.expect("Unlinked", 7, 0, b"");
    peer.act(&Act::CloseLink { link: 8 });
    node.expect("Shut", 2, 0, b"");
    node.expect_quiet();
    peer.expect_quiet();
    assert_eq!(rt; (node.missed, peer.missed), ("", ""));
}

// Half a minute is tried at an address where nobody is. A link that the poll has no name for isn't tried.
#[test]
fn a_refused_link_is_unlinked_once(rt: HostRuntime) {
    let [near, nobody, _] = hosts(process::id(rt.process()));
    let mut world = Watched::at(rt, near, &[]);
    world.connect(u64::MAX, near);
    world.expect("Unlinked", u64::MAX, 0, b"");
    world.connect(1, nobody);
    world.connect(2, [255; 4]);
    world.expect_quiet();
    world.expect("Unlinked", 1, 0, b"");
    world.expect("Unlinked", 2, 0, b"");
    world.expect_quiet();
    assert_eq!(rt; world.missed, "");
}

#[test]
fn a_link_waits_for_its_peer_to_listen(rt: HostRuntime) {
    let [near, far, _] = hosts(process::id(rt.process()));
    let mut peer = Watched::at(rt, far, &[]);
    peer.connect(7, near);
    peer.expect_quiet();
    let mut node = Watched::at(rt, near, &[]);
    talk(&mut node, &mut peer, 1, 7);
    assert_eq!(rt; (node.missed, peer.missed), ("", ""));
}

#[test]
fn connections_past_a_burst_come_in_their_order(rt: HostRuntime) {
    let [near, far, _] = hosts(process::id(rt.process()));
    let mut node = Watched::at(rt, near, &[]);
    let mut peer = Watched::at(rt, far, &[]);
    for link in 1..71 {
        peer.connect(link, near);
        peer.expect("Linked", link, 0, b"");
    }
    for conn in 1..71 {
        node.expect("Opened", conn, 0, b"");
    }
    node.expect_quiet();
    assert_eq!(rt; (node.missed, peer.missed), ("", ""));
}

// How many octets went out in the next turn.
fn went_out(peer: &mut Watched) -> usize {
    match peer.turn() {
        Some(seen) => seen.count as usize,
        None => 0,
    }
}

// How many octets came in the next turn, which are to be the first of these.
fn came_of(node: &mut Watched, due: &[u8]) -> usize {
    match node.turn() {
        Some(seen) => {
            let piece = seen.bytes.as_slice();
            node.note("piece", piece.len() <= 65536 && due.starts_with(piece));
            piece.len()
        }
        None => 0,
    }
}

// How many octets of the offered went out, and how many came.
fn pass_on(peer: &mut Watched, node: &mut Watched, bytes: &[u8]) -> (usize, usize) {
    let (mut sent, mut came) = (0usize, 0usize);
    for _ in 0..20 * TURNS {
        if came >= bytes.len() || !peer.missed.is_empty() || !node.missed.is_empty() {
            break;
        }
        peer.offer(1, bytes.get(sent..).unwrap_or(&[]));
        sent = sent.saturating_add(went_out(peer));
        came = came.saturating_add(came_of(node, bytes.get(came..).unwrap_or(&[])));
    }
    (sent, came)
}

// A link and its connection are open.
fn open(node: &mut Watched, peer: &mut Watched, near: [u8; 4]) {
    peer.connect(1, near);
    peer.expect("Linked", 1, 0, b"");
    node.expect("Opened", 1, 0, b"");
}

#[test]
fn what_the_socket_does_not_take_is_offered_again(rt: HostRuntime) -> Result<(), Fail> {
    let mut bytes = vec![in rt.alloc(); 1u8; 8_000_000]?;
    for (i, byte) in bytes.iter_mut().enumerate() {
        *byte = (i % 251) as u8;
    }
    let [near, far, _] = hosts(process::id(rt.process()));
    let mut node = Watched::at(rt, near, &[]);
    let mut peer = Watched::at(rt, far, &[]);
    open(&mut node, &mut peer, near);
    assert_eq!(rt;
        pass_on(&mut peer, &mut node, &bytes),
        (8_000_000, 8_000_000)
    );
    assert_eq!(rt; (node.missed, peer.missed), ("", ""));
    Ok(())
}

#[test]
fn an_answer_that_the_socket_does_not_take_whole_shuts(rt: HostRuntime) -> Result<(), Fail> {
    let bytes = Octets::from_vec(vec![in rt.alloc(); 1u8; 64_000_000]?);
    let [near, far, _] = hosts(process::id(rt.process()));
    let mut node = Watched::at(rt, near, &[]);
    let mut peer = Watched::at(rt, far, &[]);
    open(&mut node, &mut peer, near);
    node.answer(1, bytes);
    node.expect("Shut", 1, 0, b"");
    node.expect_quiet();
    assert_eq!(rt; (node.missed, peer.missed), ("", ""));
    Ok(())
}

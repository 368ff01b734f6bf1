//! An application that drives two nodes in its own process, move by move, without a socket, a clock or a thread.

use std::test::Fail;
use zre_net::{Move, MoveReader, Network, SaidEvents};
use zre_peer::Event;
use zre_values::PeerId;

const BOB: PeerId = PeerId([2; 16]);

// Bob hears the beacon of Ann and makes a link to her. Its greeting, READY and HELLO come to her in one piece.
const MEETING: &[u8] = b"zre-schedule 1
start 1 0 01010101010101010101010101010101 a 10.0.0.1 5000
start 2 0 02020202020202020202020202020202 b 10.0.0.2 5000
tick 1 0
beacon 1 2 0
open 1 1 0
carry 1 greeting
carry 1 ready
carry 1 1
piece 1 163 0
";

fn has_entered(told: &[(u8, Event)], node: u8, peer: PeerId) -> bool {
    matches!(told, [(at, Event::Enter { id, .. })] if *at == node && *id == peer)
}

#[test]
fn two_nodes_meet_in_one_process(rt: HostRuntime) -> Result<(), Fail> {
    let mut network = Network::new(rt.alloc())?;
    let mut told = SaidEvents::new(rt.alloc());
    let mut moves = MoveReader::new(rt.alloc(), MEETING);
    'moves: while let Some(one) = moves.next()? {
        assert!(rt; network.take(one, &mut told)?);
    }
    // Ann tells of Bob and knows him, each has made a link to the other, and no third node runs.
    assert!(rt; has_entered(told.as_slice(), 1, BOB));
    assert!(rt; network.links() == 2 && network.node(1).is_some_and(|ann| ann.peer(BOB).is_some()));
    assert!(rt; !network.take(Move::Tick { node: 3, at: 0 }, &mut told)?);
    Ok(())
}

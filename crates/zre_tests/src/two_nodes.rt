//! Two chats in one process, each over the real network, on the loopback interface.

use crate::chats::{Terminal, chat};
use crate::terminal::{Patient, Showing, Sign, sign_of, words_of};
use std::alloc::Global;
use std::sync::Arc;
use std::test::Fail;
use std::thread::join;
use zre_app::Status;
use zre_fabric::RealWorld;
use zre_outside::ThreadSpawner;
use zre_values::OutOfMemory;

const ONE: &[&[u8]] = &[
    b"chat",
    b"id=11111111111111111111111111111111",
    b"host=127.0.0.1",
    b"port=45671",
    b"listen=127.0.0.1",
    b"to=127.0.0.2",
    b"beacon=45670",
    b"interval=50",
];

const TWO: &[&[u8]] = &[
    b"chat",
    b"id=22222222222222222222222222222222",
    b"host=127.0.0.2",
    b"port=45671",
    b"listen=127.0.0.2",
    b"to=127.0.0.1",
    b"beacon=45670",
    b"interval=50",
];

/// What the first must tell first, and the second.
const MEETS_TWO: &[u8] = b"ENTER 22222222222222222222222222222222 222222 ";

const MEETS_ONE: &[u8] = b"ENTER 11111111111111111111111111111111 111111 ";

/// A quit is held back until both nodes have met.
fn make_stand(
    alloc: Global,
    words: &[&[u8]],
    other: &'static [u8],
    own: &Sign,
    its: &Sign,
) -> Result<Terminal<Patient, Showing>, OutOfMemory> {
    let mut input = Patient::new(alloc, b"", b"quit\n")?;
    input.wait_for(own)?;
    input.wait_for(its)?;
    Ok(Terminal {
        words: words_of(alloc, words)?,
        input,
        out: Showing::new(alloc, other, Arc::try_clone(own)?),
    })
}

fn make_stands(
    alloc: Global,
) -> Result<(Terminal<Patient, Showing>, Terminal<Patient, Showing>), OutOfMemory> {
    let (first, second) = (sign_of(alloc)?, sign_of(alloc)?);
    let one = make_stand(alloc, ONE, MEETS_TWO, &first, &second)?;
    Ok((one, make_stand(alloc, TWO, MEETS_ONE, &second, &first)?))
}

// A node of its own, in a thread of its own.
macro_rules! lives {
    ($rt:expr, $alloc:expr, $stand:expr) => {
        move || {
            let world = RealWorld::new($rt, $alloc);
            chat($rt, $alloc, $stand, world, ThreadSpawner::new($rt, $alloc), 1000)
        }
    };
}

#[test]
fn two_nodes(rt: HostRuntime) -> Result<(), Fail> {
    let alloc = rt.alloc();
    let (one, two) = make_stands(alloc)?;
    let (left, right) = join(&rt, lives!(rt, alloc, one), lives!(rt, alloc, two));
    assert_eq!(rt; left.0, Status::Done);
    assert_eq!(rt; right.0, Status::Done);
    Ok(())
}

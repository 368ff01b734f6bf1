//! The order of turns, and what fails.

use super::*;
use std::{io, process};
use zre_fabric::{ErrorClass, class_of};
use zre_outside::{Command, NextFault};

fn fails(world: &mut Watched) -> bool {
    matches!(world.world.next(None), Err(NextFault::Failed))
}

// Whether a start at these addresses fails, and the next turn.
fn is_refused(world: &mut Watched, host: [u8; 4], listen: [u8; 4]) -> bool {
    match start_at(world.alloc, host, &[]) {
        Ok(mut start) => {
            start.listen = listen;
            world.world.start(&start) == Err(NextFault::Failed) && fails(world)
        }
        Err(OutOfMemory) => false,
    }
}

#[test]
fn a_bind_that_fails_is_failed_at_once(rt: HostRuntime) {
    let [near, far, _] = hosts(process::id(rt.process()));
    let elsewhere = [192, 0, 2, 1];
    let mut first = Watched::new(rt);
    assert!(rt; fails(&mut first));
    first.start(near, &[]);
    let mut second = Watched::new(rt);
    for (host, listen) in [(near, near), (near, far), (far, near), (elsewhere, far)] {
        assert!(rt; is_refused(&mut second, host, listen));
    }
    second.start(far, &[]);
    first.expect_quiet();
    second.expect_quiet();
    assert_eq!(rt; first.missed, "");
    assert_eq!(rt; second.missed, "");
}

fn is_quit(turn: Result<Turn, NextFault>) -> bool {
    match turn {
        Ok(Turn::Entry(entry)) => matches!(entry.input, Input::Do(Command::Quit)),
        _ => false,
    }
}

// Hands in a command after a look. Whether it came back, and a look followed.
fn quits(world: &mut Watched) -> bool {
    for _ in 0..TURNS {
        if let Ok(Turn::Look) = world.world.next(None) {
            let turn = world.world.next(Some(Command::Quit));
            return is_quit(turn) && matches!(world.world.next(None), Ok(Turn::Look));
        }
    }
    false
}

#[test]
fn a_command_comes_back_and_a_look_follows(rt: HostRuntime) {
    let [host, _, _] = hosts(process::id(rt.process()));
    let mut world = Watched::at(rt, host, &[]);
    for _ in 0..3u32 {
        assert!(rt; quits(&mut world));
    }
    assert_eq!(rt; world.missed, "");
}

#[test]
fn an_error_of_one_peer_or_of_a_shortage_leaves_the_socket(rt: HostRuntime) {
    let of = |number| class_of(&io::Error::from_raw_os_error(number));
    assert!(rt; matches!(of(11), ErrorClass::NotReady), "EAGAIN");
    for number in [4, 12, 23, 24, 71, 100, 101, 103, 105, 111, 113] {
        assert!(rt; matches!(of(number), ErrorClass::Transient), "{number}");
    }
    for number in [9, 22, 88] {
        assert!(rt; matches!(of(number), ErrorClass::Fatal), "{number}");
    }
}

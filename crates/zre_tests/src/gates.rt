//! Gates: several clients of one node, with a client whose end comes only after what another client asked for was
//! written.

use crate::terminal::{
    Patient, STOP, Showing, Sign, WHISPER, node_words, sign_of, source_of, world_of,
};
use std::alloc::Global;
use std::collections::VecDeque;
use std::sync::Wait;
use std::test::Fail;
use std::thread::Threads;
use zre_app::{GateEnded, Status, gate};
use zre_outside::{
    Desk, Entry, Failed, Input, MemDesk, MemRecorder, MemSink, PlainSpawner, Script, ScriptWorld,
    Sink, Turn,
};
use zre_values::{Octets, OutOfMemory};

const GATE: &[&[u8]] = &[b"gate", b"name=Me", b"local=127.0.0.1:7000"];

const TWO: &[u8] = b"clients=2";

const MANY: &[u8] = b"clients=15";

const GROUP: &[u8] = b"join g\nleave g\n";

const NO_PEER: &[u8] = b"REFUSED NOPEER 44444444444444444444444444444444\n";

const TEXT: &[u8] = b"REFUSED NOPEER 44444444444444444444444444444444\nSTOP\n";

const CAPTURE: &[u8] = b"capture=c";

/// What a capture keeps of a client who joins and leaves a group.
const KEPT: &[u8] =
    b"zre-capture 2 FFEEDDCCBBAA99887766554433221100 Me 10.0.0.1 49153 5000 30000 %\n\
0 do join g\n0 do leave g\n0 do quit\n";

/// What is told of a connection that begins with another octet.
const CLOSED: &[u8] = b"CLOSED 1 Signature 0\n";

/// The most turns and octets.
const LIMIT: u64 = 50000000;

/// A gate of two clients in memory, and how it ends.
#[derive(Clone, Copy)]
struct Case {
    shows: &'static str,
    /// The word that says how many clients there are.
    clients: &'static [u8],
    /// What the first client sends, and which reads of it fail.
    first: &'static [u8],
    read_fails: &'static [u64],
    /// What the second client sends.
    second: &'static [u8],
    /// Which waits of the desk for a client fail, and which starts of threads.
    next_fails: &'static [u64],
    start_fails: &'static [u64],
    /// How often the world lets the node look for a command.
    looks: u64,
    /// Whether a connection comes before that which isn't one of ZMTP.
    is_visited: bool,
    /// Whether a capture is kept.
    is_kept: bool,
    /// Which turns of the world, writes to the sink and writes to the capture fail.
    turn_fails: &'static [u64],
    write_fails: &'static [u64],
    put_fails: &'static [u64],
    limit: u64,
    status: Status,
    text: &'static [u8],
}

const PLAIN: Case = Case {
    shows: "two clients share a node",
    clients: TWO,
    first: WHISPER,
    read_fails: &[],
    second: GROUP,
    next_fails: &[],
    start_fails: &[],
    looks: 4,
    is_visited: false,
    is_kept: false,
    turn_fails: &[],
    write_fails: &[],
    put_fails: &[],
    limit: LIMIT,
    status: Status::Done,
    text: TEXT,
};

/// How a gate in memory ended.
type Ended = GateEnded<MemDesk, ScriptWorld, MemRecorder>;

fn desk_of(alloc: Global, case: &Case) -> Result<MemDesk, OutOfMemory> {
    let mut clients = Vec::new(alloc);
    clients.push(source_of(alloc, case.first, case.read_fails)?)?;
    clients.push(source_of(alloc, case.second, &[])?)?;
    let next_fails = Vec::from_slice(alloc, case.next_fails)?;
    Ok(MemDesk::new(clients, Vec::new(alloc), next_fails))
}

/// The world of a case.
fn world_in(alloc: Global, case: &Case) -> Result<ScriptWorld, OutOfMemory> {
    let mut script = Script::new(alloc);
    if case.is_visited {
        script.push(Turn::Entry(Entry {
            at: 0,
            input: Input::Opened { conn: 1 },
        }))?;
        let bytes = Octets::copy(alloc, &[0])?;
        script.push(Turn::Entry(Entry {
            at: 0,
            input: Input::Piece { conn: 1, bytes },
        }))?;
    }
    world_of(alloc, script, case.looks, case.turn_fails)
}

/// How a gate of a desk ended, and what was written.
fn hold<R: Threads + Wait + Send + Copy + 'static, D: Desk + Drop, O: Sink>(
    rt: R,
    alloc: Global,
    case: &Case,
    desk: D,
    out: &mut O,
) -> Result<GateEnded<D, ScriptWorld, MemRecorder>, OutOfMemory> {
    let mut words = node_words(alloc, GATE)?;
    words.push(Octets::copy(alloc, case.clients)?)?;
    if case.is_kept {
        words.push(Octets::copy(alloc, CAPTURE)?)?;
    }
    let world = world_in(alloc, case)?;
    let start_fails = Vec::from_slice(alloc, case.start_fails)?;
    let put_fails = Vec::from_slice(alloc, case.put_fails)?;
    let rec = MemRecorder::new(alloc, Vec::new(alloc), put_fails);
    let mut spawner = PlainSpawner::new(rt, alloc, start_fails);
    Ok(gate(
        rt,
        alloc,
        &words,
        desk,
        world,
        out,
        rec,
        &mut spawner,
        case.limit,
    ))
}

/// How a case ended, and what was written.
fn held<R: Threads + Wait + Send + Copy + 'static>(
    rt: R,
    alloc: Global,
    case: &Case,
) -> Result<(Ended, MemSink), OutOfMemory> {
    let desk = desk_of(alloc, case)?;
    let mut out = MemSink::new(alloc, Vec::from_slice(alloc, case.write_fails)?);
    let ended = hold(rt, alloc, case, desk, &mut out)?;
    Ok((ended, out))
}

/// Whether a case ends as it says.
fn ends<R: Threads + Wait + Send + Copy + 'static>(
    rt: R,
    alloc: Global,
    case: &Case,
) -> Result<bool, OutOfMemory> {
    let (ended, out) = held(rt, alloc, case)?;
    Ok(ended.status == case.status && out.written() == case.text)
}

const CASES: [Case; 14] = [
    PLAIN,
    Case {
        shows: "their order is no matter",
        first: GROUP,
        second: WHISPER,
        ..PLAIN
    },
    Case {
        shows: "a client that is not started stops the node",
        start_fails: &[2],
        looks: 1,
        status: Status::NoThread,
        text: STOP,
        ..PLAIN
    },
    Case {
        shows: "a closer that is not started stops the node",
        first: b"",
        second: b"",
        start_fails: &[4],
        looks: 1,
        status: Status::NoThread,
        text: STOP,
        ..PLAIN
    },
    Case {
        shows: "a desk that fails starts nothing",
        next_fails: &[1],
        status: Status::DeskFault,
        text: b"",
        ..PLAIN
    },
    Case {
        shows: "fifteen are too many",
        clients: MANY,
        status: Status::Usage,
        text: b"USAGE\n",
        ..PLAIN
    },
    // its whole lines count, and the line that it didn't finish doesn't
    Case {
        shows: "a client that fails ends alone",
        first: b"whisper 44444444444444444444444444444444 x\njoin",
        read_fails: &[2],
        second: b"join g\nquit\nleave g\n",
        looks: 3,
        ..PLAIN
    },
    Case {
        shows: "the world fails",
        first: b"",
        second: b"",
        turn_fails: &[1],
        status: Status::WorldFault,
        text: b"",
        ..PLAIN
    },
    Case {
        shows: "the sink fails, and the node is stopped",
        first: b"",
        second: b"",
        looks: 1,
        is_visited: true,
        write_fails: &[1],
        status: Status::WriteFault,
        text: b"",
        ..PLAIN
    },
    Case {
        shows: "of two faults the status is the least",
        first: b"",
        second: b"",
        is_visited: true,
        turn_fails: &[3],
        write_fails: &[1],
        status: Status::WriteFault,
        text: b"",
        ..PLAIN
    },
    Case {
        shows: "a client is not started, and the world fails",
        start_fails: &[2],
        turn_fails: &[1],
        status: Status::WorldFault,
        text: b"",
        ..PLAIN
    },
    Case {
        shows: "what was told before the world failed is written",
        first: b"",
        second: b"",
        is_visited: true,
        turn_fails: &[3],
        status: Status::WorldFault,
        text: CLOSED,
        ..PLAIN
    },
    Case {
        shows: "the head can't be kept",
        is_kept: true,
        put_fails: &[1],
        status: Status::WriteFault,
        text: b"",
        ..PLAIN
    },
    Case {
        shows: "an entry that can't be kept isn't taken",
        first: b"",
        second: b"",
        is_visited: true,
        is_kept: true,
        put_fails: &[3],
        status: Status::WriteFault,
        text: b"",
        ..PLAIN
    },
];

#[test]
fn gates_end_as_each_case_says(rt: HostRuntime) -> Result<(), Fail> {
    for case in CASES {
        assert_eq!(rt;
            (case.shows, ends(rt, rt.alloc(), &case)?),
            (case.shows, true)
        );
    }
    Ok(())
}

#[test]
fn a_gate_keeps_a_capture(rt: HostRuntime) -> Result<(), Fail> {
    let case = Case {
        first: GROUP,
        second: b"",
        looks: 3,
        is_kept: true,
        ..PLAIN
    };
    let (ended, _out) = held(rt, rt.alloc(), &case)?;
    assert_eq!(rt; ended.status, Status::Done);
    assert_eq!(rt; ended.rec.kept(), KEPT);
    Ok(())
}

/// A client that sends more than is allowed ends with its whole lines, and the status says so. The limit is one of
/// turns, too, so the node may end before it was told all.
#[test]
fn a_client_may_be_too_long(rt: HostRuntime) -> Result<(), Fail> {
    let case = Case {
        second: b"",
        looks: 2,
        limit: WHISPER.len() as u64,
        ..PLAIN
    };
    let (ended, out) = held(rt, rt.alloc(), &case)?;
    assert_eq!(rt; ended.status, Status::TooLong);
    assert!(rt; TEXT.starts_with(out.written()));
    Ok(())
}

/// A desk of patient clients.
#[derive(Drop)]
struct PatientDesk {
    clients: VecDeque<Patient>,
    faults: u64,
}

impl Desk for PatientDesk {
    ghost use Rattle.std.specs.Prelude.{None};

    type Client = Patient;

    ghost told = { λ _. None };

    ghost faults = { λ d. d.faults };

    fn begin(&mut self, _addr: [u8; 4], _port: u16) -> Result<(), Failed> {
        Ok(())
    }

    fn next(&mut self) -> Result<Patient, Failed> {
        match self.clients.pop_front() {
            Some(client) => Ok(client),
            None => {
                self.faults = self.faults.saturating_add(1);
                Err(Failed)
            }
        }
    }
}

/// A client without a line, whose end waits for the sign, and one that whispers.
fn client_list_of(alloc: Global, sign: &Sign) -> Result<PatientDesk, OutOfMemory> {
    let mut silent = Patient::new(alloc, b"", b"")?;
    silent.wait_for(sign)?;
    let mut clients = VecDeque::new(alloc);
    clients.push_back(silent)?;
    clients.push_back(Patient::new(alloc, WHISPER, b"")?)?;
    Ok(PatientDesk { clients, faults: 0 })
}

/// How such a gate ended, what was written, and how often a client failed at most.
fn held_beside<R: Threads + Wait + Send + Copy + 'static>(
    rt: R,
    alloc: Global,
) -> Result<(Status, Showing, Option<u64>), OutOfMemory> {
    let sign = sign_of(alloc)?;
    let desk = client_list_of(alloc, &sign)?;
    let mut out = Showing::new(alloc, NO_PEER, sign);
    let case = Case { looks: 2, ..PLAIN };
    let ended = hold(rt, alloc, &case, desk, &mut out)?;
    let faults = ended.clients.iter().map(|c| c.faults()).max();
    Ok((ended.status, out, faults))
}

#[test]
fn gate_beside(rt: HostRuntime) -> Result<(), Fail> {
    let (status, out, faults) = held_beside(rt, rt.alloc())?;
    assert_eq!(rt; status, Status::Done);
    assert_eq!(rt; out.inner.written(), TEXT);
    assert_eq!(rt; faults, Some(0));
    Ok(())
}

//! The adapters of the outside, each over what the system gives it.

ghost use Rattle.std.specs.Prelude.{◌≡◌, ◌*◌, IfSome};

use std::fs;
use std::test::Fail;
use zre_outside::{
    FileRecorder, Job, NextFault, PlainSpawner, Recorder, Source, Spawner, StdSink, StdSource,
    Task, ThreadSpawner, write_all,
};

fn reads<S: Source>(source: &mut S, buf: &mut [u8; 3], count: usize) -> bool {
    source.read(buf) == Ok(count)
}

#[test]
fn readers_and_writers_pass_octets_on(rt: HostRuntime) {
    let mut buf = [0u8; 3];
    let bytes: &[u8] = b"abcd";
    let mut source = StdSource::new(bytes);
    for (count, held) in [(3, *b"abc"), (1, *b"dbc"), (0, *b"dbc")] {
        assert!(rt; reads(&mut source, &mut buf, count));
        assert!(rt; buf == held);
    }
    let mut room = [0u8; 4];
    let mut sink = StdSink::new(room.as_mut_slice());
    assert!(rt; write_all(&mut sink, b"abc") == Ok(()));
    assert!(rt; write_all(&mut sink, b"de") == Err(NextFault::Failed));
}

fn keeps<R: Recorder>(recorder: &mut R, name: &str, bytes: &[u8]) -> bool {
    recorder.begin(name) == Ok(()) && recorder.put(bytes) == Ok(())
}

#[test]
fn a_file_keeps_what_is_put_and_begins_anew(rt: HostRuntime) -> Result<(), Fail> {
    let name = "zre_tests.capture";
    let mut recorder = FileRecorder::new(rt);
    assert!(rt; recorder.begin("no_such_folder/x") == Err(NextFault::Failed));
    for text in ["abc", "d"] {
        assert!(rt; keeps(&mut recorder, name, text.as_bytes()));
        assert!(rt; fs::read_to_string(&rt, name)?.as_str() == text);
    }
    fs::remove_file(&rt, name)?;
    Ok(())
}

/// A number to be doubled.
#[derive(Drop)]
struct Double {
    n: u32,
}

impl Task for Double {
    ghost use Rattle.std.specs.Prelude.{◌≡◌, ◌*◌};

    type Out = u64;

    ghost means = { λ job out. out ≡ 2 * job.n };
}

impl<R: Copy> Job<R> for Double {
    ghost use Rattle.std.specs.Prelude.{◌≡◌, ◌*◌};

    fn run(self, _rt: R) -> u64
        ensures { result ≡ 2 * self.n }
    {
        2 * u64::from(self.n)
    }
}

fn doubled<P: Spawner>(rt: P::Runtime, spawner: &mut P, n: u32) -> Option<u64>
    ensures { IfSome result (λ out. out ≡ 2 * n) }
{
    match spawner.start(Double { n }) {
        Ok(running) => Some(running.join(rt)),
        Err(_) => None,
    }
}

#[test]
fn a_job_runs_in_its_thread_or_comes_back(rt: HostRuntime) -> Result<(), Fail> {
    let fails = [1].to_vec(rt.alloc())?;
    let mut plain = PlainSpawner::new(rt, rt.alloc(), fails);
    assert!(rt; doubled(rt, &mut plain, 4).is_none());
    assert!(rt; doubled(rt, &mut plain, 5) == Some(10));
    let mut threads = ThreadSpawner::new(rt, rt.alloc());
    assert!(rt; doubled(rt, &mut threads, 6) == Some(12));
    Ok(())
}

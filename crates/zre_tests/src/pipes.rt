//! The pipes with their callers, and the actor over worlds in memory: one after the other, and in threads of their own.

ghost use Rattle.std.specs.Arc.{arc_value};
ghost use Rattle.zre_outside.specs.Spawners.{job_of};
ghost use Rattle.std.specs.Prelude.{◌≡◌, None, IsSome, IfSome};
ghost use Rattle.zre_tests.specs.Ready.{AreNew, IsReady};
ghost use Rattle.zre_actor.specs.Passes.{IsActorOf, IsCallerOf, IsTakerOf, AreCallersOf, ending_of, ended, given_of};
ghost use Rattle.zre_actor.specs.Passes.{how_many, last_of};

use crate::callers::{TwoCallers, given_back, put_again, take_all};
use std::alloc::Global;
use std::sync::{Arc, Wait};
use std::thread::{Threads, join};
use zre_actor::{ActorJob, ActorPass, CallerPass, CallerPasses, Ending, Made, Pipes, TakerPass};
use zre_journal::Config;
use zre_node::Node;
use zre_outside::{
    Command, Running, Script, Spawner, SureRecorder, SureWorld, ThreadSpawner, Turn,
};
use zre_values::{Octets, OutOfMemory, Pairs, PeerId};

fn node_of(alloc: Global) -> Result<Option<Node>, OutOfMemory> {
    let config = Config {
        id: PeerId([7; 16]),
        name: Octets::copy(alloc, b"Me")?,
        headers: Pairs::new(alloc),
        host: [10, 0, 0, 1],
        port: 49153,
        evasive: 5000,
        expired: 30000,
    };
    if config.valid() {
        Ok(Some(Node::new(alloc, config)?))
    } else {
        Ok(None)
    }
}

/// So many looks, and then the end.
fn looks(alloc: Global, n: u64) -> Result<SureWorld, OutOfMemory> {
    let mut script = Script::new(alloc);
    for _ in 0..n {
        script.push(Turn::Look)?;
    }
    Ok(SureWorld::new(alloc, script))
}

/// The passes of those beside the actor.
#[derive(Drop)]
struct Passes {
    callers: TwoCallers,
    taker: TakerPass,
}

/// Pipes whose two callers' passes were taken, before any step.
#[derive(Drop)]
struct Ready {
    pipes: Pipes,
    actor: ActorPass,
    passes: Passes,
}

fn make_ready(alloc: Global) -> Option<Ready>
    ensures { IfSome result (λ s. IsReady s.pipes s.actor s.passes.callers.first s.passes.callers.second
        s.passes.callers.back s.passes.taker) }
{
    let Ok(made) = Pipes::make(alloc, 2) else {
        return None;
    };
    let Made {
        pipes,
        actor,
        callers: mut back,
        taker,
    } = made;
    let Some(second) = back.take() else {
        return None;
    };
    let Some(first) = back.take() else {
        return None;
    };
    let callers = TwoCallers {
        first,
        second,
        back,
    };
    Some(Ready {
        pipes,
        actor,
        passes: Passes { callers, taker },
    })
}

/// What an actor works with: a node, and a world of three looks; and how many turns of it the work may take.
#[derive(Drop)]
struct ActorWork {
    node: Node,
    world: SureWorld,
    rec: SureRecorder,
    limit: u64,
}

/// What an actor works with, and the groups that the callers name.
#[derive(Drop)]
struct Stand {
    work: ActorWork,
    groups: (Octets, Octets),
}

fn stand_of(alloc: Global, node: Node, limit: u64) -> Result<Stand, OutOfMemory> {
    let world = looks(alloc, 3)?;
    let groups = (Octets::copy(alloc, b"g")?, Octets::copy(alloc, b"g")?);
    let rec = SureRecorder::new(alloc);
    Ok(Stand {
        work: ActorWork {
            node,
            world,
            rec,
            limit,
        },
        groups,
    })
}

fn make_stand(alloc: Global, limit: u64) -> Option<Stand> {
    match node_of(alloc) {
        Ok(Some(node)) => stand_of(alloc, node, limit).ok(),
        _ => None,
    }
}

/// The callers put, then the actor works, then the taker takes. How often the node stopped, the ending, and what was
/// left.
fn one_by_one<R: Wait + Copy>(
    rt: R,
    ready: Ready,
    stand: Stand,
    absorbs: bool,
) -> (u64, Ending, u32)
    requires { IsReady ready.pipes ready.actor ready.passes.callers.first
        ready.passes.callers.second ready.passes.callers.back ready.passes.taker }
{
    let Passes { callers, taker } = ready.passes;
    let pipes = ready.pipes;
    let Stand { work, groups } = stand;
    let ActorWork {
        node,
        world,
        rec,
        limit,
    } = work;
    let callers = callers.talk(rt, &pipes, groups, absorbs);
    let worked = pipes.work(rt, world, node, ready.actor, rec, false, limit);
    let (taker, stops, ending) = take_all(rt, &pipes, taker);
    let finished = pipes.finish(rt, worked.pass, callers, taker);
    (stops, ending, finished.left)
}

/// What two callers do, each in a thread of its own.
fn both_talk<R: Threads + Wait + Send + Copy>(
    rt: R,
    pipes: &Pipes,
    callers: TwoCallers,
    groups: (Octets, Octets),
) -> CallerPasses
    requires { AreNew pipes.now callers.first callers.second callers.back }
    ensures pipes { AreCallersOf pipes.now (given_of result) }
    ensures many { how_many (given_of result) ≡ 2 }
{
    let (first, second, back) = (callers.first, callers.second, callers.back);
    let (first, second) = join(
        &rt,
        move ||
            requires { IsCallerOf pipes.now first }
            ensures { IsCallerOf pipes.entry.now result × (ended result ≡ ended first) }
        {
            let first = put_again(rt, pipes, first, Command::Join { group: groups.0 });
            put_again(rt, pipes, first, Command::Leave { group: groups.1 })
        },
        move ||
            requires { IsCallerOf pipes.now second }
            ensures { IsCallerOf pipes.entry.now result × (ended result ≡ ended second) }
        { put_again(rt, pipes, second, Command::Quit) },
    );
    given_back(back, first, second)
}

/// The callers put and the taker takes, side by side, and the passes come back.
fn talk_and_take<R: Threads + Wait + Send + Copy>(
    rt: R,
    pipes: &Pipes,
    passes: Passes,
    groups: (Octets, Octets),
) -> (CallerPasses, (TakerPass, u64, Ending))
    // What a caller knows.
    requires callers { AreNew pipes.now passes.callers.first passes.callers.second passes.callers.back }
    requires taker { IsTakerOf pipes.now passes.taker × (last_of passes.taker ≡ None) }
    // The pipes, and what went through them.
    ensures pipes { AreCallersOf pipes.now (given_of result.0) × IsTakerOf pipes.now result.1.0 }
    ensures many { how_many (given_of result.0) ≡ 2 }
    ensures last { IsSome (last_of result.1.0) }
{
    let Passes { callers, taker } = passes;
    join(
        &rt,
        move ||
            requires { AreNew pipes.now callers.first callers.second callers.back }
            ensures { AreCallersOf pipes.entry.now (given_of result) × (how_many (given_of result) ≡ 2) }
        { both_talk(rt, pipes, callers, groups) },
        move ||
            requires { IsTakerOf pipes.now taker × (last_of taker ≡ None) }
            ensures { IsTakerOf pipes.entry.now result.0 × IsSome (last_of result.0) }
        { take_all(rt, pipes, taker) },
    )
}

/// Starts the actor. Nothing where it wasn't started.
fn start_actor<P: Spawner>(
    spawner: &mut P,
    pipes: &Arc<Pipes>,
    actor: ActorPass,
    work: ActorWork,
) -> Option<Running<ActorJob<SureWorld, SureRecorder>>>
    requires actor { IsActorOf (arc_value pipes.now) actor }
    requires open { (ending_of actor ≡ None) × (actor.empties ≡ 0) }
    ensures started { IfSome result (λ r. (arc_value (job_of r).pipes ≡ arc_value pipes.now)
        × ((job_of r).pass ≡ actor)) }
{
    let Ok(pipes) = Arc::try_clone(pipes) else {
        return None;
    };
    let job = ActorJob {
        pipes,
        world: work.world,
        node: work.node,
        pass: actor,
        rec: work.rec,
        keep: false,
        limit: work.limit,
    };
    spawner.start(job).ok()
}

/// Beside a running actor the callers put and the taker takes, and when the actor is done the passes come back.
fn meet<R: Threads + Wait + Send + Copy>(
    rt: R,
    pipes: &Pipes,
    running: Running<ActorJob<SureWorld, SureRecorder>>,
    passes: Passes,
    groups: (Octets, Octets),
) -> (u64, Ending, u32)
    requires same { arc_value (job_of running).pipes ≡ pipes.now }
    requires ready { IsReady pipes.now (job_of running).pass passes.callers.first passes.callers.second
        passes.callers.back passes.taker }
{
    let (callers, (taker, stops, ending)) = talk_and_take(rt, pipes, passes, groups);
    let worked = running.join(rt);
    let finished = pipes.finish(rt, worked.pass, callers, taker);
    (stops, ending, finished.left)
}

/// Two callers, the actor and the taker, each in a thread of its own, to the end. Nothing where the actor wasn't
/// started.
fn side_by_side<P: Spawner>(
    rt: P::Runtime,
    spawner: &mut P,
    ready: Ready,
    stand: Stand,
) -> Option<(u64, Ending, u32)>
    requires { IsReady ready.pipes ready.actor ready.passes.callers.first
        ready.passes.callers.second ready.passes.callers.back ready.passes.taker }
{
    let Stand { work, groups } = stand;
    let Ok(pipes) = Arc::new(spawner.alloc(), ready.pipes) else {
        return None;
    };
    let Some(running) = start_actor(spawner, &pipes, ready.actor, work) else {
        return None;
    };
    Some(meet(rt, &pipes, running, ready.passes, groups))
}

/// Puts so many commands. How many came back, and the number of the last of them.
fn put_many<R: Wait + Copy>(rt: R, pipes: &Pipes, mut pass: CallerPass, count: u64) -> (u64, u64)
    requires { IsCallerOf pipes.now pass }
{
    let mut fulls: u64 = 0;
    let mut last = 0;
    for line in 0..count {
        match pipes.put(rt, pass, Command::Bad { line }) {
            Ok(back) => pass = back,
            Err(full) => {
                fulls = fulls.saturating_add(1);
                last = line_of(&full.command);
                pass = full.pass;
            }
        }
    }
    (fulls, last)
}

fn line_of(command: &Command) -> u64 {
    match command {
        Command::Bad { line } => *line,
        _ => 0,
    }
}

fn fill<R: Wait + Copy>(rt: R, ready: Ready) -> (u64, u64)
    requires { IsReady ready.pipes ready.actor ready.passes.callers.first
        ready.passes.callers.second ready.passes.callers.back ready.passes.taker }
{
    let Ready { pipes, passes, .. } = ready;
    put_many(rt, &pipes, passes.callers.first, 1025)
}

#[test]
fn a_full_pipe_gives_the_command_back(rt: HostRuntime) {
    let counts = match make_ready(rt.alloc()) {
        Some(ready) => Some(fill(rt, ready)),
        None => None,
    };
    assert_eq!(rt; counts, Some((1, 1024)));
}

/// How long a run may be, and how it ends.
struct NodeRun {
    limit: u64,
    ends: (u64, Ending, u32),
}

static RUNS: [NodeRun; 2] = [
    NodeRun {
        limit: 100,
        ends: (1, Ending::Stopped, 0),
    },
    NodeRun {
        limit: 1,
        ends: (0, Ending::TooLong, 3),
    },
];

/// The run of a node, one by one. None where memory doesn't suffice.
fn run_one_by_one<R: Wait + Copy>(
    rt: R,
    alloc: Global,
    ready: Ready,
    limit: u64,
    absorbs: bool,
) -> Option<(u64, Ending, u32)>
    requires { IsReady ready.pipes ready.actor ready.passes.callers.first
        ready.passes.callers.second ready.passes.callers.back ready.passes.taker }
{
    match make_stand(alloc, limit) {
        Some(stand) => Some(one_by_one(rt, ready, stand, absorbs)),
        None => None,
    }
}

fn ends<R: Wait + Copy>(rt: R, alloc: Global, run: &NodeRun, absorbs: bool) -> bool {
    match make_ready(alloc) {
        Some(ready) => run_one_by_one(rt, alloc, ready, run.limit, absorbs) == Some(run.ends),
        None => false,
    }
}

#[test]
fn two_callers_and_the_actor_one_by_one(rt: HostRuntime) {
    for run in &RUNS {
        assert!(rt; ends(rt, rt.alloc(), run, false));
        assert!(rt; ends(rt, rt.alloc(), run, true));
    }
}

/// The run of a node, side by side. None where memory doesn't suffice, or the actor doesn't start.
fn run_side_by_side<P: Spawner>(
    rt: P::Runtime,
    spawner: &mut P,
    ready: Ready,
) -> Option<(u64, Ending, u32)>
    requires { IsReady ready.pipes ready.actor ready.passes.callers.first
        ready.passes.callers.second ready.passes.callers.back ready.passes.taker }
{
    match make_stand(spawner.alloc(), 1000000000000) {
        Some(stand) => side_by_side(rt, spawner, ready, stand),
        None => None,
    }
}

#[test]
fn two_callers_the_actor_and_the_taker_side_by_side(rt: HostRuntime) {
    let mut spawner = ThreadSpawner::new(rt, rt.alloc());
    let ran = match make_ready(rt.alloc()) {
        Some(ready) => run_side_by_side(rt, &mut spawner, ready),
        None => None,
    };
    assert!(rt; matches!(ran, Some((1, Ending::Stopped, left)) if left <= 2));
}

//! What the callers of pipes and the taker do.

ghost use Rattle.std.specs.Prelude.{◌≡◌, ◌<◌, [], None, IsSome};
ghost use Rattle.zre_actor.specs.Passes.{IsCallerOf, IsTakerOf, AreCallersOf, given_of, room_of};
ghost use Rattle.zre_actor.specs.Passes.{ended, how_many, last_of};
ghost use Rattle.zre_actor.specs.declared.passes.Pipes.{Pipes};

use std::sync::Wait;
use zre_actor::{CallerPass, CallerPasses, Ending, Pipes, TakerPass, Told};
use zre_outside::Command;
use zre_peer::Event;
use zre_values::Octets;

/// Puts a command, and tries again while the pipe is full.
pub fn put_again<R: Wait + Copy>(
    rt: R,
    pipes: &Pipes,
    mut pass: CallerPass,
    mut command: Command,
) -> CallerPass
    requires { IsCallerOf pipes.now pass }
    ensures pipes { IsCallerOf pipes.now result }
    ensures ended { ended result ≡ ended pass }
{
    for _ in rt.forever() {
        match pipes.put(rt, pass, command) {
            Ok(done) => return done,
            Err(full) => {
                pass = full.pass;
                command = full.command;
            }
        }
    }
    unreachable!()
}

/// One more, where the node told that it stopped.
fn with_stop(stops: u64, event: &Event) -> u64 {
    match event {
        Event::Stop => stops.saturating_add(1),
        _ => stops,
    }
}

/// Takes events until Last. How often the node told that it stopped, and the ending.
pub fn take_all<R: Wait + Copy>(
    rt: R,
    pipes: &Pipes,
    mut taker: TakerPass,
) -> (TakerPass, u64, Ending)
    // What a caller knows.
    requires pipes { IsTakerOf pipes.now taker }
    requires open { last_of taker ≡ None }
    // What the pass knows after the stop.
    ensures pipes { IsTakerOf pipes.now result.0 }
    ensures last { IsSome (last_of result.0) }
{
    let mut stops: u64 = 0;
    for _ in rt.forever() {
        let (pass, told) = pipes.take(rt, taker);
        match told {
            Told::Last(ending) => return (pass, stops, ending),
            Told::Event(event) => {
                stops = with_stop(stops, &event);
                taker = pass;
            }
        }
    }
    unreachable!()
}

/// A caller joins a group and leaves another.
fn regroup<R: Wait + Copy>(
    rt: R,
    pipes: &Pipes,
    pass: CallerPass,
    groups: (Octets, Octets),
) -> CallerPass
    requires { IsCallerOf pipes.now pass }
    ensures pipes { IsCallerOf pipes.now result }
    ensures ended { ended result ≡ ended pass }
{
    let joined = put_again(rt, pipes, pass, Command::Join { group: groups.0 });
    put_again(rt, pipes, joined, Command::Leave { group: groups.1 })
}

/// Both passes are given back.
pub fn given_back(mut back: CallerPasses, first: CallerPass, second: CallerPass) -> CallerPasses
    // What a caller knows.
    requires new { (ended first ≡ []) × (ended second ≡ []) }
    requires back { (given_of back ≡ []) × (1 < room_of back) }
    // The pipes with the pass back.
    ensures pipes { (pipes : Pipes) → IsCallerOf pipes first → IsCallerOf pipes second →
        AreCallersOf pipes (given_of result) }
    ensures many { how_many (given_of result) ≡ 2 }
{
    back.give(first);
    back.give(second);
    back
}

/// The passes of two callers, and where they are given back.
#[derive(Drop)]
pub struct TwoCallers {
    pub first: CallerPass,
    pub second: CallerPass,
    pub back: CallerPasses,
}

impl TwoCallers {
    ghost use Rattle.zre_tests.specs.Ready.{AreNew};

    /// The first caller regroups, and the second asks the node to stop: each with a pass of its own, or the second
    /// after it has taken in the first one's pass.
    pub fn talk<R: Wait + Copy>(
        self,
        rt: R,
        pipes: &Pipes,
        groups: (Octets, Octets),
        absorbs: bool,
    ) -> CallerPasses
        requires { AreNew pipes.now self.first self.second self.back }
        ensures pipes { AreCallersOf pipes.now (given_of result) }
        ensures many { how_many (given_of result) ≡ 2 }
    {
        let TwoCallers {
            first,
            second,
            mut back,
        } = self;
        let first = regroup(rt, pipes, first, groups);
        if absorbs {
            let both = pipes.absorb(rt, second, first);
            back.give(put_again(rt, pipes, both, Command::Quit));
            return back;
        }
        let second = put_again(rt, pipes, second, Command::Quit);
        given_back(back, first, second)
    }
}

//! The event at the end of a run.

ghost use Rattle.std.specs.Prelude.{◌≡◌, ◌++◌, IfOk, OnOk};
ghost use Rattle.zre_peer.specs.Lines.{line};
ghost use Rattle.zre_peer.specs.Standing.{id_of, view_in};
ghost use Rattle.zre_commands.specs.follow.Runs.{cause_of, end_of, why_of};

use std::alloc::Global;
use zre_peer::{Cause, Event, IgnoreWhy, Run, RunFault, push_line};
use zre_values::{Octets, OutOfMemory};

fn cause_of(fault: RunFault) -> Cause
    ensures { result ≡ cause_of fault }
{
    match fault {
        RunFault::NotHello | RunFault::SecondHello => Cause::Hello,
        RunFault::Broken { due, got } => Cause::Order { due, got },
        RunFault::Limit | RunFault::OutOfMemory => Cause::Limit,
    }
}

fn why_of(fault: RunFault) -> IgnoreWhy
    ensures { result ≡ why_of fault }
{
    match fault {
        RunFault::NotHello | RunFault::SecondHello => IgnoreWhy::NotHello,
        RunFault::Broken { .. } => IgnoreWhy::NotHello,
        RunFault::Limit | RunFault::OutOfMemory => IgnoreWhy::Limit,
    }
}

// The event that a refused message raises.
fn end_of(alloc: Global, run: &Run, fault: RunFault) -> Result<Event, OutOfMemory>
    ensures { IfOk result (λ e. e ≡ end_of (id_of run.now) (view_in run.now) fault) }
{
    match run.view() {
        None => Ok(Event::Ignored {
            conn: 1,
            why: why_of(fault),
        }),
        Some(view) => Ok(Event::Exit {
            id: run.id(),
            name: Octets::copy(alloc, view.name())?,
            cause: cause_of(fault),
        }),
    }
}

/// Appends the line of the event that a refused message raises.
pub(crate) fn push_end(
    alloc: Global,
    run: &Run,
    fault: RunFault,
    out: &mut Octets,
) -> Result<(), OutOfMemory>
    ensures { OnOk result (out.new ≡ out.old ++ line (end_of (id_of run.now) (view_in run.now) fault)) }
{
    let end = end_of(alloc, run, fault)?;
    let told = push_line(out, &end);
    drop(end);
    told
}

//! The text of an answer.

ghost use Rattle.std.specs.Prelude.{◌≡◌, ◌≤◌, ℕ, List, ◌++◌, Some, None, is_some, IfOk, IfErr, IfSome, OnOk};
ghost use Rattle.std.specs.Prelude.{IsErrOf};
ghost use Rattle.zre_peer.specs.declared.event.Event.{Event as EventValue};
ghost use Rattle.zre_outside.specs.Causes.{Rose};
ghost use Rattle.zre_net.specs.Answer.{Refuses, bad_in, bad_move};
ghost use Rattle.zre_net.specs.Reading.{bad_line as bad_line_of, lines_in, moves_of};
ghost use Rattle.zre_net.specs.Said.{said};
ghost use Rattle.zre_records.specs.simulate.Simulate.{told_line, told_lines, answer};
ghost use Rattle.zre_records.specs.simulate.Writing.{Writes};

use std::alloc::Global;
use zre_commands::pump::push_bad_line;
use zre_net::{BadSchedule, MoveReader, Network, SaidEvents, ScheduleFault, check_schedule};
use zre_outside::{NextFault, Sink, write_much};
use zre_peer::{Event, push_line};
use zre_values::{Octets, OutOfMemory, push_decimal};

/// Octets of text that are kept while moves are tried.
const KEPT_TEXT: usize = 1048576;

// The line of an event, after the number of its node.
fn push_told(out: &mut Octets, told: &(u8, Event)) -> Result<(), OutOfMemory>
    ensures { OnOk result (out.new ≡ out.old ++ told_line told.now) }
{
    push_decimal(out, told.0 as u64)?;
    out.push(b' ')?;
    push_line(out, &told.1)
}

// Appends what a refusal is written as.
fn push_refusal(out: &mut Octets, fault: ScheduleFault) -> Result<bool, OutOfMemory>
    ensures bad { (text : List ℕ) → Refuses fault (λ number. bad_in text ≡ Some number) →
        IfOk result (λ bad. bad ≡ is_some (bad_in text)) }
    ensures appended { (text : List ℕ) → Refuses fault (λ number. bad_in text ≡ Some number) →
        OnOk result (out.new ≡ out.old ++ answer text) }
{
    match fault {
        ScheduleFault::Bad(bad) => {
            push_bad_line(out, bad.number)?;
            Ok(true)
        }
        ScheduleFault::OutOfMemory => Err(OutOfMemory),
    }
}

// Writes the lines of events, whenever much is gathered.
fn put_told<O: Sink>(told: &[(u8, Event)], text: &mut Octets, out: &mut O) -> Result<(), NextFault>
    // What was written, and what is gathered.
    ensures text { Writes result text.old text.new (O.written out.old) (O.written out.new) (told_lines told.now) }
    // The count rises where the sink failed.
    ensures later { O.faults out.old ≤ O.faults out.new }
    ensures failed { IsErrOf result NextFault.Failed → Rose (O.faults out.old) (O.faults out.new) }
{
    for one in told {
        push_told(text, one)?;
        write_much(text, out)?;
    }
    Ok(())
}

// Appends the lines of events.
fn push_all(out: &mut Octets, told: &[(u8, Event)]) -> Result<(), OutOfMemory>
    ensures { OnOk result (out.new ≡ out.old ++ told_lines told.now) }
{
    for one in told {
        push_told(out, one)?;
    }
    Ok(())
}

// Keeps the lines of events after those of others, as long as all of them are few.
fn keep_told(kept: &mut Option<Octets>, told: &[(u8, Event)]) -> Result<(), OutOfMemory>
    ensures { (es : List (ℕ × EventValue)) → IfSome kept.old (λ text. text ≡ told_lines es) →
        OnOk result (IfSome kept.new (λ text. text ≡ told_lines (es ++ told.now))) }
{
    let Some(text) = kept else {
        return Ok(());
    };
    push_all(text, told)?;
    if KEPT_TEXT < text.len() {
        *kept = None;
    }
    Ok(())
}

// Runs moves, to find one that can't come. What the nodes tell is kept as text as long as it is short.
fn try_moves(alloc: Global, mut moves: MoveReader<'_>) -> Result<Option<Octets>, ScheduleFault>
    ensures told { IfOk result (λ kept. (bad_move moves.entry ≡ None)
        × IfSome kept (λ text. text ≡ told_lines (said moves.entry))) }
    ensures refused { IfErr result (λ fault. Refuses fault (λ number. bad_move moves.entry ≡ Some number)) }
{
    let mut network = Network::new(alloc)?;
    let mut told = SaidEvents::new(alloc);
    let mut kept = Some(Octets::new(alloc));
    let mut line: u64 = 2;
    'lines: while let Some(one) = moves.next()? {
        if !network.take(one, &mut told)? {
            return Err(ScheduleFault::Bad(BadSchedule { number: line }));
        }
        keep_told(&mut kept, told.as_slice())?;
        let Some(next) = line.checked_add(1) else {
            return Err(ScheduleFault::OutOfMemory);
        };
        line = next;
    }
    Ok(kept)
}

// Runs moves of which each can come, and writes what the nodes tell as they tell it.
fn write_moves<O: Sink>(
    alloc: Global,
    mut moves: MoveReader<'_>,
    text: &mut Octets,
    out: &mut O,
) -> Result<(), NextFault>
    // What was written, and what is gathered.
    ensures text { Writes result text.old text.new (O.written out.old) (O.written out.new)
        (told_lines (said moves.entry)) }
    // The count rises where the sink failed.
    ensures later { O.faults out.old ≤ O.faults out.new }
    ensures failed { IsErrOf result NextFault.Failed → Rose (O.faults out.old) (O.faults out.new) }
{
    let mut network = Network::new(alloc)?;
    let mut told = SaidEvents::new(alloc);
    'lines: while let Some(one) = moves.next()? {
        if !network.take(one, &mut told)? {
            return Err(NextFault::OutOfMemory);
        }
        put_told(told.as_slice(), text, out)?;
    }
    Ok(())
}

// Writes the lines of events that were kept as text.
fn write_kept<O: Sink>(kept: &[u8], gathered: &mut Octets, out: &mut O) -> Result<(), NextFault>
    // What was written, and what is gathered.
    ensures text { Writes result gathered.old gathered.new (O.written out.old) (O.written out.new) kept.now }
    // The count rises where the sink failed.
    ensures later { O.faults out.old ≤ O.faults out.new }
    ensures failed { IsErrOf result NextFault.Failed → Rose (O.faults out.old) (O.faults out.new) }
{
    gathered.append(kept)?;
    write_much(gathered, out)
}

// Writes what the nodes of a schedule tell: as it was kept, or once more as they tell it.
fn write_told<O: Sink>(
    alloc: Global,
    schedule: &[u8],
    kept: Option<Octets>,
    gathered: &mut Octets,
    out: &mut O,
) -> Result<(), NextFault>
    // What was written, and what is gathered.
    ensures text { IfSome kept (λ text. text ≡ told_lines (said (moves_of (lines_in schedule.now)))) →
        Writes result gathered.old gathered.new (O.written out.old) (O.written out.new)
        (told_lines (said (moves_of (lines_in schedule.now)))) }
    // The count rises where the sink failed.
    ensures later { O.faults out.old ≤ O.faults out.new }
    ensures failed { IsErrOf result NextFault.Failed → Rose (O.faults out.old) (O.faults out.new) }
{
    match kept {
        Some(text) => write_kept(text.as_slice(), gathered, out),
        None => write_moves(alloc, MoveReader::new(alloc, schedule), gathered, out),
    }
}

// Writes what a schedule comes to, none of whose lines is bad. Its moves are run to find one that can't come, and once
// more to write what the nodes tell, unless that was short. They are read from the text as they are due: so neither
// they nor what they tell lies whole in memory.
fn write_run<O: Sink>(
    alloc: Global,
    schedule: &[u8],
    gathered: &mut Octets,
    out: &mut O,
) -> Result<bool, NextFault>
    requires { bad_line_of schedule.now ≡ None }
    // Whether a move can't be made.
    ensures bad { IfOk result (λ bad. bad ≡ is_some (bad_in schedule.now)) }
    // What was written, and what is gathered.
    ensures text { Writes result gathered.old gathered.new (O.written out.old) (O.written out.new)
        (answer schedule.now) }
    // The count rises where the sink failed.
    ensures later { O.faults out.old ≤ O.faults out.new }
    ensures failed { IsErrOf result NextFault.Failed → Rose (O.faults out.old) (O.faults out.new) }
{
    match try_moves(alloc, MoveReader::new(alloc, schedule)) {
        Ok(kept) => {
            write_told(alloc, schedule, kept, gathered, out)?;
            Ok(false)
        }
        Err(fault) => Ok(push_refusal(gathered, fault)?),
    }
}

/// Writes what a text comes to: the lines of what the nodes tell, or the line at which it is no schedule. The text is
/// gathered, and written whenever it is much. Says whether it is refused.
pub(crate) fn write_answer<O: Sink>(
    alloc: Global,
    text: &[u8],
    gathered: &mut Octets,
    out: &mut O,
) -> Result<bool, NextFault>
    // Whether a line or a move is bad.
    ensures bad { IfOk result (λ bad. bad ≡ is_some (bad_in text.now)) }
    // What was written, and what is gathered.
    ensures text { Writes result gathered.old gathered.new (O.written out.old) (O.written out.new) (answer text.now) }
    // The count rises where the sink failed.
    ensures later { O.faults out.old ≤ O.faults out.new }
    ensures failed { IsErrOf result NextFault.Failed → Rose (O.faults out.old) (O.faults out.new) }
{
    match check_schedule(alloc, text) {
        Ok(()) => write_run(alloc, text, gathered, out),
        Err(fault) => Ok(push_refusal(gathered, fault)?),
    }
}

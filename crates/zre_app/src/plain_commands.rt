//! The commands that read a source and write to a sink, and have to do with nothing else.

ghost use Rattle.std.specs.Prelude.{◌≡◌, ◌≢◌, ◌≤◌, [], true, false, Some, IfSome};
ghost use Rattle.zre_outside.specs.Causes.{Rose};
ghost use Rattle.zre_values.specs.Settings.{is_valid};
ghost use Rattle.zre_console.specs.Statuses.{Yields};
ghost use Rattle.zre_commands.specs.declared.pump.status.Status.TheVariants.{ReadFault, WriteFault};
ghost use Rattle.zre_commands.specs.pump.Outcome.{IsByRefusal};
ghost use Rattle.zre_commands.specs.exercise.Exercise.{text as exercise_text};
ghost use Rattle.zre_app.specs.Does.{DidPlain, DoesWork};
ghost use Rattle.zre_app.specs.Does.Work.{Reads};
ghost use Rattle.zre_app.specs.Streams.{streams};
ghost use Rattle.zre_chat.specs.Views.{stream_views};
ghost use Rattle.zre_app.specs.PlainWords.{plain_of, CanDo};
ghost use Rattle.zre_app.specs.Usage.{UsageOutcome, WritesText};
ghost use Rattle.zre_app.specs.Words.{is_chat};

use crate::plain_words::{Plain, plain_of};
use std::alloc::Global;
use zre_commands::exercise::push_summary;
use zre_commands::follow::Follower;
use zre_commands::pump::{Machine, Status, pump};
use zre_commands::show::Lister;
use zre_journal::Config;
use zre_outside::{NextFault, Sink, Source, write_all};
use zre_records::audit::Auditor;
use zre_records::replay::{HeadReplayer, Replayer};
use zre_records::simulate::Simulator;
use zre_records::table::Tabulator;
use zre_records::upgrade::Upgrader;
use zre_values::{Frames, Octets, OutOfMemory};

/// How a call ended, and the source that was handed in.
#[derive(Debug, Drop)]
pub struct PlainEnded<I> {
    pub status: Status,
    pub input: I,
}

// Writes how the program is called.
pub(crate) fn usage<O: Sink>(out: &mut O) -> Status
    // What was written, and the status.
    ensures written { UsageOutcome result (O.written out.old) (O.written out.new)
        (Rose (O.faults out.old) (O.faults out.new)) }
    // Where the sink refused a call, that is the status, unless memory ran out; nothing is read.
    ensures first { Yields result WriteFault (O.refused out.new ≡ O.refused out.old) }
    ensures unread { result ≢ ReadFault }
    ensures writes { O.faults out.old ≤ O.faults out.new }
{
    match write_all(out, b"USAGE\n") {
        Ok(()) => Status::Usage,
        Err(NextFault::Failed) => Status::WriteFault,
        Err(NextFault::OutOfMemory) => Status::OutOfMemory,
    }
}

// Reads the source by a machine that has read nothing.
fn reads<M: Machine + Drop, I: Source, O: Sink>(
    alloc: Global,
    mut machine: M,
    input: &mut I,
    out: &mut O,
    limit: u64,
) -> Status
    // Nothing was fed.
    requires start { M.fed machine [] }
    requires going { (M.says machine).is_stopped [] ≡ false }
    // What was read and written, and the status.
    ensures does { DoesWork (Reads (M.says machine)) limit result
        (streams (stream_views I.left I.taken I.faults O.written O.faults) input.old out.old)
        (streams (stream_views I.left I.taken I.faults O.written O.faults) input.new out.new) }
    // After a refused read nothing more is read.
    ensures refused { IsByRefusal result (I.refused input.old) (I.refused input.new) }
    // Counts of faults never fall.
    ensures reads { I.faults input.old ≤ I.faults input.new }
    ensures writes { O.faults out.old ≤ O.faults out.new }
{
    pump(alloc, &mut machine, input, out, limit)
}

fn replay<I: Source, O: Sink>(
    alloc: Global,
    config: Config,
    input: &mut I,
    out: &mut O,
    limit: u64,
) -> Status
    requires { is_valid config ≡ true }
    ensures does { DidPlain (stream_views I.left I.taken I.faults O.written O.faults)
        (Some (Plain.Replay config)) limit result input.old input.new out.old out.new }
    ensures refused { IsByRefusal result (I.refused input.old) (I.refused input.new) }
{
    match Replayer::new(alloc, config) {
        Ok(machine) => reads(alloc, machine, input, out, limit),
        Err(OutOfMemory) => Status::OutOfMemory,
    }
}

fn write_text<O: Sink>(text: &[u8], out: &mut O) -> Status
    ensures written { WritesText result text.now (O.written out.old) (O.written out.new)
        (Rose (O.faults out.old) (O.faults out.new)) }
    ensures unread { result ≢ ReadFault }
    ensures writes { O.faults out.old ≤ O.faults out.new }
{
    match write_all(out, text) {
        Ok(()) => Status::Done,
        Err(NextFault::Failed) => Status::WriteFault,
        Err(NextFault::OutOfMemory) => Status::OutOfMemory,
    }
}

fn exercise<O: Sink>(alloc: Global, seed: u64, peers: u16, messages: u32, out: &mut O) -> Status
    // The numbers are within the limits.
    requires some { 1 ≤ peers }
    requires few { peers ≤ 256 }
    requires short { messages ≤ 1000000 }
    // What was written, and the status.
    ensures written { WritesText result (exercise_text seed peers messages) (O.written out.old) (O.written out.new)
        (Rose (O.faults out.old) (O.faults out.new)) }
    ensures unread { result ≢ ReadFault }
    ensures writes { O.faults out.old ≤ O.faults out.new }
{
    let mut summary = Octets::new(alloc);
    match push_summary(alloc, &mut summary, seed, peers, messages) {
        Ok(()) => write_text(summary.as_slice(), out),
        Err(OutOfMemory) => Status::OutOfMemory,
    }
}

// Does a command other than `chat`, or tells that there is none.
fn obey<I: Source, O: Sink>(
    alloc: Global,
    command: Option<Plain>,
    input: &mut I,
    out: &mut O,
    limit: u64,
) -> Status
    requires { IfSome command CanDo }
    ensures does { DidPlain (stream_views I.left I.taken I.faults O.written O.faults)
        command limit result input.old input.new out.old out.new }
    ensures refused { IsByRefusal result (I.refused input.old) (I.refused input.new) }
{
    match command {
        None => usage(out),
        Some(Plain::Follow { id }) => reads(alloc, Follower::new(alloc, id), input, out, limit),
        Some(Plain::Show) => reads(alloc, Lister::new(alloc), input, out, limit),
        Some(Plain::Replay { config }) => replay(alloc, config, input, out, limit),
        Some(Plain::ReplayTold) => reads(alloc, HeadReplayer::new(alloc), input, out, limit),
        Some(Plain::Upgrade { config }) => {
            reads(alloc, Upgrader::new(alloc, config), input, out, limit)
        }
        Some(Plain::Table { group }) => reads(
            alloc,
            Tabulator::new(alloc, group),
            input,
            out,
            limit,
        ),
        Some(Plain::Audit) => reads(alloc, Auditor::new(alloc), input, out, limit),
        Some(Plain::Simulate) => reads(alloc, Simulator::new(alloc), input, out, limit),
        Some(
            Plain::Exercise {
                seed,
                peers,
                messages,
            },
        ) => exercise(alloc, seed, peers, messages, out),
    }
}

/// Does what the words of a command other than `chat` ask for, and reads at most `limit` octets. The source comes back
/// as it was left.
pub fn plain<I: Source, O: Sink>(
    alloc: Global,
    words: &Frames,
    input: I,
    out: &mut O,
    limit: u64,
) -> PlainEnded<I>
    requires { is_chat words.now ≡ false }
    ensures does { DidPlain (stream_views I.left I.taken I.faults O.written O.faults)
        (plain_of words.now) limit result.status input result.input out.old out.new }
    // Where the source tells the reads that it refused, nothing more is read after one.
    ensures refused { IsByRefusal result.status (I.refused input) (I.refused result.input) }
{
    match plain_of(alloc, words) {
        Ok(command) => {
            let mut input = input;
            let status = obey(alloc, command, &mut input, out, limit);
            PlainEnded { status, input }
        }
        Err(OutOfMemory) => PlainEnded {
            status: Status::OutOfMemory,
            input,
        },
    }
}

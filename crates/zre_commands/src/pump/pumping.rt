//! Reads a source in pieces, feeds a machine, and writes its text.

ghost use Rattle.std.specs.Prelude.{◌≡◌, ◌≢◌, ◌<◌, ◌≤◌, ◌+◌, ℕ, List, [], false, length, take, IfOk};
ghost use Rattle.std.specs.Prelude.{OnOk, IfErr, OnErr};
ghost use Rattle.std.specs.Prelude.{IsErrOf};
ghost use Rattle.std.specs.Io.KnownBytes.{Appends};
ghost use Rattle.zre_outside.specs.Causes.{Rose};
ghost use Rattle.zre_outside.specs.Told.{AppendsFront, MovesOn};
ghost use Rattle.zre_commands.specs.declared.pump.status.Status.TheVariants.{ReadFault};
ghost use Rattle.zre_commands.specs.pump.Outcome.{Pumped, IsByRefusal};
ghost use Rattle.zre_commands.specs.pump.Turning.{Finishes, Refuses, Told, Turned, TurnRefuses, no_read};

use crate::pump::machine::{Going, Machine};
use crate::pump::status::Status;
use std::alloc::Global;
use zre_outside::{NextFault, Sink, Source, room_for, write_all, write_gathered, zeros};
use zre_values::Octets;

// The most octets that one read asks for. The text that they add lies whole in memory before it is written, and it can
// be long: a tick of seven to ten octets tells up to 256 lines of EVASIVE, which are some 25 to 36 for each octet.
const PORTION: usize = 2048;

/// How a turn ended.
#[derive(Clone, Copy)]
enum Onward {
    // More octets are read.
    Go,
    // No more are: there are none, or those so far are refused.
    Finish,
    // The source or the sink failed, or no memory was left.
    Fail(Status),
}

/// One turn: how many octets it read, and how it ended.
#[derive(Clone, Copy)]
struct PumpTurn {
    read: usize,
    next: Onward,
}

// How many octets the next read asks for, where so many may still be taken.
fn portion(left: u64) -> usize
    requires { 0 < left }
    // Some octets, and no more than are allowed.
    ensures some { 0 < result }
    ensures most { result ≤ 2048 }
    ensures within { result ≤ left }
{
    room_for(left).min(PORTION)
}

// Writes octets. A refusal is told as the status with which a command ends by it.
fn write_text<O: Sink>(out: &mut O, octets: &[u8]) -> Result<(), Status>
    // What is written.
    ensures written { OnOk result (Appends (O.written out.old) (O.written out.new) octets.now) }
    // What a refusal tells.
    ensures refused { IfErr result (λ status. Refuses status (Rose (O.faults out.old) (O.faults out.new))
        (AppendsFront (O.written out.old) (O.written out.new) octets.now)) }
    ensures unread { IfErr result (λ status. status ≢ ReadFault) }
    ensures writes { O.faults out.old ≤ O.faults out.new }
{
    match write_all(out, octets) {
        Ok(()) => Ok(()),
        Err(NextFault::Failed) => Err(Status::WriteFault),
        Err(NextFault::OutOfMemory) => Err(Status::OutOfMemory),
    }
}

/// The text that a machine adds, before it is written. Its room is used again for each piece.
#[derive(Drop)]
struct PumpText {
    room: Octets,
}

impl PumpText {
    // Writes the text that comes before any input is read.
    fn begin<M: Machine, O: Sink>(&mut self, machine: &M, out: &mut O) -> Result<(), Status>
        // What is written.
        ensures begun { M.fed machine.now [] →
            OnOk result (Appends (O.written out.old) (O.written out.new) ((M.says machine.now).text [])) }
        // What a refusal tells.
        ensures refused { M.fed machine.now [] →
            IfErr result (λ status. Refuses status (Rose (O.faults out.old) (O.faults out.new))
            (AppendsFront (O.written out.old) (O.written out.new) ((M.says machine.now).text []))) }
        ensures unread { IfErr result (λ status. status ≢ ReadFault) }
        ensures writes { O.faults out.old ≤ O.faults out.new }
    {
        self.room.clear();
        let Ok(()) = machine.begin(&mut self.room) else {
            return Err(Status::OutOfMemory);
        };
        write_text(out, self.room.as_slice())
    }

    // Feeds a piece and writes its text.
    fn tell<M: Machine, O: Sink>(&mut self, machine: &mut M, piece: &[u8], out: &mut O) -> Onward
        // What is told, and how it goes on.
        ensures told { (o : List ℕ) → M.fed machine.old o → (M.says machine.old).is_stopped o ≡ false →
            Told result (M.fed machine.new) (M.says machine.old) o piece.now (O.written out.old) (O.written out.new)
            (Rose (O.faults out.old) (O.faults out.new)) }
        ensures unread { result ≢ no_read }
        // The machine and the sink.
        ensures same { M.says machine.new ≡ M.says machine.old }
        ensures writes { O.faults out.old ≤ O.faults out.new }
    {
        self.room.clear();
        let Ok(going) = machine.feed(piece, &mut self.room) else {
            return Onward::Fail(Status::OutOfMemory);
        };
        match write_text(out, self.room.as_slice()) {
            Ok(()) => {}
            Err(status) => return Onward::Fail(status),
        }
        match going {
            Going::On => Onward::Go,
            Going::Stop => Onward::Finish,
        }
    }

    // Reads one piece, feeds it and writes its text.
    fn take_turn<M: Machine, I: Source, O: Sink>(
        &mut self,
        machine: &mut M,
        input: &mut I,
        out: &mut O,
        buf: &mut [u8],
    ) -> PumpTurn
        requires { 0 < length buf.old }
        // What is read.
        ensures bound { result.read ≤ length buf.new }
        ensures moved { MovesOn (I.left input.old) (I.left input.new) (I.taken input.old) (I.taken input.new)
            (take result.read buf.new) }
        ensures turned { (o : List ℕ) → M.fed machine.old o → (M.says machine.old).is_stopped o ≡ false →
            Turned result.next (M.fed machine.new) (M.says machine.old) o (take result.read buf.new)
            (I.left input.new) (O.written out.old) (O.written out.new)
            (Rose (I.faults input.old) (I.faults input.new)) (Rose (O.faults out.old) (O.faults out.new)) }
        ensures refused { TurnRefuses result.next (I.refused input.old) (I.refused input.new) }
        // The machine.
        ensures same { M.says machine.new ≡ M.says machine.old }
        // The source and the sink.
        ensures reads { I.faults input.old ≤ I.faults input.new }
        ensures writes { O.faults out.old ≤ O.faults out.new }
    {
        let Ok(read) = input.read(buf) else {
            return PumpTurn {
                read: 0,
                next: Onward::Fail(Status::ReadFault),
            };
        };
        if read == 0 {
            return PumpTurn {
                read,
                next: Onward::Finish,
            };
        }
        let next = self.tell(machine, &buf[..read], out);
        PumpTurn { read, next }
    }

    // Writes the last text of an input of so many octets. Says whether the input is refused.
    fn write_ending<M: Machine, O: Sink>(
        &mut self,
        machine: &M,
        taken: u64,
        out: &mut O,
    ) -> Result<bool, NextFault>
        // The last text.
        ensures bad { (o : List ℕ) → M.fed machine.now o → length o ≡ taken →
            IfOk result (λ bad. bad ≡ (M.says machine.now).is_bad o) }
        ensures ending { (o : List ℕ) → M.fed machine.now o → length o ≡ taken →
            OnOk result (Appends (O.written out.old) (O.written out.new) ((M.says machine.now).ending o)) }
        // What is written.
        ensures front { (o : List ℕ) → M.fed machine.now o → length o ≡ taken →
            OnErr result (AppendsFront (O.written out.old) (O.written out.new) ((M.says machine.now).ending o)) }
        // The sink.
        ensures writes { O.faults out.old ≤ O.faults out.new }
        ensures failed { IsErrOf result NextFault.Failed → Rose (O.faults out.old) (O.faults out.new) }
    {
        self.room.clear();
        let is_bad = machine.finish(taken, &mut self.room, out)?;
        write_gathered(&mut self.room, out)?;
        Ok(is_bad)
    }

    // Takes the end of the input, of which so many octets were taken, and writes the last text.
    fn finish<M: Machine, O: Sink>(&mut self, machine: &M, taken: u64, out: &mut O) -> Status
        ensures finishes { (o : List ℕ) → M.fed machine.now o → length o ≡ taken →
            Finishes result (M.says machine.now) o (O.written out.old) (O.written out.new)
            (Rose (O.faults out.old) (O.faults out.new)) }
        ensures unread { result ≢ ReadFault }
        ensures writes { O.faults out.old ≤ O.faults out.new }
    {
        match self.write_ending(machine, taken, out) {
            Ok(true) => Status::BadInput,
            Ok(false) => Status::Done,
            Err(NextFault::Failed) => Status::WriteFault,
            Err(NextFault::OutOfMemory) => Status::OutOfMemory,
        }
    }
}

/// Writes the text that comes first, reads the source to its end, feeds the machine with it and writes its text, up to
/// a limit of octets. It keeps one piece of the input and that piece's text, of the last text as much as the machine
/// gathers, and asks for no octet past the limit.
pub fn pump<M: Machine, I: Source, O: Sink>(
    alloc: Global,
    machine: &mut M,
    input: &mut I,
    out: &mut O,
    limit: u64,
) -> Status
    requires start { M.fed machine.old [] }
    requires going { (M.says machine.old).is_stopped [] ≡ false }
    ensures pumped { Pumped result limit (M.says machine.old)
        (I.left input.old) (I.left input.new) (I.taken input.old) (I.taken input.new)
        (O.written out.old) (O.written out.new)
        (Rose (I.faults input.old) (I.faults input.new)) (Rose (O.faults out.old) (O.faults out.new)) }
    // After a refused read nothing more is read.
    ensures refused { IsByRefusal result (I.refused input.old) (I.refused input.new) }
    ensures reads { I.faults input.old ≤ I.faults input.new }
    ensures writes { O.faults out.old ≤ O.faults out.new }
{
    let Ok(mut buf) = zeros(alloc, PORTION) else {
        return Status::OutOfMemory;
    };
    let mut text = PumpText {
        room: Octets::new(alloc),
    };
    match text.begin(machine, out) {
        Ok(()) => {}
        Err(status) => return status,
    }
    let mut taken: u64 = 0;
    while taken < limit {
        let room = portion(limit - taken);
        let turn = text.take_turn(machine, input, out, &mut buf[..room]);
        taken += turn.read as u64;
        match turn.next {
            Onward::Go => {}
            Onward::Finish => return text.finish(machine, taken, out),
            Onward::Fail(status) => return status,
        }
    }
    Status::TooLong
}

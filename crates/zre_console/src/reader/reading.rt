//! A source is read in pieces, and the commands of its lines are put.

ghost use Rattle.std.specs.Prelude.{◌≡◌, ◌<◌, ◌≤◌, ℕ, List, false, length, take};
ghost use Rattle.std.specs.List.{list_any};
ghost use Rattle.zre_outside.specs.Causes.{Rose};
ghost use Rattle.zre_outside.specs.Told.{MovesOn};
ghost use Rattle.zre_actor.specs.Passes.{IsCallerOf};
ghost use Rattle.zre_console.specs.lines.Orders.{is_quit, typed};
ghost use Rattle.zre_console.specs.lines.Typing.{Typed};
ghost use Rattle.zre_console.specs.reader.Reading.{HasReadLines, EndsByRefusal};
ghost use Rattle.zre_console.specs.reader.Turning.{Took, Turned, TurnRefuses, Finishes, GoesUnrefused, EndsUnrefused};

use crate::lines::Typist;
use crate::reader::InputEnd;
use crate::reader::putting::{ChatPipes, PutOutcome};
use std::alloc::Global;
use std::sync::Wait;
use std::sync::atomic::Ordering;
use zre_actor::CallerPass;
use zre_outside::{Failed, PIECE, Source, room_for, zeros};

/// What comes after a turn.
#[derive(Clone, Copy)]
enum Next {
    /// The next one.
    Go,
    /// The end of the input.
    Finish,
    /// Nothing, for this reason.
    End(InputEnd),
}

/// One turn: how many octets it read, and what comes after it.
#[derive(Drop)]
struct ReaderTurn {
    read: usize,
    pass: CallerPass,
    next: Next,
}

impl ChatPipes<'_> {
    // Feeds a piece, and puts the commands of the lines that it ends.
    fn take_piece<R: Wait + Copy>(
        &self,
        rt: R,
        alloc: Global,
        typist: &mut Typist,
        pass: CallerPass,
        piece: &[u8],
    ) -> (CallerPass, Next)
        // The pass belongs to the pipes, before and after.
        requires { IsCallerOf self.now.pipes.now pass }
        ensures pipes { IsCallerOf self.now.pipes.now result.0 }
        // What the piece holds is put, up to a quit. No read is refused here.
        ensures took { (o : List ℕ) → Typed o typist.old → list_any is_quit (typed o) ≡ false →
            Took result.1 typist.new o piece.now pass result.0 }
        ensures unrefused { GoesUnrefused result.1 }
    {
        let mut commands = Vec::new(alloc);
        let fed = typist.feed(piece, &mut commands);
        let (pass, sent) = self.put_all(rt, pass, commands);
        match sent {
            PutOutcome::Quit => (pass, Next::End(InputEnd::Quit)),
            PutOutcome::Over => (pass, Next::End(InputEnd::Over)),
            PutOutcome::On => match fed {
                Ok(()) => (pass, Next::Go),
                Err(_) => (pass, Next::End(InputEnd::OutOfMemory)),
            },
        }
    }

    // Reads one piece, and puts the commands of the lines that it ends.
    fn take_turn<R: Wait + Copy, I: Source>(
        &self,
        rt: R,
        alloc: Global,
        typist: &mut Typist,
        pass: CallerPass,
        input: &mut I,
        buf: &mut [u8],
    ) -> ReaderTurn
        // The pass belongs to the pipes, before and after.
        requires some { 0 < length buf.old }
        requires pipes { IsCallerOf self.now.pipes.now pass }
        ensures bound { result.read ≤ length buf.new }
        ensures pipes { IsCallerOf self.now.pipes.now result.pass }
        // What was read, what was put of it, and what comes next.
        ensures moved { MovesOn (I.left input.old) (I.left input.new) (I.taken input.old) (I.taken input.new)
            (take result.read buf.new) }
        ensures turned { (o : List ℕ) → Typed o typist.old → list_any is_quit (typed o) ≡ false →
            Turned result.next typist.new o (take result.read buf.new) (I.left input.new) pass result.pass
            (Rose (I.faults input.old) (I.faults input.new)) }
        ensures refused { TurnRefuses result.next (I.refused input.old) (I.refused input.new) }
        // The count of faults never falls.
        ensures later { I.faults input.old ≤ I.faults input.new }
    {
        let read = match input.read(buf) {
            Ok(read) => read,
            Err(Failed) => {
                return ReaderTurn {
                    read: 0,
                    pass,
                    next: Next::End(InputEnd::ReadFault),
                };
            }
        };
        if read == 0 {
            return ReaderTurn {
                read,
                pass,
                next: Next::Finish,
            };
        }
        let (pass, next) = self.take_piece(rt, alloc, typist, pass, &buf[..read]);
        ReaderTurn { read, pass, next }
    }

    // Takes the end of the input: the line that isn't finished counts.
    fn finish<R: Wait + Copy>(
        &self,
        rt: R,
        typist: &Typist,
        pass: CallerPass,
    ) -> (CallerPass, InputEnd)
        // The pass belongs to the pipes, before and after.
        requires { IsCallerOf self.now.pipes.now pass }
        ensures pipes { IsCallerOf self.now.pipes.now result.0 }
        // What the last line holds is put. No read is refused here.
        ensures finishes { (o : List ℕ) → Typed o typist.now → list_any is_quit (typed o) ≡ false →
            Finishes result.1 o pass result.0 }
        ensures unrefused { EndsUnrefused result.1 }
    {
        let Ok(last) = typist.finish() else {
            return (pass, InputEnd::OutOfMemory);
        };
        let Some(command) = last else {
            return (pass, InputEnd::AtEnd);
        };
        let (pass, sent) = self.put_one(rt, pass, command);
        match sent {
            PutOutcome::On => (pass, InputEnd::AtEnd),
            PutOutcome::Quit => (pass, InputEnd::AtEnd),
            PutOutcome::Over => (pass, InputEnd::Over),
        }
    }

    /// Reads a source, at most so many octets of it, and puts the commands of its lines with the pass up to a quit,
    /// which isn't put, each again while the pipe is full. It looks at `over` before each read and whenever it is to
    /// put a command, and puts nothing more where that is set; nothing is claimed of when it sees it.
    pub(crate) fn read_lines<R: Wait + Copy, I: Source>(
        &self,
        rt: R,
        alloc: Global,
        mut pass: CallerPass,
        input: &mut I,
        limit: u64,
    ) -> (CallerPass, InputEnd)
        // The pass belongs to the pipes, before and after.
        requires { IsCallerOf self.now.pipes.now pass }
        ensures pipes { IsCallerOf self.now.pipes.now result.0 }
        // What was read and put, and why no more.
        ensures read { HasReadLines result.1 limit pass result.0 (I.left input.old) (I.left input.new)
            (I.taken input.old) (I.taken input.new) (Rose (I.faults input.old) (I.faults input.new)) }
        // After a refused read nothing more is read.
        ensures refused { EndsByRefusal result.1 (I.refused input.old) (I.refused input.new) }
        // The count of faults never falls.
        ensures later { I.faults input.old ≤ I.faults input.new }
    {
        let Ok(mut buf) = zeros(alloc, PIECE) else {
            return (pass, InputEnd::OutOfMemory);
        };
        let mut typist = Typist::new(alloc);
        let mut taken: u64 = 0;
        while taken < limit {
            if self.over.load(Ordering::SeqCst) {
                return (pass, InputEnd::Over);
            }
            let room = room_for(limit - taken);
            let piece = &mut buf[..room];
            let ReaderTurn {
                read,
                pass: back,
                next,
            } = self.take_turn(rt, alloc, &mut typist, pass, input, piece);
            taken += read as u64;
            match next {
                Next::Go => pass = back,
                Next::Finish => return self.finish(rt, &typist, back),
                Next::End(end) => return (back, end),
            }
        }
        (pass, InputEnd::TooLong)
    }
}

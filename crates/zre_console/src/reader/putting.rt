//! Commands go into the pipe.

ghost use Rattle.std.specs.Prelude.{◌≡◌, ◌∷◌, [], cond};
ghost use Rattle.zre_outside.specs.declared.entry.Command.TheVariants.{Quit};
ghost use Rattle.zre_actor.specs.Passes.{IsCallerOf};
ghost use Rattle.zre_console.specs.lines.Orders.{is_quit};
ghost use Rattle.zre_console.specs.reader.Putting.{Puts, Sends, SendsAll, Closes};
ghost use Rattle.zre_console.specs.reader.Turning.{Closing};

use crate::reader::InputEnd;
use std::sync::Wait;
use std::sync::atomic::{AtomicBool, Ordering};
use std::thread::yield_now;
use zre_actor::{CallerPass, Pipes};
use zre_outside::Command;

/// What became of commands that were to be put.
#[derive(Clone, Copy)]
pub(crate) enum PutOutcome {
    /// They were put, and none of them is a quit.
    On,
    /// They were put up to the first quit, which isn't put.
    Quit,
    /// The chat was over before all of them were put.
    Over,
}

/// Where commands are put: the pipes of a chat, and whether the chat is over.
#[derive(Clone, Copy)]
pub(crate) struct ChatPipes<'a> {
    pub pipes: &'a Pipes,
    pub over: &'a AtomicBool,
}

fn is_quit(command: &Command) -> bool
    ensures { result ≡ is_quit command.now }
{
    match command {
        Command::Quit => true,
        _ => false,
    }
}

impl ChatPipes<'_> {
    // Puts a command, and tries again while the pipe is full. False where the chat was over before it was put.
    fn put_command<R: Wait + Copy>(
        &self,
        rt: R,
        mut pass: CallerPass,
        mut command: Command,
    ) -> (CallerPass, bool)
        requires { IsCallerOf self.now.pipes.now pass }
        ensures pipes { IsCallerOf self.now.pipes.now result.0 }
        ensures put { Puts pass result.0 (cond result.1 (command ∷ []) []) }
    {
        for _ in rt.forever() {
            if self.over.load(Ordering::SeqCst) {
                drop(command);
                return (pass, false);
            }
            match self.pipes.put(rt, pass, command) {
                Ok(done) => return (done, true),
                Err(full) => {
                    pass = full.pass;
                    command = full.command;
                    yield_now();
                }
            }
        }
        unreachable!()
    }

    // Puts a command that isn't a quit, unless the chat is over.
    pub(crate) fn put_one<R: Wait + Copy>(
        &self,
        rt: R,
        pass: CallerPass,
        command: Command,
    ) -> (CallerPass, PutOutcome)
        requires { IsCallerOf self.now.pipes.now pass }
        ensures pipes { IsCallerOf self.now.pipes.now result.0 }
        ensures sent { Sends result.1 pass result.0 command }
    {
        if is_quit(&command) {
            drop(command);
            return (pass, PutOutcome::Quit);
        }
        let (pass, is_put) = self.put_command(rt, pass, command);
        (
            pass,
            if is_put {
                PutOutcome::On
            } else {
                PutOutcome::Over
            },
        )
    }

    // Puts the commands before the first quit, unless the chat is over.
    pub(crate) fn put_all<R: Wait + Copy>(
        &self,
        rt: R,
        mut pass: CallerPass,
        commands: Vec<Command>,
    ) -> (CallerPass, PutOutcome)
        requires { IsCallerOf self.now.pipes.now pass }
        ensures pipes { IsCallerOf self.now.pipes.now result.0 }
        ensures sent { SendsAll result.1 pass result.0 commands.items }
    {
        for command in commands {
            let (back, sent) = self.put_one(rt, pass, command);
            match sent {
                PutOutcome::On => pass = back,
                PutOutcome::Quit => return (back, PutOutcome::Quit),
                PutOutcome::Over => return (back, PutOutcome::Over),
            }
        }
        (pass, PutOutcome::On)
    }
}

/// Puts a quit, again while the pipe is full, unless `over` is set.
pub fn close<R: Wait + Copy>(
    rt: R,
    pipes: &Pipes,
    over: &AtomicBool,
    pass: CallerPass,
) -> CallerPass
    requires { IsCallerOf pipes.now pass }
    ensures pipes { IsCallerOf pipes.now result }
    ensures closes { Closes pass result }
{
    let (pass, _) = ChatPipes { pipes, over }.put_command(rt, pass, Command::Quit);
    pass
}

// Puts the quit at the end of what was read, unless the chat is over.
pub(crate) fn end_reading<R: Wait + Copy>(
    rt: R,
    pipes: &Pipes,
    over: &AtomicBool,
    pass: CallerPass,
    end: InputEnd,
) -> (CallerPass, InputEnd)
    requires { IsCallerOf pipes.now pass }
    ensures pipes { IsCallerOf pipes.now result.0 }
    ensures closing { Closing end result.1 pass result.0 }
{
    match end {
        InputEnd::Over => (pass, end),
        InputEnd::Quit | InputEnd::AtEnd => {
            let (pass, is_put) = ChatPipes { pipes, over }.put_command(rt, pass, Command::Quit);
            (pass, if is_put { end } else { InputEnd::Over })
        }
        InputEnd::ReadFault | InputEnd::TooLong | InputEnd::OutOfMemory => {
            (close(rt, pipes, over, pass), end)
        }
    }
}

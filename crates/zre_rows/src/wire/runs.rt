//! The run of a peer's messages.

ghost use Rattle.std.specs.Prelude.{◌≡◌, false, IsSome};

use crate::error::RowError;
use crate::subject::{Subject, steps};
use crate::text::Text;
use crate::words::Words;
use std::alloc::Global;
use zre_msg::{LentMessage, Message};
use zre_peer::{Run, RunFault, Teller, View};
use zre_values::{Frames, take_apart};

/// `on runs ID`: two runs of the same messages, one that gives events, and one that writes their lines at once.
pub struct RunSubject {
    run: Run,
    teller: Teller,
}

impl Drop for RunSubject {
    fn drop(self) {
        take_apart!(self, RunSubject: run, teller);
    }
}

fn push_fault(out: &mut Text, fault: RunFault) {
    match fault {
        RunFault::NotHello => out.put(b"fault NotHello"),
        RunFault::SecondHello => out.put(b"fault SecondHello"),
        RunFault::Limit => out.put(b"fault Limit"),
        RunFault::Broken { due, got } => {
            out.count(b"fault Broken", u64::from(due));
            out.count(b"", u64::from(got));
        }
        RunFault::OutOfMemory => out.fail(RowError::OutOfMemory),
    }
    out.end();
}

// The message of these frames, which have to be those of one, for a run that may go on.
fn message_of(alloc: Global, frames: &Frames, spent: bool, text: &mut Text) -> Option<Message>
    ensures { IsSome result → spent ≡ false }
{
    if !spent {
        if let Ok(message) = Message::read(alloc, frames) {
            return Some(message);
        }
    }
    text.fail(RowError::BadArgument);
    None
}

// Appends the lines of the next message's events, or the fault.
fn tell_events(alloc: Global, run: &mut Run, frames: &Frames, text: &mut Text) {
    if let Some(message) = message_of(alloc, frames, run.spent(), text) {
        match run.next(message) {
            Ok(events) => text.events(events.as_slice()),
            Err(fault) => push_fault(text, fault),
        }
    }
}

// Tells the lines of a message after HELLO as it lies in its frames.
fn tell_lines(alloc: Global, run: &mut Teller, frames: &Frames, text: &mut Text) {
    let is_told = match Message::see(frames) {
        Ok(Some(lent)) => tell_lent(run, &lent, text),
        _ => false,
    };
    if !is_told {
        tell_read(alloc, run, frames, text);
    }
}

fn tell_lent(run: &mut Teller, lent: &LentMessage<'_>, text: &mut Text) -> bool {
    if run.spent() || !run.is_after() {
        return false;
    }
    let taken = run.take_lent(lent, &mut text.octets);
    push_taken(text, taken);
    true
}

fn tell_read(alloc: Global, run: &mut Teller, frames: &Frames, text: &mut Text) {
    if let Some(message) = message_of(alloc, frames, run.spent(), text) {
        let taken = run.take(message, &mut text.octets);
        push_taken(text, taken);
    }
}

fn push_taken(text: &mut Text, taken: Result<(), RunFault>) {
    if let Err(fault) = taken {
        push_fault(text, fault);
    }
}

// The name, the endpoint and the status, and a line for each group and each header.
fn push_view(out: &mut Text, view: &View) {
    out.quoted(view.name());
    out.octet(b' ');
    out.quoted(view.endpoint());
    out.count(b"", u64::from(view.status()));
    out.end();
    push_groups(out, view);
    push_headers(out, view);
}

fn push_groups(out: &mut Text, view: &View) {
    for i in 0..view.groups_len() {
        out.put(b"group ");
        out.quoted(view.group(i));
        out.end();
    }
}

fn push_headers(out: &mut Text, view: &View) {
    for i in 0..view.headers_len() {
        let (name, value) = view.header(i);
        out.put(b"header ");
        out.quoted(name);
        out.octet(b'=');
        out.quoted(value);
        out.end();
    }
}

impl Subject for RunSubject {
    fn step(&mut self, words: &mut Words<'_>, answer: &mut Text) {
        steps!(self, words, answer; message, view)
    }
}

impl RunSubject {
    pub fn make(words: &mut Words<'_>) -> Self {
        let id = words.id();
        RunSubject {
            run: Run::new(words.alloc(), id),
            teller: Teller::new(words.alloc(), id),
        }
    }

    // `message HEX ..`: the lines of what the next message tells, or the fault. Both runs have to answer the same.
    fn message(&mut self, words: &mut Words<'_>, answer: &mut Text) {
        let frames = words.frames();
        let mut lines = Text::new(words.alloc());
        tell_lines(words.alloc(), &mut self.teller, &frames, &mut lines);
        let mut events = Text::new(words.alloc());
        tell_events(words.alloc(), &mut self.run, &frames, &mut events);
        answer.add(&events);
        if !answer.is_same(&lines, &events) {
            answer.line(b"not so where lines are written at once");
        }
    }

    // `view` answers what the peer has told of itself.
    fn view(&self, _words: &mut Words<'_>, answer: &mut Text) {
        match self.run.view() {
            Some(view) => push_view(answer, view),
            None => answer.line(b"none"),
        }
    }
}

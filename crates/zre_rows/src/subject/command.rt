//! The commands of the program, over an input, a world, a recorder and threads in memory.

mod calls;
mod cut;
mod narrow;
mod telling;

use crate::error::RowError;
use crate::journal::script_of;
use crate::subject::{Subject, steps};
use crate::text::Text;
use crate::words::Words;
use calls::{Ran, Stand, call, call_plain};
use cut::Cut;
use narrow::Narrow;
use std::alloc::Global;
use std::mem;
use std::sync::Wait;
use std::thread::Threads;
use telling::{Naming, Telling};
use zre_app::Status;
use zre_outside::{MemRecorder, MemSink, ScriptWorld};
use zre_values::{Frames, Octets, OutOfMemory, take_apart};

/// `on command WORD WORD ..`: the words of a command line, as quoted texts, what the command is run over, and what came
/// of its last run.
pub struct CommandSubject {
    words: Frames,
    input: Text,
    /// The script of the world, a line for each turn.
    script: Text,
    /// The calls that are to fail, a line for each kind: its name and their numbers.
    fails: Text,
    /// The sizes of the pieces of the input, or nothing.
    sizes: Text,
    /// The most octets that the output takes in one write.
    most: u64,
    limit: u64,
    /// The run that a line asked for.
    due: Option<DueRun>,
    left: u64,
    told: Text,
    kept: Text,
    file: Text,
}

impl Drop for CommandSubject {
    fn drop(self) {
        take_apart!(self, CommandSubject:
            words, input, script, fails, sizes, most, limit, due, left, told, kept, file);
    }
}

/// A run of any command: with a limit, or with that of the program.
#[derive(Clone, Copy)]
enum DueRun {
    Run(u64),
    Zre,
}

impl Subject for CommandSubject {
    fn step(&mut self, words: &mut Words<'_>, answer: &mut Text) {
        steps!(self, words, answer; run, zre, plain, both, words, read, write, limit, fail, turn, look, octets, line,
            text, input, left, told, kept, file)
    }
}

// What it is run over.
impl CommandSubject {
    pub fn new(words: &mut Words<'_>) -> Self {
        let alloc = words.alloc();
        CommandSubject {
            words: words.texts(),
            input: Text::new(alloc),
            script: Text::new(alloc),
            fails: Text::new(alloc),
            sizes: Text::new(alloc),
            most: u64::MAX,
            limit: u64::MAX,
            due: None,
            left: 0,
            told: Text::new(alloc),
            kept: Text::new(alloc),
            file: Text::new(alloc),
        }
    }

    fn words(&mut self, words: &mut Words<'_>, _answer: &mut Text) {
        drop(mem::replace(&mut self.words, words.texts()));
    }

    fn read(&mut self, words: &mut Words<'_>, _answer: &mut Text) {
        self.sizes.clear();
        self.sizes.put(words.take_rest());
    }

    // `write N`: its output takes at most so many octets a write.
    fn write(&mut self, words: &mut Words<'_>, _answer: &mut Text) {
        self.most = words.number();
    }

    fn limit(&mut self, words: &mut Words<'_>, _answer: &mut Text) {
        self.limit = words.number();
    }

    fn fail(&mut self, words: &mut Words<'_>, _answer: &mut Text) {
        self.fails.line(words.take_rest());
    }

    // The script of the world: `turn ENTRY` and `look`.
    fn turn(&mut self, words: &mut Words<'_>, _answer: &mut Text) {
        self.script.line(words.take_rest());
    }

    fn look(&mut self, _words: &mut Words<'_>, _answer: &mut Text) {
        self.script.line(b"look");
    }

    // The octets of the input: `octets HEX`, `line TEXT` with a line feed, `text TEXT` without one, and `input kept`
    // for what the recorder holds.
    fn octets(&mut self, words: &mut Words<'_>, _answer: &mut Text) {
        self.input.put(words.octets().as_slice());
    }

    fn line(&mut self, words: &mut Words<'_>, _answer: &mut Text) {
        self.input.line(words.take_rest());
    }

    fn text(&mut self, words: &mut Words<'_>, _answer: &mut Text) {
        self.input.put(words.take_rest());
    }

    fn input(&mut self, words: &mut Words<'_>, answer: &mut Text) {
        if words.field() == b"kept".as_slice() {
            self.input.clear();
            self.input.add(&self.kept);
        } else {
            answer.fail(RowError::BadArgument);
        }
    }

    // What came of the last run: `left` how many octets of the input weren't read, `told` what the world was told,
    // `kept` what the recorder holds and `file` its name, quoted.
    fn left(&self, _words: &mut Words<'_>, answer: &mut Text) {
        answer.number_line(Some(self.left));
    }

    fn told(&self, _words: &mut Words<'_>, answer: &mut Text) {
        answer.add(&self.told);
    }

    fn kept(&self, _words: &mut Words<'_>, answer: &mut Text) {
        self.kept.is_whole(answer);
        push_ended(answer, self.kept.as_slice());
    }

    fn file(&self, _words: &mut Words<'_>, answer: &mut Text) {
        self.file.is_whole(answer);
        answer.quoted(self.file.as_slice());
        answer.end();
    }

    // The numbers of the calls of a kind that are to fail.
    fn calls_of(&self, alloc: Global, kind: &str, answer: &mut Text) -> Vec<u64> {
        let mut calls = Vec::new(alloc);
        for line in self.fails.as_slice().split(|octet| *octet == b'\n') {
            let mut words = Words::of_line(alloc, line);
            if words.is(kind) {
                words.push_numbers(&mut calls);
                words.end(answer);
            }
        }
        calls
    }

    fn source(&self, alloc: Global, answer: &mut Text) -> Cut {
        let mut words = Words::new(alloc, b"read", self.sizes.as_slice());
        let mut sizes = Vec::new(alloc);
        if !self.sizes.as_slice().is_empty() {
            words.push_numbers(&mut sizes);
        }
        words.end(answer);
        let input = copy_of(alloc, &self.input, answer);
        Cut::new(input, sizes, self.calls_of(alloc, "read", answer))
    }

    fn sink(&self, alloc: Global, answer: &mut Text) -> Narrow {
        Narrow::new(
            MemSink::new(alloc, self.calls_of(alloc, "write", answer)),
            self.most,
        )
    }

    fn world(&self, alloc: Global, answer: &mut Text) -> Telling {
        let starts = self.calls_of(alloc, "start", answer);
        let nexts = self.calls_of(alloc, "next", answer);
        let script = script_of(alloc, self.script.as_slice(), answer);
        let inner = ScriptWorld::new(alloc, script, starts, nexts);
        Telling {
            inner,
            told: Text::new(alloc),
        }
    }

    fn recorder(&self, alloc: Global, answer: &mut Text) -> Naming {
        let begins = self.calls_of(alloc, "begin", answer);
        let puts = self.calls_of(alloc, "put", answer);
        Naming {
            inner: MemRecorder::new(alloc, begins, puts),
            names: Text::new(alloc),
        }
    }

    fn stand(&self, alloc: Global, answer: &mut Text) -> Stand {
        Stand {
            input: self.source(alloc, answer),
            world: self.world(alloc, answer),
            rec: self.recorder(alloc, answer),
            threads: self.calls_of(alloc, "thread", answer),
        }
    }

    // Whether the texts that it is run over are whole, and nothing else was wrong.
    fn is_whole(&self, answer: &mut Text) -> bool {
        self.script.is_whole(answer)
            && self.fails.is_whole(answer)
            && self.sizes.is_whole(answer)
            && !answer.has_fault()
    }

    fn note_given(&mut self, given: u64) {
        self.left = (self.input.as_slice().len() as u64).saturating_sub(given);
    }

    // `plain`: a command other than `chat`.
    fn plain(&mut self, words: &mut Words<'_>, answer: &mut Text) {
        let alloc = words.alloc();
        let input = self.source(alloc, answer);
        let mut out = self.sink(alloc, answer);
        if self.is_whole(answer) {
            match call_plain(alloc, &self.words, input, &mut out, self.limit) {
                Some((status, given)) => {
                    self.note_given(given);
                    push_outcome(answer, out.written(), status);
                }
                None => answer.fail(RowError::BadArgument),
            }
        }
    }

    // `both`: the same of an input that comes an octet a read and of one
    // that comes whole. What the first answers is told only where it
    // differs.
    fn both(&mut self, words: &mut Words<'_>, answer: &mut Text) {
        let mut by_octet = Text::new(words.alloc());
        self.sizes.clear();
        self.sizes.put(b"1");
        self.plain(words, &mut by_octet);
        let mut whole = Text::new(words.alloc());
        self.sizes.clear();
        self.plain(words, &mut whole);
        if !answer.is_same(&by_octet, &whole) {
            answer.line(b"an octet a read");
            answer.add(&by_octet);
            answer.line(b"whole");
        }
        answer.add(&whole);
    }

    fn note(&mut self, ran: Ran) {
        let Ran {
            input,
            world,
            rec,
            ..
        } = ran;
        self.note_given(input.given);
        self.kept.clear();
        self.kept.put(rec.inner.kept());
        self.told = world.told;
        self.file = rec.names;
    }
}

// Runs of any command.
impl CommandSubject {
    // `run`, with the limit. A line can ask for one run.
    fn run(&mut self, _words: &mut Words<'_>, answer: &mut Text) {
        self.ask(DueRun::Run(self.limit), answer);
    }

    // `zre`, which has none.
    fn zre(&mut self, _words: &mut Words<'_>, answer: &mut Text) {
        self.ask(DueRun::Zre, answer);
    }

    fn ask(&mut self, due: DueRun, answer: &mut Text) {
        if self.due.is_some() {
            answer.fail(RowError::BadArgument);
        }
        self.due = Some(due);
    }

    /// Does the run that the last line asked for.
    pub fn run_due<T: Threads + Wait + AllocGlobal + Copy + Send + 'static>(
        &mut self,
        rt: T,
        alloc: Global,
        answer: &mut Text,
    ) {
        if let Some(due) = self.due.take() {
            let stand = self.stand(alloc, answer);
            let mut out = self.sink(alloc, answer);
            if self.is_whole(answer) {
                let ran = match due {
                    DueRun::Run(limit) => call(
                        rt,
                        alloc,
                        &self.words,
                        stand,
                        &mut out,
                        Some(limit),
                    ),
                    DueRun::Zre => call(rt, alloc, &self.words, stand, &mut out, None),
                };
                push_outcome(answer, out.written(), ran.status);
                self.note(ran);
            }
        }
    }
}

fn copy_of(alloc: Global, text: &Text, answer: &mut Text) -> Octets {
    text.is_whole(answer);
    match Octets::copy(alloc, text.as_slice()) {
        Ok(copied) => copied,
        Err(OutOfMemory) => {
            answer.fail(RowError::OutOfMemory);
            Octets::new(alloc)
        }
    }
}

// Appends a text of lines. One that doesn't end with a line feed is told by a line of its own.
fn push_ended(out: &mut Text, text: &[u8]) {
    out.put(text);
    if !text.is_empty() && !text.ends_with(b"\n") {
        out.put(b"\nno line feed\n");
    }
}

fn name_of(status: Status) -> &'static [u8] {
    match status {
        Status::Done => b"Done",
        Status::Usage => b"Usage",
        Status::BadInput => b"BadInput",
        Status::ReadFault => b"ReadFault",
        Status::WriteFault => b"WriteFault",
        Status::WorldFault => b"WorldFault",
        Status::NoThread => b"NoThread",
        Status::TooLong => b"TooLong",
        Status::OutOfMemory => b"OutOfMemory",
        Status::DeskFault => b"DeskFault",
    }
}

// What was written, and `status NUMBER NAME`.
fn push_outcome(out: &mut Text, written: &[u8], status: Status) {
    push_ended(out, written);
    out.count(b"status", u64::from(status.code()));
    out.octet(b' ');
    out.line(name_of(status));
}

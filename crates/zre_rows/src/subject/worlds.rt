//! The worlds in memory: scripts that are played.

use crate::error::RowError;
use crate::journal::script_of;
use crate::subject::{Subject, steps};
use crate::text::Text;
use crate::words::Words;
use std::alloc::Global;
use std::mem;
use zre_outside::{Act, Command, NextFault, ScriptWorld, SureWorld, Turn, World};
use zre_values::take_apart;

/// `on world NUMBER NUMBER ..`: a script, and the two worlds that play it from its first turn that is asked for. The
/// numbers are those of the turns that fail in the world with a list.
pub struct WorldSubject {
    script: Text,
    fails: Vec<u64>,
    played: Option<Played>,
}

impl Drop for WorldSubject {
    fn drop(self) {
        take_apart!(self, WorldSubject: script, fails, played);
    }
}

struct Played {
    first: ScriptWorld,
    sure: SureWorld,
}

impl Drop for Played {
    fn drop(self) {
        take_apart!(self, Played: first, sure);
    }
}

impl Subject for WorldSubject {
    fn step(&mut self, words: &mut Words<'_>, answer: &mut Text) {
        steps!(self, words, answer; turn, look, next, quit)
    }
}

impl WorldSubject {
    pub fn make(words: &mut Words<'_>) -> Self {
        WorldSubject {
            script: Text::new(words.alloc()),
            fails: words.numbers(),
            played: None,
        }
    }

    // `turn ENTRY` and `look` make the script.
    fn turn(&mut self, words: &mut Words<'_>, _answer: &mut Text) {
        self.script.line(words.take_rest());
    }

    fn look(&mut self, _words: &mut Words<'_>, _answer: &mut Text) {
        self.script.line(b"look");
    }

    // `next` asks both worlds for a turn.
    fn next(&mut self, words: &mut Words<'_>, answer: &mut Text) {
        self.ask(words.alloc(), false, answer);
    }

    // `quit` too: where that is a look, a quit is handed in, and after it both are told an act and an offer.
    fn quit(&mut self, words: &mut Words<'_>, answer: &mut Text) {
        self.ask(words.alloc(), true, answer);
    }

    fn ask(&mut self, alloc: Global, quits: bool, answer: &mut Text) {
        self.begin(alloc, answer);
        if let Some(played) = &mut self.played {
            push_turn(&mut played.first, quits, answer);
            push_turn(&mut played.sure, quits, answer);
        }
    }

    fn begin(&mut self, alloc: Global, answer: &mut Text) {
        if self.played.is_none() && self.script.is_whole(answer) {
            let first = script_of(alloc, self.script.as_slice(), answer);
            let second = script_of(alloc, self.script.as_slice(), answer);
            if !answer.has_fault() {
                let fails = mem::replace(&mut self.fails, Vec::new(alloc));
                self.played = Some(Played {
                    first: ScriptWorld::new(alloc, first, Vec::new(alloc), fails),
                    sure: SureWorld::new(alloc, second),
                });
            }
        }
    }
}

// A turn, or two where a quit is handed in after a look.
fn push_turn<W: World>(world: &mut W, quits: bool, answer: &mut Text) {
    match world.next(None) {
        Ok(Turn::Look) if quits => {
            push_told(world.next(Some(Command::Quit)), answer);
            answer.note(world.act(&Act::Offer { link: 1 }));
            answer.note(world.offer(1, b"octets"));
        }
        turn => push_told(turn, answer),
    }
}

// The line of an entry, `look` or `failed`.
fn push_told(turn: Result<Turn, NextFault>, answer: &mut Text) {
    match turn {
        Ok(Turn::Entry(entry)) => answer.entry(&entry),
        Ok(Turn::Look) => answer.line(b"look"),
        Err(NextFault::Failed) => answer.line(b"failed"),
        Err(NextFault::OutOfMemory) => answer.fail(RowError::OutOfMemory),
    }
}

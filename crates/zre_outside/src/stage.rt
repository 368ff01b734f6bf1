//! A script as it is played.

ghost use Rattle.std.specs.Prelude.{◌≡◌, drop, false, true, [], None, Some, OnOk, OnErr, IfOk};
ghost use Rattle.zre_outside.specs.declared.deed.Deed.{Deed as DeedValue};
ghost use Rattle.zre_outside.specs.Worlds.{with_start, after_turn, with_deed};
ghost use Rattle.zre_outside.specs.declared.turn.Turn.TheVariants as turns;
ghost use Rattle.zre_outside.specs.Scripts.{Scene, first_scene, turn_of, at_look, seen, Plays};

use crate::{Act, Command, Deed, Entry, Input, Script, Start, Turn};
use std::alloc::Global;
use std::collections::VecDeque;
use std::marker::Model;
use zre_values::{Octets, OutOfMemory, take_apart};

/// What is left of a script, and what was seen of it.
pub(crate) struct Stage {
    alloc: Global,
    left: VecDeque<Turn>,
    reading: u64,
    pub(crate) looked: bool,
    begun: Option<Start>,
    given: Vec<Entry>,
    looks: u64,
    handed: Vec<Command>,
    done: Vec<Deed>,
}

impl Drop for Stage {
    fn drop(self) {
        take_apart!(self, Stage: alloc, left, reading, looked, begun, given, looks, handed, done);
    }
}

impl Model for Stage {
    ghost Value = { Scene };

    ghost view = { λ s. record {
      left = s.left.items;
      reading = s.reading;
      looked = s.looked;
      told = record {
        begun = s.begun;
        given = s.given.items;
        looks = s.looks;
        handed = s.handed.items;
        done = s.done.items;
      };
    } };
}

impl Stage {
    pub(crate) fn new(alloc: Global, script: Script) -> Self
        ensures { result ≡ first_scene script }
    {
        Stage {
            alloc,
            left: VecDeque::from(script.into_vec()),
            reading: 0,
            looked: false,
            begun: None,
            given: Vec::new(alloc),
            looks: 0,
            handed: Vec::new(alloc),
            done: Vec::new(alloc),
        }
    }

    pub(crate) fn start(&mut self, s: &Start) -> Result<(), OutOfMemory>
        ensures ok { OnOk result (self.new ≡ seen (with_start s.now) self.old) }
        ensures err { OnErr result (self.new ≡ self.old) }
    {
        self.begun = Some(s.copy(self.alloc)?);
        Ok(())
    }

    pub(crate) fn next(&mut self, command: Option<Command>) -> Result<Turn, OutOfMemory>
        ensures ok { IfOk result (λ t. Plays command t self.old self.new) }
        ensures err { OnErr result (self.new ≡ self.old) }
    {
        match command {
            Some(command) => self.answer(command),
            None => self.go_on(),
        }
    }

    /// Whether the next turn is a look.
    pub(crate) fn is_at_look(&self, command: &Option<Command>) -> bool
        ensures { result ≡ at_look self.now.left command.now }
    {
        match command {
            Some(_) => false,
            None => matches!(self.left.front(), Some(Turn::Look)),
        }
    }

    // Lists a command as handed in, and the entry to do it as given, or neither.
    fn hand(&mut self, command: &Command) -> Result<(), OutOfMemory>
        ensures ok { OnOk result (self.new ≡ seen (after_turn (Some command.now)
            (turn_of [] self.old.reading (Some command.now))) self.old) }
        ensures err { OnErr result (self.new ≡ self.old) }
    {
        self.handed.reserve(1)?;
        self.given.reserve(1)?;
        let handed = command.copy(self.alloc)?;
        let Ok(given) = command.copy(self.alloc) else {
            drop(handed);
            return Err(OutOfMemory);
        };
        self.handed.push_reserved(handed);
        self.given.push_reserved(Entry {
            at: self.reading,
            input: Input::Do(given),
        });
        Ok(())
    }

    // The first item that is left, if one is, is left no more.
    fn skip(&mut self)
        ensures { self.new ≡ record self.old { left = drop 1 self.old.left } }
    {
        drop(self.left.pop_front());
    }

    // A command is done in place of a look.
    fn answer(&mut self, command: Command) -> Result<Turn, OutOfMemory>
        ensures ok { IfOk result (λ t. Plays (Some command) t self.old self.new) }
        ensures err { OnErr result (self.new ≡ self.old) }
    {
        let Ok(()) = self.hand(&command) else {
            drop(command);
            return Err(OutOfMemory);
        };
        self.skip();
        self.looked = false;
        Ok(Turn::Entry(Entry {
            at: self.reading,
            input: Input::Do(command),
        }))
    }

    // A look is answered.
    fn look(&mut self) -> Result<Turn, OutOfMemory>
        ensures ok { IfOk result (λ t. (t ≡ turns.Look)
            × (self.new ≡ record self.old { looked = true; told = after_turn None t self.old.told })) }
        ensures err { OnErr result (self.new ≡ self.old) }
    {
        self.looks = self.looks.checked_add(1).ok_or(OutOfMemory)?;
        self.looked = true;
        Ok(Turn::Look)
    }

    // End is given.
    fn end(&mut self) -> Result<Turn, OutOfMemory>
        ensures ok { IfOk result (λ t. (t ≡ turn_of [] self.old.reading None)
            × (self.new ≡ record self.old { looked = false; told = after_turn None t self.old.told })) }
        ensures err { OnErr result (self.new ≡ self.old) }
    {
        let at = self.reading;
        self.given.push(Entry {
            at,
            input: Input::End,
        })?;
        self.looked = false;
        Ok(Turn::Entry(Entry {
            at,
            input: Input::End,
        }))
    }

    // The next item of the script, or End after it.
    fn go_on(&mut self) -> Result<Turn, OutOfMemory>
        ensures ok { IfOk result (λ t. Plays None t self.old self.new) }
        ensures err { OnErr result (self.new ≡ self.old) }
    {
        match self.left.front() {
            Some(Turn::Look) => self.look(),
            Some(Turn::Entry(entry)) => {
                let at = entry.at;
                self.given.push(entry.copy(self.alloc)?)?;
                self.reading = at;
                self.looked = false;
                Ok(self.left.pop_front().unwrap())
            }
            None => self.end(),
        }
    }

    pub(crate) fn act(&mut self, act: &Act) -> Result<(), OutOfMemory>
        ensures ok { OnOk result (self.new ≡ seen (with_deed (DeedValue.Done act.now)) self.old) }
        ensures err { OnErr result (self.new ≡ self.old) }
    {
        self.done.push(Deed::Done(act.copy(self.alloc)?))?;
        Ok(())
    }

    pub(crate) fn offer(&mut self, link: u64, bytes: &[u8]) -> Result<(), OutOfMemory>
        ensures ok { OnOk result (self.new ≡ seen (with_deed (DeedValue.Offered link bytes.now)) self.old) }
        ensures err { OnErr result (self.new ≡ self.old) }
    {
        self.done.push(Deed::Offered {
            link,
            bytes: Octets::copy(self.alloc, bytes)?,
        })?;
        Ok(())
    }
}

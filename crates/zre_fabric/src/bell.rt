//! The bell that the readers of users' input ring, so that what was typed is looked for at once.

ghost use Rattle.std.specs.Prelude.{◌≡◌, ◌≤◌, ◌<◌, is_none};

use crate::notifier::Notifier;
use mio::net::UnixStream;
use std::alloc::Global;
use std::io::{self, Read, Write};
use std::net::Net;
use std::os::unix::net::UnixStream as Line;
use std::time::Duration;
use zre_outside::{Failed, Source};

/// As many octets as one read of a ringing source asks for. The commands of so many octets fit into the pipe, so that
/// a reader of much input waits for the pipe to be empty and doesn't try again and again.
const PIECE: usize = 8192;

/// After so many octets the source waits until the world found no more commands.
const CROWD: usize = 4096;

/// The milliseconds that such a wait takes at most. A world that has ended answers nothing.
const PATIENCE: u64 = 50;

// What is sent to the world: to look for commands, or to say besides when there are no more.
const LOOK: u8 = b'l';

const EMPTY: u8 = b'e';

/// What rings the bell of a world. Several sources may share it. A silent one rings nothing.
pub type Ringer = Notifier<Line>;

impl Ringer {
    ghost use Rattle.zre_fabric.specs.Notifiers.{is_silent};

    /// A bell, and what rings it. Where the system has none to give, it rings nothing.
    pub fn with_bell<R: Net>(rt: &R, alloc: Global) -> (Self, Option<Bell>)
        ensures { is_silent result.0 ≡ is_none result.1 }
    {
        let Ok((line, bell)) = pair(rt) else {
            return (Notifier::silent(), None);
        };
        let ringer = Notifier::over(alloc, line);
        if ringer.line().is_none() {
            drop(bell);
            return (ringer, None);
        }
        (ringer, Some(bell))
    }
}

/// A source that rings the bell of a world. A ring comes before a read, after the octets of the read before it were
/// made commands.
#[derive(Drop)]
pub struct Ringing<S> {
    inner: S,
    ringer: Ringer,
    // The octets since the last ring, and those since the last wait.
    given: usize,
    unasked: usize,
}

impl<S> Ringing<S> {
    ghost use Rattle.zre_fabric.specs.Bells.{source_under};

    /// A source that reads what this one gives.
    pub fn new(inner: S, ringer: Ringer) -> Self
        ensures { source_under result ≡ inner }
    {
        Ringing {
            inner,
            ringer,
            given: 0,
            unasked: 0,
        }
    }

    /// What it reads from.
    pub fn inner(&self) -> &S
        ensures { result.now ≡ source_under self.now }
    {
        &self.inner
    }

    // How many octets the next read asks for, where there is room for so many.
    fn room(&self, len: usize) -> usize
        requires { 0 < len }
        ensures some { 0 < result }
        ensures most { result ≤ len }
    {
        if self.ringer.line().is_some() {
            len.min(PIECE)
        } else {
            len
        }
    }

    // Nothing that is wrong with the bell is told, since commands are looked for without it, too.
    fn ring(&mut self)
        ensures { source_under self.new ≡ source_under self.old }
    {
        let Some(line) = self.ringer.line() else {
            return;
        };
        if self.given == 0 {
            return;
        }
        self.unasked = self.unasked.saturating_add(self.given);
        self.given = 0;
        if self.unasked >= CROWD {
            self.unasked = 0;
            ask(line);
        } else {
            say(line, LOOK);
        }
    }
}

// Whether it was said.
fn say(mut line: &Line, word: u8) -> bool {
    line.write(&[word]).is_ok()
}

// Waits until the world found no more commands. Each that asks takes one answer.
fn ask(mut line: &Line) {
    if say(line, EMPTY) {
        let mut answer = [0u8; 1];
        let _ = line.read(&mut answer);
    }
}

impl<S: Source> Source for Ringing<S> {
    ghost left = { λ s. S.left s.inner };

    ghost taken = { λ s. S.taken s.inner };

    ghost faults = { λ s. S.faults s.inner };

    ghost refused = { λ s. S.refused s.inner };

    /// Reads what the source under it gives, after a ring where the last read gave some. One that rings reads 8,192
    /// octets at most.
    fn read(&mut self, buf: &mut [u8]) -> Result<usize, Failed> {
        self.ring();
        let room = self.room(buf.len());
        let read = self.inner.read(&mut buf[..room])?;
        self.given = read;
        Ok(read)
    }
}

/// A world's end of the bell.
#[derive(Drop)]
pub struct Bell {
    pub(crate) stream: UnixStream,
    // How many wait for an answer.
    asking: usize,
}

impl Bell {
    /// The poll told of it.
    pub(crate) fn hear(&mut self) {
        let mut words = [0u8; 64];
        if let Ok(count) = self.stream.read(&mut words) {
            for word in &words[..count] {
                if *word == EMPTY {
                    self.asking = self.asking.saturating_add(1);
                }
            }
        }
    }

    /// No command was found.
    pub(crate) fn found_none(&mut self)
        ensures { self.new.asking ≡ 0 }
    {
        let answers = [EMPTY; 16];
        let count = self.asking.min(answers.len());
        if count > 0 {
            self.asking = 0;
            let _ = self.stream.write(&answers[..count]);
        }
    }
}

fn pair<R: Net>(rt: &R) -> io::Result<(Line, Bell)> {
    let (line, far) = Line::pair(rt)?;
    if let Err(error) = prepare(&line, &far) {
        drop(line);
        drop(far);
        return Err(error);
    }
    let bell = Bell {
        stream: UnixStream::from_std(far),
        asking: 0,
    };
    Ok((line, bell))
}

// The far end doesn't wait, and the line waits no longer than the patience.
fn prepare(line: &Line, far: &Line) -> io::Result<()> {
    far.set_nonblocking(true)?;
    let patience = Some(Duration::from_millis(PATIENCE));
    line.set_read_timeout(patience)?;
    line.set_write_timeout(patience)
}

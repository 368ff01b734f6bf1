//! What stands for a terminal: a source that holds its last octets back until signs were given, and a sink that gives
//! one.

use std::alloc::Global;
use std::sync::Arc;
use std::sync::atomic::{AtomicBool, Ordering};
use std::thread::yield_now;
use zre_outside::{Failed, MemSink, MemSource, NextFault, Script, ScriptWorld, Sink, Source, Turn};
use zre_values::{Frames, Octets, OutOfMemory};

/// A line that is refused, since nobody has that identity.
pub const WHISPER: &[u8] = b"whisper 44444444444444444444444444444444 x\n";

/// What a node tells last.
pub const STOP: &[u8] = b"STOP\n";

/// The words of a node.
const NODE: &[&[u8]] = &[
    b"id=ffeeddccbbaa99887766554433221100",
    b"host=10.0.0.1",
    b"port=49153",
    b"to=10.0.0.9",
];

/// What one thread gives and others look for.
pub type Sign = Arc<AtomicBool, Global>;

/// So often a source looks for its signs before it gives up.
const LOOKS: u64 = 200000000;

/// A sign that isn't given.
pub fn sign_of(alloc: Global) -> Result<Sign, OutOfMemory> {
    Ok(Arc::new(alloc, AtomicBool::new(false))?)
}

/// The words of a command.
pub fn words_of(alloc: Global, words: &[&[u8]]) -> Result<Frames, OutOfMemory> {
    let mut list = Frames::new(alloc);
    for word in words {
        list.push(Octets::copy(alloc, word)?)?;
    }
    Ok(list)
}

/// The words of a node's command: its name and others, and then those that each node has.
pub fn node_words(alloc: Global, words: &[&[u8]]) -> Result<Frames, OutOfMemory> {
    let mut list = words_of(alloc, words)?;
    for word in NODE {
        list.push(Octets::copy(alloc, word)?)?;
    }
    Ok(list)
}

/// A source in memory, of which the reads with these numbers fail.
pub fn source_of(alloc: Global, text: &[u8], fails: &[u64]) -> Result<MemSource, OutOfMemory> {
    Ok(MemSource::new(Octets::copy(alloc, text)?, Vec::from_slice(alloc, fails)?))
}

/// A world by a script, and after it so many looks for a command, of which the turns with these numbers fail.
pub fn world_of(
    alloc: Global,
    mut script: Script,
    looks: u64,
    fails: &[u64],
) -> Result<ScriptWorld, OutOfMemory> {
    for _ in 0..looks {
        script.push(Turn::Look)?;
    }
    let fails = Vec::from_slice(alloc, fails)?;
    Ok(ScriptWorld::new(alloc, script, Vec::new(alloc), fails))
}

/// Octets, and after them others that are held back until all signs were given.
#[derive(Drop)]
pub struct Patient {
    front: MemSource,
    back: MemSource,
    signs: Vec<Sign>,
    faults: u64,
}

impl Patient {
    /// A source that waits for no sign yet.
    pub fn new(alloc: Global, front: &[u8], back: &[u8]) -> Result<Self, OutOfMemory> {
        Ok(Patient {
            front: source_of(alloc, front, &[])?,
            back: source_of(alloc, back, &[])?,
            signs: Vec::new(alloc),
            faults: 0,
        })
    }

    /// It waits for this sign, too.
    pub fn wait_for(&mut self, sign: &Sign) -> Result<(), OutOfMemory> {
        self.signs.push(Arc::try_clone(sign)?)?;
        Ok(())
    }

    /// How often it failed.
    pub fn faults(&self) -> u64 {
        self.faults
    }

    fn has_all_signs(&self) -> bool {
        for sign in self.signs.as_slice() {
            if !sign.load(Ordering::SeqCst) {
                return false;
            }
        }
        true
    }

    fn waits(&self) -> bool {
        for _ in 0..LOOKS {
            if self.has_all_signs() {
                return true;
            }
            yield_now();
        }
        false
    }
}

impl Source for Patient {
    ghost use Rattle.std.specs.Prelude.{None};

    ghost left = { λ _. None };

    ghost taken = { λ _. None };

    ghost faults = { λ s. s.faults };

    fn read(&mut self, buf: &mut [u8]) -> Result<usize, Failed> {
        if let Ok(n) = self.front.read(buf) {
            if n > 0 {
                return Ok(n);
            }
        }
        if self.waits() {
            if let Ok(n) = self.back.read(buf) {
                return Ok(n);
            }
        }
        self.faults = self.faults.saturating_add(1);
        Err(Failed)
    }
}

/// Gives a sign when what was written begins with a text.
#[derive(Drop)]
pub struct Showing {
    /// What was written.
    pub inner: MemSink,
    text: &'static [u8],
    sign: Sign,
}

impl Showing {
    pub fn new(alloc: Global, text: &'static [u8], sign: Sign) -> Self {
        let inner = MemSink::new(alloc, Vec::new(alloc));
        Showing { inner, text, sign }
    }
}

impl Sink for Showing {
    ghost use Rattle.std.specs.Prelude.{None};

    ghost written = { λ _. None };

    ghost faults = { λ s. s.inner.faults };

    fn write(&mut self, bytes: &[u8]) -> Result<usize, NextFault> {
        let n = self.inner.write(bytes)?;
        if self.inner.written().starts_with(self.text) {
            self.sign.store(true, Ordering::SeqCst);
        }
        Ok(n)
    }
}

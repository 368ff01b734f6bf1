//! The objects in memory that stand for the outside: where octets come from and go to, and where a capture is kept.

use crate::error::RowError;
use crate::subject::{Subject, steps};
use crate::text::Text;
use crate::words::Words;
use zre_outside::{
    MemRecorder, MemSink, MemSource, NextFault, Recorder, Sink, Source, SureRecorder, SureSink,
    SureSource, write_all,
};
use zre_values::{Octets, take_apart};

/// `on memory HEX NUMBER NUMBER ..`: one of each. The sources hold the octets, and the calls of those with a list fail
/// at its numbers.
pub struct MemorySubject {
    source: MemSource,
    sure_source: SureSource,
    sink: MemSink,
    sure_sink: SureSink,
    recorder: MemRecorder,
    sure_recorder: SureRecorder,
}

impl Drop for MemorySubject {
    fn drop(self) {
        take_apart!(self, MemorySubject: source, sure_source, sink, sure_sink, recorder, sure_recorder);
    }
}

// The octets, of which each source has its own.
fn octets_of(words: &Words<'_>) -> Octets {
    let mut words = *words;
    words.octets()
}

// The numbers after the octets.
fn fails_of(words: &Words<'_>) -> Vec<u64> {
    let mut words = *words;
    let _ = words.field();
    words.numbers()
}

impl Subject for MemorySubject {
    fn step(&mut self, words: &mut Words<'_>, answer: &mut Text) {
        steps!(self, words, answer; read, write, record, held)
    }
}

impl MemorySubject {
    pub fn make(words: &mut Words<'_>) -> Self {
        let alloc = words.alloc();
        let all = *words;
        drop(words.octets());
        MemorySubject {
            source: MemSource::new(octets_of(&all), words.numbers()),
            sure_source: SureSource::new(octets_of(&all)),
            sink: MemSink::new(alloc, fails_of(&all)),
            sure_sink: SureSink::new(alloc),
            recorder: MemRecorder::new(alloc, fails_of(&all), fails_of(&all)),
            sure_recorder: SureRecorder::new(alloc),
        }
    }

    // `read N` reads from both sources.
    fn read(&mut self, words: &mut Words<'_>, answer: &mut Text) {
        let size = (words.number().min(65536) as usize).max(1);
        match Vec::from_elem(words.alloc(), 0u8, size) {
            Ok(mut room) => self.read_into(&mut room, answer),
            Err(_) => answer.fail(RowError::OutOfMemory),
        }
    }

    fn read_into(&mut self, room: &mut Vec<u8>, answer: &mut Text) {
        push_read(&mut self.source, room, answer);
        push_read(&mut self.sure_source, room, answer);
    }

    // `write HEX` writes to both sinks, with an answer of that with a list and one of that without.
    fn write(&mut self, words: &mut Words<'_>, answer: &mut Text) {
        let octets = words.octets();
        push_outcome(write_all(&mut self.sink, octets.as_slice()), answer);
        push_outcome(write_all(&mut self.sure_sink, octets.as_slice()), answer);
    }

    // `record HEX` begins both recorders and puts.
    fn record(&mut self, words: &mut Words<'_>, answer: &mut Text) {
        let octets = words.octets();
        push_outcome(record(&mut self.recorder, octets.as_slice()), answer);
        push_outcome(record(&mut self.sure_recorder, octets.as_slice()), answer);
    }

    // `held` shows what the sinks and the recorders hold.
    fn held(&self, _words: &mut Words<'_>, answer: &mut Text) {
        answer.hex_line(self.sink.written());
        answer.hex_line(self.sure_sink.written());
        answer.hex_line(self.recorder.kept());
        answer.hex_line(self.sure_recorder.kept());
    }
}

// What was read, `-` at the end of input, or `failed`.
fn push_read<S: Source>(source: &mut S, room: &mut Vec<u8>, answer: &mut Text) {
    let buf = room.as_mut_slice();
    if buf.is_empty() {
        return;
    }
    match source.read(buf) {
        Ok(n) => answer.hex_line(&buf[..n]),
        Err(_) => answer.line(b"failed"),
    }
}

fn record<R: Recorder>(recorder: &mut R, bytes: &[u8]) -> Result<(), NextFault> {
    recorder.begin("capture")?;
    recorder.put(bytes)
}

fn push_outcome(outcome: Result<(), NextFault>, answer: &mut Text) {
    match outcome {
        Ok(()) => answer.line(b"done"),
        Err(NextFault::Failed) => answer.line(b"failed"),
        Err(NextFault::OutOfMemory) => answer.fail(RowError::OutOfMemory),
    }
}

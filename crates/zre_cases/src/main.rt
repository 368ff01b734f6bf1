//! Cases: many inputs of the commands but `chat` and `gate` in one run, for tests that would else start the program for
//! each. Standard input has the cases one after the other, standard output gets the answers in the same order.
//!
//! A case is one octet that says how many words there are, each word, one octet that says how many octets a read gives
//! at most (0: as many as fit), and the input. An answer is one octet, the exit status of the command, and its text.
//! Words, inputs and texts are four octets of length, the highest first, and so many octets.
//!
//! The exit status is 0; it is 1 where a case isn't whole or is of `chat` or `gate`, where standard input or output
//! fails, and where no memory is left.
#![tactic(auto)]

ghost use Rattle.std.specs.Prelude.{◌<◌, ◌≤◌, length, IfSome};

mod pieces;

use pieces::Pieces;
use std::alloc::Global;
use std::io::Read;
use std::process::ExitCode;
use zre_app::{LIMIT, is_chat, is_gate, plain};
use zre_outside::{Sink, StdSink, SureSink, write_gathered, write_much};
use zre_values::{Frames, Octets};

// A command, and what it reads.
#[derive(Drop)]
struct Case<'a> {
    words: Frames,
    most: u8,
    input: &'a [u8],
    rest: &'a [u8],
}

// The octets that follow their length, and those after them. None where they aren't all there.
fn sized(octets: &[u8]) -> Option<(&[u8], &[u8])>
    ensures { IfSome result (λ found. length found.1.now < length octets.now) }
{
    let (size, rest) = octets.split_at_checked(4)?;
    let size = u32::from_be_bytes([size[0], size[1], size[2], size[3]]);
    rest.split_at_checked(size as usize)
}

fn words_in(alloc: Global, count: u8, octets: &[u8]) -> Option<(Frames, &[u8])>
    ensures { IfSome result (λ found. length found.1.now ≤ length octets.now) }
{
    let mut words = Frames::new(alloc);
    let mut rest = octets;
    for _ in 0..count {
        let (word, later) = sized(rest)?;
        words.push(Octets::copy(alloc, word).ok()?).ok()?;
        rest = later;
    }
    Some((words, rest))
}

// The first case, and the octets after it. None where it isn't whole.
fn first_case(alloc: Global, octets: &[u8]) -> Option<Case<'_>>
    ensures { IfSome result (λ case. length case.rest.now < length octets.now) }
{
    let (count, rest) = octets.split_first()?;
    let (words, rest) = words_in(alloc, *count, rest)?;
    let (most, rest) = rest.split_first()?;
    let (input, rest) = sized(rest)?;
    Some(Case {
        words,
        most: *most,
        input,
        rest,
    })
}

// Appends the answer to a case. None where it can't be given.
fn answer(alloc: Global, case: &Case<'_>, answers: &mut Octets) -> Option<()> {
    if is_chat(&case.words) || is_gate(&case.words) {
        return None;
    }
    let input = Pieces::new(Octets::copy(alloc, case.input).ok()?, case.most);
    let mut out = SureSink::new(alloc);
    let status = plain(alloc, &case.words, input, &mut out, LIMIT).status;
    let size = u32::try_from(out.written().len()).ok()?;
    answers.push(status.code()).ok()?;
    answers.append(&size.to_be_bytes()).ok()?;
    answers.append(out.written()).ok()
}

// Writes the answers to all cases.
fn answer_all<O: Sink>(alloc: Global, cases: &[u8], out: &mut O) -> Option<()> {
    let mut answers = Octets::new(alloc);
    let mut rest = cases;
    while !rest.is_empty() {
        let case = first_case(alloc, rest)?;
        answer(alloc, &case, &mut answers)?;
        write_much(&mut answers, out).ok()?;
        rest = case.rest;
    }
    write_gathered(&mut answers, out).ok()
}

fn main(rt: HostRuntime) -> ExitCode {
    let mut cases = Vec::new(rt.alloc());
    let mut out = StdSink::new(rt.stdout());
    let is_read = rt.stdin().read_to_end(&mut cases).is_ok();
    if is_read && answer_all(rt.alloc(), cases.as_slice(), &mut out).is_some() {
        ExitCode::from(0)
    } else {
        ExitCode::from(1)
    }
}

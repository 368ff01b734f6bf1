//! What a row is about.

pub mod captures;
pub mod command;
pub mod exercises;
pub mod memory;
pub mod nodes;
pub mod worlds;

use crate::case_file::CaseFile;
use crate::error::RowError;
use crate::section::CaseLine;
use crate::text::Text;
use crate::words::Words;

/// The subject of a section. What is wrong with a step is a fault of the answer, or of the words: an argument that is
/// missing or isn't of its kind fails the row, whatever the step did, and so does one that is left.
pub trait Subject: Drop {
    /// Does one step: it takes its arguments, and appends the lines that it answers, each with its line feed.
    fn step(&mut self, words: &mut Words<'_>, answer: &mut Text);
}

/// No line has named one yet, or its arguments were bad.
#[derive(Drop)]
pub struct MissingSubject;

impl Subject for MissingSubject {
    fn step(&mut self, _words: &mut Words<'_>, answer: &mut Text) {
        answer.fail(RowError::UnknownKey);
    }
}

/// Does the step whose key is the name of one of these methods.
macro_rules! steps {
    ($subject:expr, $words:ident, $answer:ident; $($key:ident),+) => {{
        $(if $words.is(stringify!($key)) {
            return $subject.$key($words, $answer);
        })+
        $answer.fail($crate::error::RowError::UnknownKey)
    }};
}

pub(crate) use steps;

fn step<S: Subject>(page: &mut CaseFile, subject: &mut S, words: Words<'_>) {
    let text = page.expanded(words.rest());
    if text.is_whole(&mut page.row.answer) {
        let mut words = words.with_rest(text.as_slice());
        subject.step(&mut words, &mut page.row.answer);
        page.end(&words);
    }
}

// `repeat FROM TO KEY ARGUMENTS`: the step once for each number. What all of them answer is the answer.
fn repeat<S: Subject>(page: &mut CaseFile, subject: &mut S, mut words: Words<'_>) {
    let from = words.number();
    let to = words.number();
    if words.are_good(&mut page.row.answer) {
        let repeated = Words::of_line(page.alloc, words.rest());
        for n in from..=to {
            page.count(n);
            step(page, subject, repeated);
        }
    }
}

/// Does what a line says, but for what it answers.
pub fn take_line<S: Subject>(page: &mut CaseFile, subject: &mut S, line: CaseLine<'_>) {
    if page.take(line) {
        let words = Words::of_line(page.alloc, line.text);
        if words.is("repeat") {
            repeat(page, subject, words);
        } else {
            step(page, subject, words);
        }
    }
}

/// Takes lines up to the next section.
pub fn take_lines<S: Subject>(page: &mut CaseFile, subject: &mut S, lines: &[CaseLine<'_>]) {
    for line in lines {
        if line.is_head {
            return;
        }
        take_line(page, subject, *line);
        page.settle_line(line.place);
    }
}

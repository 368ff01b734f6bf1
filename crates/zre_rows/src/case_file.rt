//! The lines of a case file that ask nothing of a row's subject: names, rows, and what is to be answered.

use crate::error::RowError;
use crate::names::Names;
use crate::report::{Place, Report};
use crate::row::Row;
use crate::section::CaseLine;
use crate::text::Text;
use crate::words::Words;
use std::alloc::Global;
use std::mem;
use zre_values::{Octets, Pairs};

/// The file under way: its names, and its row. The report is one of all files, and so are the texts of the files that
/// they include, by their names.
#[derive(Drop)]
pub struct CaseFile {
    pub alloc: Global,
    included: Pairs,
    names: Names,
    pub row: Row,
    pub report: Report,
}

fn text_of<'a>(included: &'a Pairs, file: &[u8]) -> Option<&'a [u8]> {
    for (known, text) in included.as_slice() {
        if known.as_slice() == file {
            return Some(text.as_slice());
        }
    }
    None
}

impl CaseFile {
    pub fn new(alloc: Global) -> Self {
        CaseFile {
            alloc,
            included: Pairs::new(alloc),
            names: Names::new(alloc),
            row: Row::new(alloc),
            report: Report::new(alloc),
        }
    }

    /// The report of all files, with its last line.
    pub fn into_report(self) -> Report {
        let CaseFile { mut report, .. } = self;
        report.close();
        report
    }

    /// Begins a file.
    pub fn begin(&mut self) {
        drop(mem::replace(&mut self.names, Names::new(self.alloc)));
        self.row.clear();
    }

    /// Whether the text of a file is there to be included.
    pub fn has_included(&self, file: &[u8]) -> bool {
        text_of(&self.included, file).is_some()
    }

    /// Keeps the text of a file, to be included. Where memory doesn't suffice the file is unknown at its line.
    pub fn keep_included(&mut self, file: &[u8], text: &[u8]) {
        let _ = self.included.push_copy(self.alloc, file, text);
    }

    /// The text with its names replaced.
    pub fn expanded(&self, text: &[u8]) -> Text {
        let mut out = Text::new(self.alloc);
        self.names.expand(text, &mut out);
        out
    }

    /// The count of a repetition.
    pub fn count(&mut self, n: u64) {
        self.names.count = n;
    }

    /// Arguments that aren't good, or of which some are left, are a fault of the line.
    pub fn end(&mut self, words: &Words<'_>) {
        words.end(&mut self.row.answer);
    }

    // `let NAME TEXT`
    fn define(&mut self, mut words: Words<'_>) {
        let name = words.plain();
        let text = self
            .expanded(words.rest())
            .into_octets(&mut self.row.answer);
        if words.are_good(&mut self.row.answer) {
            self.names.define(name, text, &mut self.row.answer);
        }
    }

    // `series NAME FROM TO TEXT`: the text once for each number from FROM to TO.
    fn define_series(&mut self, mut words: Words<'_>) {
        let name = words.plain();
        let from = words.number();
        let to = words.number();
        if words.are_good(&mut self.row.answer) {
            let text = self.series(from, to, words.rest());
            self.names.define(name, text, &mut self.row.answer);
        }
    }

    fn series(&mut self, from: u64, to: u64, text: &[u8]) -> Octets {
        let mut out = Text::new(self.alloc);
        for n in from..=to {
            self.names.count = n;
            self.names.expand(text, &mut out);
        }
        out.into_octets(&mut self.row.answer)
    }

    // `let NAME TEXT` or `series NAME FROM TO TEXT`, if it is one of them.
    fn take_name(&mut self, words: Words<'_>) -> bool {
        if words.is("let") {
            self.define(words);
            true
        } else if words.is("series") {
            self.define_series(words);
            true
        } else {
            false
        }
    }

    // `include FILE`: the lines of that file name texts. It includes no other file, and so not itself.
    fn include(&mut self, file: &[u8]) {
        let included = mem::replace(&mut self.included, Pairs::new(self.alloc));
        match text_of(&included, file) {
            Some(text) => self.take_names(text),
            None => self.row.answer.fail(RowError::UnknownFile),
        }
        drop(mem::replace(&mut self.included, included));
    }

    fn take_names(&mut self, text: &[u8]) {
        for line in text.split(|octet| *octet == b'\n') {
            let is_line = !line.is_empty() && !line.starts_with(b"#");
            if is_line && !self.take_name(Words::of_line(self.alloc, line)) {
                self.row.answer.fail(RowError::UnknownKey);
            }
        }
    }

    // `= TEXT`
    fn expect(&mut self, text: &[u8]) {
        let line = self.expanded(text);
        if line.is_whole(&mut self.row.answer) {
            self.row.expect(line.as_slice());
        }
    }

    // `=* FROM TO TEXT`: the line once for each number.
    fn expect_series(&mut self, mut words: Words<'_>) {
        let from = words.number();
        let to = words.number();
        if words.are_good(&mut self.row.answer) {
            for n in from..=to {
                self.names.count = n;
                self.expect(words.rest());
            }
        }
    }

    /// What is wrong at a place fails the row.
    pub fn fail(&mut self, place: Place<'_>, what: &[u8]) {
        self.row.has_failed = true;
        self.report.tell(place, what);
    }

    // Compares what the last step answered with what it is to answer.
    fn settle_step(&mut self, file: &[u8]) {
        if !self.row.is_answered() {
            self.row.has_failed = true;
            let line = self.row.line;
            self.report.tell(Place { file, line }, self.row.title());
            self.report
                .tell_answers(self.row.due.as_slice(), self.row.answer.as_slice());
        }
    }

    // Ends the row.
    fn settle_row(&mut self, file: &[u8]) {
        if self.row.is_row {
            self.report.count_row();
            if self.row.is_empty() {
                let line = self.row.line;
                self.fail(Place { file, line }, b"a row with no answers");
            }
        }
        if self.row.has_failed {
            self.report.count_failed();
        }
    }

    /// What is wrong with a line fails its row.
    pub fn settle_line(&mut self, place: Place<'_>) {
        if let Some(error) = self.row.take_fault() {
            self.fail(place, error.text());
        }
    }

    /// Takes a line, and tells whether the subject has to know it, too.
    pub fn take(&mut self, line: CaseLine<'_>) -> bool {
        let words = Words::of_line(self.alloc, line.text);
        if line.text.starts_with(b"= ") {
            self.expect(words.rest());
            false
        } else if line.text.starts_with(b"=* ") {
            self.expect_series(words);
            false
        } else {
            self.settle_step(line.place.file);
            self.take_step(line.place, words)
        }
    }

    fn take_step(&mut self, place: Place<'_>, words: Words<'_>) -> bool {
        if words.is("row") {
            self.settle_row(place.file);
            self.row.begin(place.line, words.rest());
            return true;
        }
        self.row.go_on(place.line);
        if words.is("include") {
            self.include(words.rest());
            return false;
        }
        !self.take_name(words)
    }

    /// Ends the file.
    pub fn close(&mut self, file: &[u8]) {
        self.settle_step(file);
        if !self.row.is_row {
            self.fail(Place { file, line: 0 }, b"a file with no row");
        }
        self.settle_row(file);
    }
}

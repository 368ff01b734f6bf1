//! What is printed: a line for each line of a case file that can't be done, and for each answer that differs, and the
//! counts.

use crate::text::Text;
use std::alloc::Global;
use zre_values::take_apart;

/// A line of a case file.
#[derive(Clone, Copy)]
pub struct Place<'a> {
    pub file: &'a [u8],
    pub line: u64,
}

/// The text so far, and how many rows there were and how many of them failed. What is wrong outside of a row counts
/// as failed, too.
pub struct Report {
    pub text: Text,
    rows: u64,
    failed: u64,
}

impl Drop for Report {
    fn drop(self) {
        take_apart!(self, Report: text, rows, failed);
    }
}

impl Report {
    pub fn new(alloc: Global) -> Self {
        Report {
            text: Text::new(alloc),
            rows: 0,
            failed: 0,
        }
    }

    /// Whether all is well: there were rows, and none of them failed.
    pub fn is_good(&self) -> bool {
        self.rows > 0 && self.failed == 0
    }

    /// Counts a row.
    pub fn count_row(&mut self) {
        self.rows = self.rows.saturating_add(1);
    }

    /// Counts a row that failed, or what is wrong outside of one.
    pub fn count_failed(&mut self) {
        self.failed = self.failed.saturating_add(1);
    }

    /// A line about a place.
    pub fn tell(&mut self, place: Place<'_>, what: &[u8]) {
        self.text.put(place.file);
        self.text.octet(b':');
        self.text.number(place.line);
        self.text.put(b": ");
        self.text.line(what);
    }

    /// What was due, and what was answered.
    pub fn tell_answers(&mut self, due: &[u8], answer: &[u8]) {
        self.text.put(b"is to answer\n");
        self.text.put(due);
        self.text.put(b"answers\n");
        self.text.put(answer);
    }

    /// The last line.
    pub fn close(&mut self) {
        self.text.number(self.rows);
        self.text.put(b" rows, ");
        self.text.number(self.failed);
        self.text.put(b" failed\n");
    }
}

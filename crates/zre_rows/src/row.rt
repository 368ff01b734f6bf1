//! The row that is under way, but for its subject.

use crate::error::RowError;
use crate::text::Text;
use std::alloc::Global;
use zre_values::take_apart;

/// A row: its title, the step that was done last with what it answered and what it is to answer, and how many lines
/// are to be answered so far.
pub struct Row {
    /// Not so before the first row of a file.
    pub is_row: bool,
    title: Text,
    pub line: u64,
    pub answer: Text,
    pub due: Text,
    answers: u64,
    pub has_failed: bool,
}

impl Drop for Row {
    fn drop(self) {
        take_apart!(self, Row: is_row, title, line, answer, due, answers, has_failed);
    }
}

impl Row {
    /// What stands before the first row.
    pub fn new(alloc: Global) -> Self {
        Row {
            is_row: false,
            title: Text::new(alloc),
            line: 0,
            answer: Text::new(alloc),
            due: Text::new(alloc),
            answers: 0,
            has_failed: false,
        }
    }

    /// Becomes what stands before the first row.
    pub fn clear(&mut self) {
        self.is_row = false;
        self.title.clear();
        self.answers = 0;
        self.has_failed = false;
        self.go_on(0);
    }

    /// Becomes the row with this title.
    pub fn begin(&mut self, line: u64, title: &[u8]) {
        self.clear();
        self.is_row = true;
        self.title.put(title);
        self.line = line;
    }

    /// A line that the last step is to answer.
    pub fn expect(&mut self, line: &[u8]) {
        self.answers = self.answers.saturating_add(1);
        self.due.line(line);
    }

    /// Forgets the last step.
    pub fn go_on(&mut self, line: u64) {
        self.line = line;
        self.answer.clear();
        self.due.clear();
    }

    /// Whether the last step answered what it is to answer.
    pub fn is_answered(&self) -> bool {
        self.answer.as_slice() == self.due.as_slice()
    }

    /// Whether no step is to answer anything.
    pub fn is_empty(&self) -> bool {
        self.answers == 0
    }

    /// What is wrong with the last line.
    pub fn take_fault(&mut self) -> Option<RowError> {
        let title = self.title.take_fault();
        let due = self.due.take_fault();
        self.answer.take_fault().or(due).or(title)
    }

    pub fn title(&self) -> &[u8] {
        if self.is_row {
            self.title.as_slice()
        } else {
            b"before the first row"
        }
    }
}

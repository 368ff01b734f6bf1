use crate::format::Format;

/// Where in a capture a reader is: at the beginning of a line.
#[derive(Clone, Copy)]
pub(crate) struct LineStart {
    pub format: Format,
    /// The number of the line, from 1.
    pub line: u64,
    /// The reading of the entry before it, 0 at first.
    pub before: u64,
}

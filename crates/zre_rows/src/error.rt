//! Why a line of a case file can't be done.

/// What is wrong with a line.
#[derive(Clone, Copy)]
pub enum RowError {
    /// The subject has no such step, or the line is of no kind.
    UnknownKey,
    /// No text has this name.
    UnknownName,
    /// No file has this name, or it can't be read.
    UnknownFile,
    /// An argument is missing, or isn't of its kind, or is one too many.
    BadArgument,
    OutOfMemory,
}

impl RowError {
    /// How it is printed.
    pub fn text(self) -> &'static [u8] {
        match self {
            RowError::UnknownKey => b"unknown key",
            RowError::UnknownName => b"unknown name",
            RowError::UnknownFile => b"unknown file",
            RowError::BadArgument => b"bad argument",
            RowError::OutOfMemory => b"out of memory",
        }
    }
}

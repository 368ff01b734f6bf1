//! The lines of a case file, and its sections.

use crate::report::Place;

/// A line that is neither empty nor a comment.
#[derive(Clone, Copy)]
pub struct CaseLine<'a> {
    pub place: Place<'a>,
    pub text: &'a [u8],
    /// Whether a section begins with it: it is `row TITLE` or `on NAME ARGUMENTS`.
    pub is_head: bool,
}

/// The first line of a section, and all lines after it. The section ends before the next first line.
#[derive(Clone, Copy)]
pub struct Section<'a> {
    pub head: CaseLine<'a>,
    pub lines: &'a [CaseLine<'a>],
}

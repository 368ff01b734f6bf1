//! The formats of captures.

ghost use Rattle.std.specs.Prelude.{◌≡◌, ◌≤◌};
ghost use Rattle.zre_capture.specs.Formats.{longest};

/// As many octets as a line of format 1 may have before its line feed.
pub const LINE_OCTETS: usize = 4194304;

/// The most octets of a line of format 2: where a line of format 1 begins with one digit at the least, it begins with
/// twenty-one octets at the most, a minus and twenty digits.
pub const LINE_OCTETS_2: usize = 4194324;

/// How a capture is written.
#[derive(Clone, Copy, Debug)]
pub enum Format {
    /// The head says no more than that it is a capture, and each line begins with its entry's reading of the clock.
    First,
    /// The head has the settings of the node, and each line begins with what its entry's reading differs by from the
    /// one before.
    Second,
}

impl Format {
    /// As many octets as a line may have before its line feed.
    pub(crate) fn longest(self) -> usize
        ensures longest { result ≡ longest self }
        ensures few { result ≤ 4194324 }
    {
        match self {
            Format::First => LINE_OCTETS,
            Format::Second => LINE_OCTETS_2,
        }
    }
}

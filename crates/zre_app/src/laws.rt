//! Laws of the commands. The functions do nothing: what they ensure is for proofs.

ghost use Rattle.zre_app.specs.Laws.{KeptIsReplayed};

/// What a chat wrote is what a replay without words of the capture that it kept writes. That holds where neither
/// writing nor keeping failed and memory didn't run out, and where no line of the capture is longer than a line that is
/// read.
pub fn kept_captures_are_replayed()
    ensures { KeptIsReplayed }
{}

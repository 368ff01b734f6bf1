ghost use Rattle.zre_capture.specs.Journal.{Waits};

use zre_capture::CaptureReader;

/// A reader that has refused nothing.
#[derive(Drop)]
pub(crate) struct WaitingReader {
    pub reader: CaptureReader,
    ghost waits: { Waits reader },
}

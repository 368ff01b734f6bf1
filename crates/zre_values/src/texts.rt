//! Numbers in texts.

ghost use Rattle.std.specs.Prelude.{◌≡◌, ◌++◌, decimal, OnOk, OnErr};

use crate::{Octets, OutOfMemory};
use itoa::Buffer;

/// Appends a number in decimal digits, or nothing.
pub fn push_decimal(out: &mut Octets, n: u64) -> Result<(), OutOfMemory>
    ensures ok { OnOk result (out.new ≡ out.old ++ decimal n) }
    ensures err { OnErr result (out.new ≡ out.old) }
{
    if n < 10 {
        return out.push(b'0' + n as u8);
    }
    let mut buffer = Buffer::new();
    out.append(buffer.format(n).as_bytes())
}

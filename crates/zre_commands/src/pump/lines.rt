ghost use Rattle.std.specs.Prelude.{◌≡◌, ◌++◌, OnOk};
ghost use Rattle.zre_commands.specs.pump.Lines.{bad_line, bad_line_at};

use zre_values::{Octets, OutOfMemory, push_decimal};

/// Appends the last line of an input that is refused at an octet. After an error a front of it may stand there.
pub fn push_bad_line(out: &mut Octets, place: u64) -> Result<(), OutOfMemory>
    ensures { OnOk result (out.new ≡ out.old ++ bad_line place) }
{
    out.append(b"BADINPUT ")?;
    push_decimal(out, place)?;
    out.push(b'\n')
}

/// The last line where an input of lines is bad: with a line and a column in it, each from 1.
pub fn push_bad_line_at(out: &mut Octets, line: u64, column: u64) -> Result<(), OutOfMemory>
    ensures { OnOk result (out.new ≡ out.old ++ bad_line_at line column) }
{
    out.append(b"BADINPUT ")?;
    push_decimal(out, line)?;
    out.push(b' ')?;
    push_decimal(out, column)?;
    out.push(b'\n')
}

ghost use Rattle.std.specs.Prelude.{◌≡◌, [], false};
ghost use Rattle.zre_commands.specs.show.Lister.{Fed};
ghost use Rattle.zre_commands.specs.show.Show.{show};

use crate::pump::{Going, Machine};
use crate::show::lines::push_lines;
use crate::stream::{going_after, push_end, read_piece};
use std::alloc::Global;
use zre_outside::{NextFault, Sink};
use zre_values::{Octets, OutOfMemory};
use zre_zmtp::{Items, Reader, ZmtpFault};

/// The machine of `show`: a whole stream, from the greeting on. It keeps the octets of an unfinished message, and the
/// items of the last piece.
#[derive(Drop)]
pub struct Lister {
    reader: Reader,
    fault: Option<ZmtpFault>,
    items: Items,
    alloc: Global,
}

impl Lister {
    /// Expects a greeting, of which no octet has come yet.
    pub fn new(alloc: Global) -> Self
        ensures fed { Fed result [] }
        // No octets have no text, and may go on.
        ensures going { show.is_stopped [] ≡ false }
    {
        Lister {
            reader: Reader::stream(alloc),
            fault: None,
            items: Items::new(alloc),
            alloc,
        }
    }
}

impl Machine for Lister {
    ghost fed = { Fed };

    ghost says = { λ _. show };

    fn begin(&self, _out: &mut Octets) -> Result<(), OutOfMemory> {
        Ok(())
    }

    fn feed(&mut self, piece: &[u8], out: &mut Octets) -> Result<Going, OutOfMemory> {
        if self.reader.spent() {
            return Ok(Going::Stop);
        }
        self.items.clear();
        let fault = read_piece(&mut self.reader, piece, &mut self.items)?;
        push_lines(self.alloc, out, self.items.as_slice())?;
        self.fault = fault;
        Ok(going_after(&self.fault, false))
    }

    fn finish<O: Sink>(&self, taken: u64, text: &mut Octets, _: &mut O) -> Result<bool, NextFault> {
        Ok(push_end(&self.reader, self.fault, taken, text)?)
    }
}

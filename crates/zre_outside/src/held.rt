ghost use Rattle.std.specs.Prelude.{◌≡◌, ◌<◌, ◌≤◌, length, min, take, Some, []};
ghost use Rattle.zre_outside.specs.Told.{MovesOn};

use zre_values::Octets;

/// Octets in memory that are given away from the front.
#[derive(Debug, Drop)]
pub(crate) struct Held {
    all: Octets,
    at: usize,
    ghost within: { at ≤ length all },
}

impl Held {
    ghost use Rattle.zre_outside.specs.Held.{reading_of};

    pub(crate) fn new(all: Octets) -> Self
        ensures { reading_of result ≡ record { left = all; taken = [] } }
    {
        Held { all, at: 0 }
    }

    /// Copies as many octets as there are and as fit into the front of `buf`.
    pub(crate) fn give(&mut self, buf: &mut [u8]) -> usize
        ensures most { result ≡ min (length (reading_of self.old).left) (length buf.old) }
        ensures moved { MovesOn (Some (reading_of self.old).left) (Some (reading_of self.new).left)
            (Some (reading_of self.old).taken) (Some (reading_of self.new).taken) (take result buf.new) }
    {
        let rest = &self.all.as_slice()[self.at..];
        let n = rest.len().min(buf.len());
        let room = &mut buf[..n];
        room.copy_from_slice(&rest[..n]);
        self.at += n;
        n
    }
}

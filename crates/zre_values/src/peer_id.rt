ghost use Rattle.std.specs.Prelude.{◌≡◌, ◌++◌, codes, length, option_map, OnOk, OnErr};
ghost use Rattle.uuid.specs.Text.{parsed};

use crate::quoted_table::row_of;
use crate::{Octets, OutOfMemory};
use uuid::Uuid;

/// The identity of a peer: the sixteen octets of its UUID, as RFC 36 sends them.
#[derive(Clone, Copy, Debug, PartialEq, Eq, PartialOrd, Ord, Hash)]
pub struct PeerId(pub [u8; 16]);

impl PeerId {
    ghost use Rattle.zre_values.specs.Text.{id_text};

    /// Reads a UUID in any text form that `uuid` reads: plain, hyphenated, in braces or as a URN.
    pub fn read(text: &str) -> Option<PeerId>
        ensures { option_map (λ id. id.0) result ≡ parsed text.now }
    {
        PeerId::read_octets(text.as_bytes())
    }

    /// The identity that octets are the text of, if they are one; they may be no text.
    pub fn read_octets(text: &[u8]) -> Option<PeerId>
        ensures { option_map (λ id. id.0) result ≡ parsed text.now }
    {
        match Uuid::try_parse_ascii(text) {
            Ok(uuid) => Some(PeerId(uuid.into_bytes())),
            Err(_) => None,
        }
    }

    /// The thirty-two upper-case digits.
    pub fn write(self) -> [u8; 32]
        ensures { result ≡ id_text self }
    {
        let mut text = [0u8; 32];
        let mut i: usize = 0;
        'octets: while i < 16 {
            let row = row_of(self.0[i]);
            text[2 * i] = row[1];
            text[2 * i + 1] = row[2];
            i += 1;
        }
        text
    }

    /// The thirty-two digits and a space.
    #[inline]
    pub fn write_spaced(self) -> [u8; 33]
        ensures { result ≡ id_text self ++ codes " " }
    {
        let mut text = [b' '; 33];
        let (digits, _) = text.split_at_mut(32);
        digits.copy_from_slice(&self.write());
        text
    }

    /// Appends the thirty-two digits to a text, or nothing.
    pub fn push_to(self, out: &mut Octets) -> Result<(), OutOfMemory>
        ensures ok { OnOk result (out.new ≡ out.old ++ id_text self) }
        ensures err { OnErr result (out.new ≡ out.old) }
    {
        out.append(&self.write())
    }
}

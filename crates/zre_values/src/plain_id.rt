//! Identities read from their plain text.

ghost use Rattle.std.specs.Prelude.{◌≡◌, IfSome, Some, is_some};
ghost use Rattle.std.specs.List.{list_all};
ghost use Rattle.zre_values.specs.PlainId.{is_upper_digit, is_plain_id};

use crate::PeerId;

fn is_upper_digit(octet: u8) -> bool
    ensures { result ≡ is_upper_digit octet }
{
    matches!(octet, b'0'..=b'9' | b'A'..=b'F')
}

fn are_upper_digits(text: &[u8]) -> bool
    ensures { result ≡ list_all is_upper_digit text.now }
{
    text.iter().all(|octet| is_upper_digit(*octet))
}

#[tactic(auto, unfolding(crate::specs::PlainId::is_plain_id))]
fn is_plain_id(text: &[u8]) -> bool
    ensures { result ≡ is_plain_id text.now }
{
    text.len() == 32 && are_upper_digits(text)
}

impl PeerId {
    ghost use Rattle.zre_values.specs.Text.{id_text};
    ghost use Rattle.zre_values.specs.PlainId.{IsPeerId};

    /// Reads the text that [`PeerId::write`] writes: thirty-two digits `0` to `9` and `A` to `F`, and nothing else.
    pub fn read_plain(text: &[u8]) -> Option<PeerId>
        ensures some { is_some result ≡ is_plain_id text.now }
        ensures value { IfSome result (λ id. text.now ≡ id_text id) }
        ensures back { (id : PeerId) → IsPeerId id → text.now ≡ id_text id → result ≡ Some id }
    {
        if is_plain_id(text) {
            PeerId::read_octets(text)
        } else {
            None
        }
    }
}

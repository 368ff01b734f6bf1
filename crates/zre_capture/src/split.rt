//! Texts that are cut at octets of one kind.

ghost use Rattle.std.specs.Prelude.{◌≡◌, ◌<◌, [], ◌∷◌, ◌++◌, length, IfNone, IfSome, MatchOption};
ghost use Rattle.zre_capture.specs.Parts.{Lacks, between};

use memchr::memchr;

/// What stands before and after the first of these octets.
pub fn split_once(text: &[u8], octet: u8) -> Option<(&[u8], &[u8])>
    ensures none { IfNone result (Lacks octet text.now) }
    ensures parts { IfSome result (λ p. text.now ≡ p.0.now ++ (octet ∷ p.1.now)) }
    ensures first { IfSome result (λ p. Lacks octet p.0.now) }
{
    let place = memchr(octet, text)?;
    let (front, rest) = text.split_at(place);
    let (_, after) = rest.split_at(1);
    Some((front, after))
}

/// The first part, where this octet stands between parts, and the text of those after it, if there are any.
pub fn first_part(text: &[u8], octet: u8) -> Option<(&[u8], &[u8])>
    ensures parts { MatchOption result (between octet text.now ≡ text.now ∷ [])
        (λ p. between octet text.now ≡ p.0.now ∷ between octet p.1.now) }
    ensures shorter { IfSome result (λ p. length p.1.now < length text.now) }
{
    let (first, rest) = split_once(text, octet)?;
    Some((first, rest))
}

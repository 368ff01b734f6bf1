//! Numbers read from their texts.

ghost use Rattle.std.specs.Prelude.{◌≡◌, ℕ, ◌++◌, ◌<◌, ◌^◌, decimal, IfSome, Some};

// A number with more digits after its own, octet by octet.
fn with_digits(front: u64, later: &[u8]) -> Option<u64>
    requires { 0 < front }
    ensures value { IfSome result (λ n. decimal n ≡ decimal front ++ later.now) }
    ensures back { (n : ℕ) → n < 2 ^ 64 → decimal n ≡ decimal front ++ later.now → result ≡ Some n }
{
    let mut n = front;
    for octet in later {
        if !octet.is_ascii_digit() {
            return None;
        }
        n = n.checked_mul(10)?.checked_add(u64::from(*octet - b'0'))?;
    }
    Some(n)
}

/// Reads a number in decimal digits as [`push_decimal`](crate::push_decimal) writes it: without a sign, without
/// leading zeros, up to 2^64 - 1.
pub fn read_decimal(text: &[u8]) -> Option<u64>
    ensures value { IfSome result (λ n. text.now ≡ decimal n) }
    ensures back { (n : ℕ) → n < 2 ^ 64 → text.now ≡ decimal n → result ≡ Some n }
{
    let (first, later) = text.split_first()?;
    if !first.is_ascii_digit() {
        return None;
    }
    if *first == b'0' {
        return if later.is_empty() { Some(0) } else { None };
    }
    with_digits(u64::from(*first - b'0'), later)
}

//! Numbers drawn from a seed.

ghost use Rattle.std.specs.Prelude.{◌≡◌, ◌+◌, ◌*◌, ◌≤◌, ◌++◌, length};
ghost use Rattle.zre_capture.specs.Draws.{drawn, upper_half, after_draws, octets_drawn};

use zre_values::FewOctets;

/// As many octets as a message of the exercise has at most.
pub(crate) const MOST_OCTETS: usize = 48;

const FACTOR: u64 = 6364136223846793005;

const SUMMAND: u64 = 1442695040888963407;

/// The number to which a draw leads.
#[inline(always)]
pub(crate) fn drawn(x: u64) -> u64
    ensures { result ≡ drawn x }
{
    x.wrapping_mul(FACTOR).wrapping_add(SUMMAND)
}

/// What a draw gives that led to this number.
#[inline(always)]
#[tactic(auto, unfolding(crate::specs::Draws::upper_half))]
pub(crate) fn upper_half(x: u64) -> u32
    ensures { result ≡ upper_half x }
{
    (x / 0x1_0000_0000) as u32
}

/// Appends what so many draws give, and tells where the draws stand after them.
#[inline(always)]
pub(crate) fn push_drawn(out: &mut FewOctets<MOST_OCTETS>, count: u8, from: u64) -> u64
    requires { length out.old + 4 * count ≤ MOST_OCTETS }
    ensures after { result ≡ after_draws count from }
    ensures octets { out.new ≡ out.old ++ octets_drawn count from }
{
    let mut x = from;
    let mut left = count;
    'draws: while left > 0 {
        x = drawn(x);
        out.append(&upper_half(x).to_be_bytes());
        left -= 1;
    }
    x
}

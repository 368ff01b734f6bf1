ghost use Rattle.std.specs.Prelude.{◌≡◌, ◌+◌, ◌≤◌, ◌<◌, ◌^◌, [], ◌∷◌, ◌++◌, length, nat_le};

use std::marker::Model;

/// Up to N octets, which lie in the value itself and give way to others without an allocation. N is below 256.
#[derive(Debug, Drop)]
pub struct FewOctets<const N: usize> {
    octets: [u8; N],
    count: u8,
}

impl<const N: usize> Model for FewOctets<N> {
    ghost use Rattle.std.specs.Prelude.{◌≤◌, ◌<◌, ◌^◌, ℕ, List, take};

    ghost Value = { List ℕ };

    ghost view = { λ few. take few.count few.octets };

    ghost invariant = { λ few. (few.count ≤ N) × (N < 2 ^ 8) };
}

impl<const N: usize> FewOctets<N> {
    /// None.
    #[inline(always)]
    pub fn new() -> Self
        requires { N < 2 ^ 8 }
        ensures { result ≡ [] }
    {
        FewOctets {
            octets: [0; N],
            count: 0,
        }
    }

    /// A copy of these octets.
    #[inline(always)]
    pub fn of(bytes: &[u8]) -> Self
        requires size { N < 2 ^ 8 }
        requires room { length bytes.now ≤ N }
        ensures { result ≡ bytes.now }
    {
        let mut few = FewOctets::new();
        few.append(bytes);
        few
    }

    /// A copy of the octets. The whole value is copied, so their number doesn't matter.
    #[inline(always)]
    pub fn twin(&self) -> Self
        ensures { result ≡ self.now }
    {
        FewOctets {
            octets: self.octets,
            count: self.count,
        }
    }

    /// The octets, where they lie.
    #[inline(always)]
    pub fn as_slice(&self) -> &[u8]
        ensures { result.now ≡ self.now }
    {
        &self.octets[..self.count as usize]
    }

    /// How many there are.
    #[inline(always)]
    pub fn len(&self) -> usize
        ensures value { result ≡ length self.now }
        ensures within { result ≤ N }
    {
        self.count as usize
    }

    /// Whether so many more octets fit.
    #[inline(always)]
    pub fn has_room(&self, more: usize) -> bool
        ensures { result ≡ nat_le (length self.now + more) N }
    {
        more <= N - self.count as usize
    }

    /// Appends an octet.
    #[inline(always)]
    pub fn push(&mut self, octet: u8)
        requires { length self.old < N }
        ensures { self.new ≡ self.old ++ octet ∷ [] }
    {
        self.octets[self.count as usize] = octet;
        self.count += 1;
    }

    /// Appends octets, in one go.
    #[inline(always)]
    pub fn append(&mut self, bytes: &[u8])
        requires { length self.old + length bytes.now ≤ N }
        ensures { self.new ≡ self.old ++ bytes.now }
    {
        let len = self.count as usize;
        let end = len + bytes.len();
        let all = &mut self.octets[..];
        let room = &mut all[len..end];
        room.copy_from_slice(bytes);
        self.count = end as u8;
    }

    /// Empties it.
    #[inline(always)]
    pub fn clear(&mut self)
        ensures { self.new ≡ [] }
    {
        self.count = 0;
    }
}

//! The header of a frame, octet by octet.

ghost use Rattle.std.specs.Prelude.{◌≡◌, ◌≤◌, ◌<◌, List, [], ◌∷◌, ◌++◌, length};

use std::marker::Model;

/// Octets of a header: at most nine, which lie in the value itself.
#[derive(Drop)]
pub struct Head {
    octets: [u8; 9],
    count: usize,
}

impl Model for Head {
    ghost use Rattle.std.specs.Prelude.{◌≤◌, ℕ, List, take};

    ghost Value = { List ℕ };

    ghost view = { λ head. take head.count head.octets };

    ghost invariant = { λ head. head.count ≤ 9 };
}

impl Head {
    /// No octet has come.
    pub fn new() -> Self
        ensures { result ≡ [] }
    {
        Head {
            octets: [0; 9],
            count: 0,
        }
    }

    /// These octets have come.
    pub fn of(octets: &[u8]) -> Self
        requires { length octets.now ≤ 9 }
        ensures { result ≡ octets.now }
    {
        let mut head = Head::new();
        for octet in octets {
            head.push(*octet);
        }
        head
    }

    /// The octets that have come.
    pub fn as_slice(&self) -> &[u8]
        ensures { result.now ≡ self.now }
    {
        let (front, _) = self.octets.split_at(self.count);
        front
    }

    /// How many have come.
    pub fn len(&self) -> usize
        ensures { result ≡ length self.now }
    {
        self.count
    }

    /// None has come any more.
    pub fn clear(&mut self)
        ensures { self.new ≡ [] }
    {
        self.count = 0;
    }

    /// One octet more.
    pub fn push(&mut self, octet: u8)
        requires { length self.old < 9 }
        ensures { self.new ≡ self.old ++ octet ∷ [] }
    {
        self.octets[self.count] = octet;
        self.count += 1;
    }
}

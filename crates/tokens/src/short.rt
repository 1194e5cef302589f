// A few octets, at most N, in an array.
ghost use Rattle.std.specs.Prelude.{◌≡◌, ◌≤◌, length, take};

use std::marker::Model;

// At most N octets. Clauses see them as a list. Zeros stand after the list, so that it gives the fields back: a `Copy` type needs that.
#[derive(Clone, Copy, Debug)]
pub struct Short<const N: usize> {
    octets: [u8; N],
    length: usize,
}

impl<const N: usize> Model for Short<N> {
    ghost use Rattle.std.specs.Prelude.{◌≡◌, ◌-◌, ◌≤◌, ℕ, List, ◌++◌, length as len, take, drop, replicate};
    ghost use Rattle.primitives.proofs.Room as Room;

    ghost Value = { List ℕ };

    ghost view = { λ s. take s.length s.octets };

    // Zeros stand after the last octet.
    ghost invariant = { λ s. (s.length ≤ N) × (len s.octets ≡ N) × (drop s.length s.octets ≡ replicate (N - s.length) 0) };

    ghost inverse = { λ l. record { octets = l ++ replicate (N - len l) 0; length = len l } };

    ghost inverse_ok = { λ s h i. record {
      octets = Room.filled N s.length s.octets h.1 h.0 h.2 i;
      length = Room.kept N s.length s.octets h.1 h.0 i;
    } };
}

impl<const N: usize> Short<N> {
    // The first N octets of a slice, or all of them if it has fewer.
    pub fn from_slice(octets: &[u8]) -> Self
        ensures { result ≡ take N octets.now }
    {
        let length = octets.len().min(N);
        let mut first = [0; N];
        first[..length].copy_from_slice(&octets[..length]);
        Short {
            octets: first,
            length,
        }
    }

    // The number of octets.
    pub fn len(&self) -> usize
        ensures is { result ≡ length self.now }
        ensures most { result ≤ N }
    {
        self.length
    }

    pub fn as_slice(&self) -> &[u8]
        ensures { result.now ≡ self.now }
    {
        &self.octets[..self.length]
    }
}

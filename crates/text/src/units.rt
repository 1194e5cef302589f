// Units of UTF-16 (RFC 2781), put one character after the other.
ghost use Rattle.std.specs.Prelude.{◌≡◌, ◌+◌, ◌-◌, ◌≤◌, ◌<◌, ℕ, List, [], ◌∷◌, ◌++◌, length, take, drop, replicate};
ghost use Rattle.text.specs.Utf8 as Spec;
ghost use Rattle.primitives.proofs.Room as Room;

use std::marker::Model;

// At most 1,024 units. A contract sees the list of them. It is a type beside `tokens::short::Short`, which has octets: there is no array of
// a type parameter.
#[derive(Clone, Copy, Debug)]
pub struct Units {
    units: [u16; 1024],
    count: usize,
}

impl Model for Units {
    ghost Value = { List ℕ };

    ghost view = { λ u. take u.count u.units };

    // Zeros stand after the last unit.
    ghost invariant = { λ u. (u.count ≤ 1024) × (length u.units ≡ 1024) × (drop u.count u.units ≡ replicate (1024 - u.count) 0) };

    ghost inverse = { λ l. record { units = l ++ replicate (1024 - length l) 0; count = length l } };

    ghost inverse_ok = { λ u h i. record {
      units = Room.filled 1024 u.count u.units h.1 h.0 h.2 i;
      count = Room.kept 1024 u.count u.units h.1 h.0 i;
    } };
}

impl Units {
    pub const MOST: usize = 1024;

    pub(crate) fn new() -> Units
        ensures { result ≡ [] }
    {
        Units {
            units: [0; 1024],
            count: 0,
        }
    }

    pub fn as_slice(&self) -> &[u16]
        ensures { result.now ≡ self.now }
    {
        &self.units[..self.count]
    }

    // Puts one unit after those that are there.
    fn push_unit(&mut self, unit: u16)
        requires { length self.old < 1024 }
        ensures { self.new ≡ self.old ++ unit ∷ [] }
    {
        self.units[self.count] = unit;
        self.count += 1;
    }

    // Puts the units of a character after those that are there: one, or two if it is above FFFF.
    #[tactic(auto, unfolding(crate::specs::Utf8::utf16))]
    pub(crate) fn push(&mut self, character: u32)
        requires { (character < 0x110000) × (length self.old + length (Spec.utf16 character) ≤ 1024) }
        ensures { self.new ≡ self.old ++ Spec.utf16 character }
    {
        if character < 0x10000 {
            self.push_unit(character as u16);
        } else {
            let above = character - 0x10000;
            self.push_unit((0xd800 + above / 1024) as u16);
            self.push_unit((0xdc00 + above % 1024) as u16);
        }
    }
}

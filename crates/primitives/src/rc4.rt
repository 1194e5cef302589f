// RC4 as a stream: begun from a key, applied to a lent text from wherever it stands, and handed on.
ghost use Rattle.std.specs.Prelude.{◌≡◌, ◌<◌, length};
ghost use Rattle.primitives.specs.Rc4 as Spec;

use crate::limits;
use crate::limits::LengthError;
use std::array;

// The octets S and the indices i and j. They come from a key: they have no `Debug`, which would print it, and no `==`, which would
// compare it in a time that tells something of it.
#[derive(Clone, Copy)]
pub struct Rc4 {
    pub s: [u8; 256],
    pub i: u8,
    pub j: u8,
}

// The octets 0 to 255.
fn up_to_256() -> [u8; 256]
    ensures { result ≡ Spec.up_to 256 }
{
    array::from_fn(|n| n as u8)
}

// The state that a key gives. The two octets are exchanged by hand: `s.swap(i, j)` was tried, which tests at each turn which of the two
// places comes first, and RC4 of one octet took 1.9 times the time where the keys vary. `key[i % key.len()]` was tried too, and takes up to
// twice the time.
fn key_schedule(key: &[u8]) -> Rc4
    requires { 0 < length key.now }
    ensures { result ≡ Spec.key_schedule key.now }
{
    let mut s = up_to_256();
    let mut j: usize = 0;
    for (i, octet) in key.iter().cycle().take(256).enumerate() {
        let a = s[i];
        j = (j + usize::from(a) + usize::from(*octet)) % 256;
        s[i] = s[j];
        s[j] = a;
    }
    Rc4 { s, i: 0, j: 0 }
}

impl Rc4 {
    // Begun from a key of 16 octets. No such key is refused, so it gives no `Result`.
    pub fn new(key: [u8; 16]) -> Self
        ensures { result ≡ Spec.key_schedule key }
    {
        key_schedule(&key)
    }

    // Begun from a key of 1 to 256 octets.
    pub fn from_slice(key: &[u8]) -> Result<Self, LengthError>
        ensures { result ≡ Spec.begun key.now }
    {
        limits::length_status(limits::LEAST_RC4_KEY, limits::MOST_RC4_KEY, key.len())?;
        Ok(key_schedule(key))
    }

    // The text under the keystream from here on, and the state where it stopped. `a` is S[i] for the i of the turn that begins. It is read
    // one turn early, before the two stores, so that the next j does not wait for them. Where j is that place, `a` itself is stored there.
    pub fn apply(self, text: &mut [u8]) -> Self
        ensures { Spec.Applied self text.old result text.new }
    {
        let mut s = self.s;
        let mut i = self.i;
        let mut j = self.j;
        let mut a = s[usize::from(i.wrapping_add(1))];
        for octet in text.iter_mut() {
            i = i.wrapping_add(1);
            j = j.wrapping_add(a);
            let p = usize::from(i);
            let q = usize::from(j);
            let b = s[q];
            let ahead = i.wrapping_add(1);
            let c = s[usize::from(ahead)];
            s[p] = b;
            s[q] = a;
            *octet ^= s[usize::from(a.wrapping_add(b))];
            if j != ahead {
                a = c;
            }
        }
        Rc4 { s, i, j }
    }
}

// MD4's compression of one block: RFC 1320, section 3.4.
ghost use Rattle.std.specs.Prelude.{◌≡◌, ◌<◌, [], ◌∷◌};
ghost use Rattle.std.proofs.Common.{rules};
ghost use Rattle.primitives.specs.Md4 as Spec;

use crate::compression::Compression;
use crate::hash::Words;
use crate::{compression, word};

// The tables of MD4. They and `operation` look like those of MD5, and differ as the two documents print them.
struct Md4 {
    // The addend of each round.
    addends: [u32; 3],
    // The shift amounts: four for each round, used in turn.
    shifts: [[u32; 4]; 3],
    // Which word of the block each operation takes.
    words: [usize; 48],
    ghost addends_printed: { addends ≡ Spec.addend 0 ∷ Spec.addend 1 ∷ Spec.addend 2 ∷ [] },
    ghost shifts_printed: { shifts ≡ Spec.shifts_by_round },
    ghost words_printed: { words ≡ Spec.words },
}

const MD4: Md4 = Md4 {
    addends: [0, 0x5a827999, 0x6ed9eba1],
    shifts: [[3, 7, 11, 19], [3, 5, 9, 13], [3, 9, 11, 15]],
    words: [
        // Round 1.
        0, 1, 2, 3, 4, 5, 6, 7, 8, 9, 10, 11, 12, 13, 14, 15,
        // Round 2.
        0, 4, 8, 12, 1, 5, 9, 13, 2, 6, 10, 14, 3, 7, 11, 15,
        // Round 3.
        0, 8, 4, 12, 2, 10, 6, 14, 1, 9, 5, 13, 3, 11, 7, 15,
    ],
};

// G(X,Y,Z) = XY v XZ v YZ.
fn aux_g(x: u32, y: u32, z: u32) -> u32
    ensures { result ≡ Spec.aux_g x y z }
{
    (x & y) | (x & z) | (y & z)
}

// The auxiliary function of a round, the rounds counted from 0. A `match` lists them as the document does; closures would have to be
// handed down to each operation.
fn auxiliary(round: usize, x: u32, y: u32, z: u32) -> u32
    requires { round < 3 }
    ensures { result ≡ Spec.auxiliary round x y z }
{
    match round {
        0 => word::aux_f(x, y, z),
        1 => aux_g(x, y, z),
        _ => word::aux_h(x, y, z),
    }
}

impl Compression for Md4 {
    ghost step = { Spec.operation };

    ghost ROUNDS = { 3 };

    const ROUNDS: usize = 3;

    ghost few_rounds = { Prim.search rules };

    fn operation(&self, n: usize, w: Words, block: &[u8; 64]) -> Words {
        let round = n / 16;
        let sum = w
            .a
            .wrapping_add(auxiliary(round, w.b, w.c, w.d))
            .wrapping_add(word::word_at(block, self.words[n]))
            .wrapping_add(self.addends[round]);
        Words {
            a: w.d,
            b: sum.rotate_left(compression::shift(n, &self.shifts)),
            c: w.b,
            d: w.c,
        }
    }
}

// One block.
#[tactic(auto, unfolding(crate::specs::Md4::compress))]
pub fn compress(w: Words, block: &[u8; 64]) -> Words
    ensures { result ≡ Spec.compress w block.now }
{
    compression::compress(&MD4, w, block)
}

// MD5's compression of one block: RFC 1321, section 3.4.
ghost use Rattle.std.specs.Prelude.{◌≡◌, ◌<◌};
ghost use Rattle.std.proofs.Common.{rules};
ghost use Rattle.primitives.specs.Md5 as Spec;

use crate::compression::Compression;
use crate::hash::Words;
use crate::{compression, word};

// The tables of MD5. They and `operation` look like those of MD4, and differ as the two documents print them.
struct Md5 {
    // The addends T[1] to T[64].
    addends: [u32; 64],
    // The shift amounts: four for each round, used in turn.
    shifts: [[u32; 4]; 4],
    // Which word of the block each operation takes.
    words: [usize; 64],
    ghost addends_printed: { addends ≡ Spec.addends },
    ghost shifts_printed: { shifts ≡ Spec.shifts_by_round },
    ghost words_printed: { words ≡ Spec.words },
}

const MD5: Md5 = Md5 {
    addends: [
        0xd76aa478, 0xe8c7b756, 0x242070db, 0xc1bdceee, 0xf57c0faf, 0x4787c62a, 0xa8304613,
        0xfd469501, 0x698098d8, 0x8b44f7af, 0xffff5bb1, 0x895cd7be, 0x6b901122, 0xfd987193,
        0xa679438e, 0x49b40821, 0xf61e2562, 0xc040b340, 0x265e5a51, 0xe9b6c7aa, 0xd62f105d,
        0x02441453, 0xd8a1e681, 0xe7d3fbc8, 0x21e1cde6, 0xc33707d6, 0xf4d50d87, 0x455a14ed,
        0xa9e3e905, 0xfcefa3f8, 0x676f02d9, 0x8d2a4c8a, 0xfffa3942, 0x8771f681, 0x6d9d6122,
        0xfde5380c, 0xa4beea44, 0x4bdecfa9, 0xf6bb4b60, 0xbebfbc70, 0x289b7ec6, 0xeaa127fa,
        0xd4ef3085, 0x04881d05, 0xd9d4d039, 0xe6db99e5, 0x1fa27cf8, 0xc4ac5665, 0xf4292244,
        0x432aff97, 0xab9423a7, 0xfc93a039, 0x655b59c3, 0x8f0ccc92, 0xffeff47d, 0x85845dd1,
        0x6fa87e4f, 0xfe2ce6e0, 0xa3014314, 0x4e0811a1, 0xf7537e82, 0xbd3af235, 0x2ad7d2bb,
        0xeb86d391,
    ],
    shifts: [
        [7, 12, 17, 22],
        [5, 9, 14, 20],
        [4, 11, 16, 23],
        [6, 10, 15, 21],
    ],
    words: [
        // Round 1.
        0, 1, 2, 3, 4, 5, 6, 7, 8, 9, 10, 11, 12, 13, 14, 15,
        // Round 2.
        1, 6, 11, 0, 5, 10, 15, 4, 9, 14, 3, 8, 13, 2, 7, 12,
        // Round 3.
        5, 8, 11, 14, 1, 4, 7, 10, 13, 0, 3, 6, 9, 12, 15, 2,
        // Round 4.
        0, 7, 14, 5, 12, 3, 10, 1, 8, 15, 6, 13, 4, 11, 2, 9,
    ],
};

// G(X,Y,Z) = XZ v Y not(Z).
fn aux_g(x: u32, y: u32, z: u32) -> u32
    ensures { result ≡ Spec.aux_g x y z }
{
    (x & z) | (y & !z)
}

// I(X,Y,Z) = Y xor (X v not(Z)).
fn aux_i(x: u32, y: u32, z: u32) -> u32
    ensures { result ≡ Spec.aux_i x y z }
{
    y ^ (x | !z)
}

// The auxiliary function of a round, the rounds counted from 0. A `match` lists them as the document does; closures would have to be
// handed down to each operation.
fn auxiliary(round: usize, x: u32, y: u32, z: u32) -> u32
    requires { round < 4 }
    ensures { result ≡ Spec.auxiliary round x y z }
{
    match round {
        0 => word::aux_f(x, y, z),
        1 => aux_g(x, y, z),
        2 => word::aux_h(x, y, z),
        _ => aux_i(x, y, z),
    }
}

impl Compression for Md5 {
    ghost step = { Spec.operation };

    ghost ROUNDS = { 4 };

    const ROUNDS: usize = 4;

    ghost few_rounds = { Prim.search rules };

    fn operation(&self, n: usize, w: Words, block: &[u8; 64]) -> Words {
        let sum = w
            .a
            .wrapping_add(auxiliary(n / 16, w.b, w.c, w.d))
            .wrapping_add(word::word_at(block, self.words[n]))
            .wrapping_add(self.addends[n]);
        let turned = sum.rotate_left(compression::shift(n, &self.shifts));
        Words {
            a: w.d,
            b: w.b.wrapping_add(turned),
            c: w.b,
            d: w.c,
        }
    }
}

// One block.
#[tactic(auto, unfolding(crate::specs::Md5::compress))]
pub fn compress(w: Words, block: &[u8; 64]) -> Words
    ensures { result ≡ Spec.compress w block.now }
{
    compression::compress(&MD5, w, block)
}

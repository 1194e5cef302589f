// What the compressions of MD4 and MD5 share: operations on the words one after the other, sixteen to a round, and the sums with
// the words before. RFC 1320 and RFC 1321, section 3.4.
ghost use Rattle.std.specs.Prelude.{◌≡◌, ℕ, ◌+◌, ◌*◌, ◌<◌, ◌≤◌};
ghost use Rattle.primitives.specs.Word.{Operation, operations, add_words, pick};

use crate::hash::Words;
use crate::word;

// A compression by its operations. A value has the tables, which are lent for the whole of a block: a constant table that is
// read in a loop is built at each read.
pub trait Compression {
    // What an operation makes of the words and a block.
    ghost step: { Operation };

    ghost ROUNDS: { ℕ };

    const ROUNDS: usize;

    // Operation n.
    fn operation(&self, n: usize, w: Words, block: &[u8; 64]) -> Words
        requires { n < 16 * ROUNDS }
        ensures { result ≡ step n w block.now };

    ghost few_rounds: { ROUNDS ≤ 4 };
}

// The shift amount of operation n, by its round and its turn among the four.
pub fn shift<const ROUNDS: usize>(n: usize, shifts: &[[u32; 4]; ROUNDS]) -> u32
    requires { n < 16 * ROUNDS }
    ensures { result ≡ pick shifts.now n }
{
    shifts[n / 16][n % 4]
}

// The four operations from n. One loop over all operations was tried in place of `four` and `round`: MD4 and MD5 took twice the time.
fn four<C: Compression>(tables: &C, n: usize, w: Words, block: &[u8; 64]) -> Words
    requires { n + 4 ≤ 16 * C.ROUNDS }
    ensures { (o : Words) → w ≡ operations C.step n o block.now → result ≡ operations C.step (n + 4) o block.now }
{
    let a = tables.operation(n, w, block);
    let b = tables.operation(n + 1, a, block);
    let c = tables.operation(n + 2, b, block);
    tables.operation(n + 3, c, block)
}

// The round of sixteen operations from n.
fn round<C: Compression>(tables: &C, n: usize, w: Words, block: &[u8; 64]) -> Words
    requires { n + 16 ≤ 16 * C.ROUNDS }
    ensures { (o : Words) → w ≡ operations C.step n o block.now → result ≡ operations C.step (n + 16) o block.now }
{
    let a = four(tables, n, w, block);
    let b = four(tables, n + 4, a, block);
    let c = four(tables, n + 8, b, block);
    four(tables, n + 12, c, block)
}

// All rounds on a block, and the sums with the words before.
#[tactic(auto, unfolding(crate::specs::Word::operations))]
pub fn compress<C: Compression>(tables: &C, w: Words, block: &[u8; 64]) -> Words
    ensures { result ≡ add_words w (operations C.step (16 * C.ROUNDS) w block.now) }
{
    let mut v = w;
    for i in 0..C::ROUNDS {
        v = round(tables, 16 * i, v, block);
    }
    word::add_words(w, v)
}

// MD4 and MD5 of a message that comes in parts: RFC 1320 and RFC 1321, section 3.
ghost use Rattle.std.specs.Prelude.{◌≡◌, ◌+◌, ◌-◌, ◌<◌, ◌≤◌, min, ◌++◌, length, take, drop, replicate};
ghost use Rattle.std.proofs.Math.Seq.{paste};
ghost use Rattle.primitives.specs.Hash as Spec;

use crate::{md4, md5};

// Which compression a digest is made by; all else is the same for both. An enum and no type parameter, since the definitions take it as
// an argument (`Spec.digest`).
#[derive(Clone, Copy, Debug, PartialEq, Eq)]
pub enum Algorithm {
    Md4,
    Md5,
}

// The words A, B, C and D. They and the states of this crate may come from a key. So they have no `Debug`, which would print it, and
// no `==`, which would compare it in a time that tells something of it.
#[derive(Clone, Copy)]
pub struct Words {
    pub a: u32,
    pub b: u32,
    pub c: u32,
    pub d: u32,
}

// The state after some of a message: the words after its whole blocks, the octets since then at the front of the block, and
// how many octets it has, modulo 2^64. The block stands first, where it is aligned: elsewhere MD4 and MD5 take up to a tenth longer.
#[derive(Clone, Copy)]
pub struct Hash {
    pub block: [u8; 64],
    pub words: Words,
    pub count: u64,
    pub algorithm: Algorithm,
}

// Section 3.3: the words before the first block.
const INITIAL: Words = Words {
    a: 0x67452301,
    b: 0xefcdab89,
    c: 0x98badcfe,
    d: 0x10325476,
};

// Section 3.4: one block.
fn compress(algorithm: Algorithm, w: Words, block: &[u8; 64]) -> Words
    ensures { result ≡ Spec.compress algorithm w block.now }
{
    match algorithm {
        Algorithm::Md4 => md4::compress(w, block),
        Algorithm::Md5 => md5::compress(w, block),
    }
}

// The block with octets put in at `at`. Where they fill all of it, the old block is not copied first.
fn fill(block: [u8; 64], at: usize, octets: &[u8]) -> [u8; 64]
    requires { at + length octets.now ≤ 64 }
    ensures { result ≡ paste block at octets.now (length octets.now) }
{
    if let Ok(whole) = <[u8; 64]>::try_from(octets) {
        return whole;
    }
    let mut filled = block;
    filled[at..at + octets.len()].copy_from_slice(octets);
    filled
}

// How many zeros the padding has.
fn zeros(n: u64) -> usize
    ensures { (result ≡ Spec.zeros n) × (result < 64) }
{
    ((119 - n % 64) % 64) as usize
}

// Sections 3.1 and 3.2: the padding after n octets, filled with zeros.
fn padding(n: u64) -> [u8; 72]
    ensures { result ≡ Spec.padding n ++ replicate (63 - Spec.zeros n) 0 }
{
    let bits = n.wrapping_mul(8).to_le_bytes();
    let at = zeros(n) + 1;
    let mut pad = [0u8; 72];
    pad[0] = 0x80;
    pad[at..at + 8].copy_from_slice(&bits);
    pad
}

// Section 3.5: the octets of the words, the lowest of each first. They are listed, since std joins the arrays that
// `[w.a, w.b, w.c, w.d].map(u32::to_le_bytes)` gives into a slice alone (`as_flattened`), and to make an array of it is no plainer.
#[tactic(auto, using(crate::proofs::Padding::le_bytes_word), unfolding(crate::specs::Hash::output, crate::specs::Octets::little_endian))]
fn output(w: Words) -> [u8; 16]
    ensures { result ≡ Spec.output w }
{
    let a = w.a.to_le_bytes();
    let b = w.b.to_le_bytes();
    let c = w.c.to_le_bytes();
    let d = w.d.to_le_bytes();
    [
        a[0], a[1], a[2], a[3], b[0], b[1], b[2], b[3], c[0], c[1], c[2], c[3], d[0], d[1], d[2],
        d[3],
    ]
}

impl Hash {
    // The state before any of the message has come.
    pub fn new(algorithm: Algorithm) -> Self
        ensures { result ≡ Spec.begun algorithm }
    {
        Hash {
            algorithm,
            words: INITIAL,
            block: [0u8; 64],
            count: 0,
        }
    }

    // After a first block, as `new` and `update` would leave it.
    #[tactic(auto, using(crate::proofs::Parts::first_block))]
    pub fn of_block(algorithm: Algorithm, block: [u8; 64]) -> Self
        ensures { result ≡ Spec.absorb (Spec.begun algorithm) block }
    {
        Hash {
            algorithm,
            words: compress(algorithm, INITIAL, &block),
            block,
            count: 64,
        }
    }

    // The state after one more part of the message. A part that does not fill the block is only put into it: that needs no loop.
    #[tactic(auto, using(crate::proofs::Absorb::absorb_short))]
    pub fn update(self, part: &[u8]) -> Self
        ensures { result ≡ Spec.absorb self part.now }
    {
        let at = (self.count % 64) as usize;
        if part.len() < 64 - at {
            return Hash {
                block: fill(self.block, at, part),
                count: self.count.wrapping_add(part.len() as u64),
                ..self
            };
        }
        self.update_blocks(part)
    }

    // The state after a part of any length: the block is filled as far as it has room, compressed when it is full, and filled again.
    fn update_blocks(self, part: &[u8]) -> Self
        ensures { result ≡ Spec.absorb self part.now }
    {
        let Hash {
            mut block,
            mut words,
            mut count,
            algorithm,
        } = self;
        // `as_chunks` would give whole blocks alone: the front, which fills the block, and the rest would be two more steps.
        let mut rest = part;
        while !rest.is_empty() {
            let at = (count % 64) as usize;
            let (octets, after) = rest.split_at(rest.len().min(64 - at));
            block = fill(block, at, octets);
            let full = at + octets.len() == 64;
            if full {
                words = compress(algorithm, words, &block);
            }
            count = count.wrapping_add(octets.len() as u64);
            rest = after;
        }
        Hash {
            block,
            words,
            count,
            algorithm,
        }
    }

    // The digest of what has been absorbed: the padding, and then the words' octets.
    pub fn finish(self) -> [u8; 16]
        ensures { result ≡ Spec.finished self }
    {
        let pad = padding(self.count);
        let end = zeros(self.count) + 9;
        output(self.update(&pad[..end]).words)
    }
}

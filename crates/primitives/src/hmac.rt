// HMAC-MD5 of a text that comes in parts: RFC 2104, section 2.
ghost use Rattle.std.specs.Prelude.{◌≡◌, ◌≤◌, length};
ghost use Rattle.primitives.specs.Hmac as Spec;

use crate::hash::{Algorithm, Hash};

// The state after some of a text: that of the inner hash, and that of the outer one, which waits for the inner digest. It comes from a
// key: it has no `Debug`, which would print it, and no `==`, which would compare it in a time that tells something of it.
#[derive(Clone, Copy)]
pub struct Hmac {
    pub inner: Hash,
    pub outer: Hash,
}

// The key, filled with zeros.
fn filled(key: &[u8]) -> [u8; 64]
    requires { length key.now ≤ 64 }
    ensures { result ≡ Spec.filled key.now }
{
    let mut block = [0u8; 64];
    block[..key.len()].copy_from_slice(key);
    block
}

// The key as a block.
#[tactic(auto, using(crate::proofs::Parts::finished_digest), unfolding(crate::specs::Hmac::key_block))]
fn key_block(key: &[u8]) -> [u8; 64]
    ensures { result ≡ Spec.key_block key.now }
{
    if key.len() <= 64 {
        return filled(key);
    }
    let digest = Hash::new(Algorithm::Md5).update(key).finish();
    filled(&digest)
}

// Each octet of the block xor the octet of a pad. `block.map(|octet| octet ^ pad)` was tried: the HMAC of 20 octets took 1.8
// times the time.
fn xor_pad(pad: u8, block: [u8; 64]) -> [u8; 64]
    ensures { result ≡ Spec.xor_pad pad block }
{
    let mut padded = block;
    for octet in padded.iter_mut() {
        *octet ^= pad;
    }
    padded
}

// The hash after a key of sixteen octets as a block, xor a pad. Such a key needs no hashing.
#[tactic(auto, using(crate::proofs::HmacParts::short_key), unfolding(crate::specs::Hmac::after_key))]
fn after_key(pad: u8, key: [u8; 16]) -> Hash
    ensures { result ≡ Spec.after_key pad key }
{
    Hash::of_block(Algorithm::Md5, xor_pad(pad, filled(&key)))
}

impl Hmac {
    // The state under a key, before any of the text has come.
    #[tactic(auto, unfolding(crate::specs::Hmac::begun, crate::specs::Hmac::after_key))]
    pub fn new(key: &[u8]) -> Self
        ensures { result ≡ Spec.begun key.now }
    {
        let block = key_block(key);
        let ipad = xor_pad(0x36, block);
        let opad = xor_pad(0x5c, block);
        Hmac {
            inner: Hash::of_block(Algorithm::Md5, ipad),
            outer: Hash::of_block(Algorithm::Md5, opad),
        }
    }

    // The state after one more part of the text.
    #[tactic(auto, unfolding(crate::specs::Hmac::absorb))]
    pub fn update(self, part: &[u8]) -> Self
        ensures { result ≡ Spec.absorb self part.now }
    {
        Hmac {
            inner: self.inner.update(part),
            ..self
        }
    }

    // The code of what has been absorbed.
    #[tactic(auto, unfolding(crate::specs::Hmac::finished))]
    pub fn finish(self) -> [u8; 16]
        ensures { result ≡ Spec.finished self }
    {
        let digest = self.inner.finish();
        self.outer.update(&digest).finish()
    }

    // The inner hash before any of the text has come, under a key of sixteen octets. This and `begin_outer` differ in the pad alone:
    // both are kept, since `tokens` and entry 99 of docs/DECISIONS.md name them.
    pub fn begin_inner(key: [u8; 16]) -> Hash
        ensures { result ≡ Spec.after_key 0x36 key }
    {
        after_key(0x36, key)
    }

    // The outer hash, which waits for the inner digest, under a key of sixteen octets.
    pub fn begin_outer(key: [u8; 16]) -> Hash
        ensures { result ≡ Spec.after_key 0x5c key }
    {
        after_key(0x5c, key)
    }
}

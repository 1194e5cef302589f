// What stands before a token in its frame: the tag, the length and the mechanism.
ghost use Rattle.std.specs.Prelude.{◌≡◌, ◌+◌, ◌≤◌, length};
ghost use Rattle.tokens.specs.Limits.{placed};
ghost use Rattle.frame.specs.Framing as Spec;

use crate::framing::{MECHANISM, TAG};
use crate::length;

// How many octets stand before a token of n octets.
#[tactic(auto, using(crate::proofs::Frames::lead_length_lem))]
pub fn width(n: usize) -> usize
    requires { n ≤ 32801 }
    ensures { (result ≡ Spec.lead_length n) × (result ≤ 15) }
{
    1 + length::shortest(MECHANISM.len() + n).len() + MECHANISM.len()
}

// Writes what stands before a token of n octets, from `start`.
pub fn write(buf: &mut [u8], start: usize, n: usize)
    requires { (n ≤ 32801) × (start + Spec.lead_length n ≤ length buf.old) }
    ensures { buf.new ≡ placed start (Spec.lead n) buf.old }
{
    let counted = MECHANISM.len() + n;
    let length = length::shortest(counted);
    let after_tag = start + 1;
    let after_length = after_tag + length.len();
    buf[start] = TAG;
    buf[after_tag..after_length].copy_from_slice(length.as_slice());
    buf[after_length..after_length + MECHANISM.len()].copy_from_slice(&MECHANISM);
}

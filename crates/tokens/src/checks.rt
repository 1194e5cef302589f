// The tests of which a call makes several, each with its refusal.
ghost use Rattle.std.specs.Prelude.{◌≡◌, leb, ◌+◌};
ghost use Rattle.tokens.specs.Answer.{tested};
ghost use Rattle.tokens.specs.Limits.{within};
ghost use Rattle.tokens.specs.Octets as Spec;
ghost use Rattle.tokens.specs.declared.answer.Refusal.TheVariants as refusal;

use crate::answer::Refusal;
use primitives::limits;

// Whether a length lies from `least` to `most`. The test is that of `primitives`; the refusal is this crate's.
pub fn length(least: usize, most: usize, n: usize) -> Result<(), Refusal>
    ensures { result ≡ tested (within least most n) refusal.Length }
{
    limits::length_status(least, most, n).map_err(Refusal::from)
}

// Whether the n octets from `start` end at `end` or before.
pub fn region(start: usize, n: usize, end: usize) -> Result<(), Refusal>
    ensures { result ≡ tested (leb (start + n) end) refusal.Region }
{
    if start <= end && n <= end - start {
        Ok(())
    } else {
        Err(Refusal::Region)
    }
}

// Whether two lists have the same octets. All of them are looked at, whichever differ: `==` would stop at the first that does, and show
// by its time how much of a checksum is right.
pub fn same(a: &[u8], b: &[u8]) -> bool
    ensures { result ≡ Spec.same a.now b.now }
{
    if a.len() != b.len() {
        return false;
    }
    let mut difference = 0;
    for (x, y) in a.iter().zip(b) {
        difference |= x ^ y;
    }
    difference == 0
}

// Compares all of some octets with those that are expected, and refuses them if they differ.
pub fn equal(given: &[u8], expected: &[u8], refusal: Refusal) -> Result<(), Refusal>
    ensures { result ≡ tested (Spec.same given.now expected.now) refusal }
{
    same(given, expected).then_some(()).ok_or(refusal)
}

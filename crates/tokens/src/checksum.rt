// The keyed checksum: RFC 4757, section 4. A usage is a number, as C gives it: that it is no usage is an answer of the calls, after that
// of a length.
ghost use Rattle.std.specs.Prelude.{◌≡◌};
ghost use Rattle.tokens.specs.Answer.{status_answer};
ghost use Rattle.tokens.specs.Checksum as Spec;

use crate::answer::Refusal;
use crate::usage::Usage;
use crate::{checks, limits, mac};
use primitives::hash::{Algorithm, Hash};

// Ksign.
pub fn signature_key(key: [u8; 16]) -> [u8; 16]
    ensures { result ≡ Spec.signature_key key }
{
    mac::of(key, b"signaturekey\0")
}

// The checksum of the data for a T.
fn checksum_of(key: [u8; 16], t: [u8; 4], data: &[u8]) -> [u8; 16]
    ensures { result ≡ Spec.checksum key t «data».now }
{
    let digest = Hash::new(Algorithm::Md5).update(&t).update(data).finish();
    mac::of(signature_key(key), &digest)
}

// The checksum of 0 to 32,768 octets.
pub fn checksum(key: [u8; 16], usage: u32, data: &[u8]) -> Result<[u8; 16], Refusal>
    ensures { result ≡ Spec.keyed_checksum key usage «data».now }
{
    checks::length(0, limits::MOST_MESSAGE, data.len())?;
    let usage = Usage::try_from(usage)?;
    Ok(checksum_of(key, usage.t(), data))
}

// Whether `checksum` is that of the data.
pub fn checksum_test(key: [u8; 16], usage: u32, data: &[u8], checksum: &[u8]) -> Result<(), Refusal>
    ensures { result ≡ status_answer (Spec.checksum_test key usage «data».now checksum.now) }
{
    checks::length(0, limits::MOST_MESSAGE, data.len())?;
    checks::length(16, 16, checksum.len())?;
    let usage = Usage::try_from(usage)?;
    let expected = checksum_of(key, usage.t(), data);
    checks::equal(checksum, &expected, Refusal::Checksum)
}

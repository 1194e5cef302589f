// The calls on whole slices, within the limits of their lengths.
ghost use Rattle.std.specs.Prelude.{◌≡◌};
ghost use Rattle.primitives.specs.Whole as Spec;
ghost use Rattle.primitives.specs.declared.hash.Algorithm.TheVariants.{Md4 as is_md4, Md5 as is_md5};

use crate::hash::{Algorithm, Hash};
use crate::hmac::Hmac;
use crate::limits;
use crate::limits::LengthError;
use crate::rc4::Rc4;

// The digest of 0 to 65,536 octets.
#[tactic(auto, using(crate::proofs::Parts::finished_digest))]
fn digest_of(algorithm: Algorithm, data: &[u8]) -> Result<[u8; 16], LengthError>
    ensures { result ≡ Spec.digested algorithm «data».now }
{
    limits::length_status(0, limits::MOST_OCTETS, data.len())?;
    Ok(Hash::new(algorithm).update(data).finish())
}

// The MD4 digest of 0 to 65,536 octets. This and `md5` differ in the algorithm alone: the C interface and the README name both.
pub fn md4(data: &[u8]) -> Result<[u8; 16], LengthError>
    ensures { result ≡ Spec.digested is_md4 «data».now }
{
    digest_of(Algorithm::Md4, data)
}

// The MD5 digest of 0 to 65,536 octets.
pub fn md5(data: &[u8]) -> Result<[u8; 16], LengthError>
    ensures { result ≡ Spec.digested is_md5 «data».now }
{
    digest_of(Algorithm::Md5, data)
}

// The HMAC-MD5 of 0 to 65,472 octets under a key of 0 to 65,536.
#[tactic(auto, using(crate::proofs::HmacParts::finished_hmac))]
pub fn hmac_md5(key: &[u8], text: &[u8]) -> Result<[u8; 16], LengthError>
    ensures { result ≡ Spec.authenticated key.now text.now }
{
    limits::length_status(0, limits::MOST_HMAC_KEY, key.len())?;
    limits::length_status(0, limits::MOST_HMAC_TEXT, text.len())?;
    Ok(Hmac::new(key).update(text).finish())
}

// RC4 over 0 to 65,536 octets under a key of 1 to 256, from the keystream's beginning.
pub fn rc4(key: &[u8], data: &mut [u8]) -> Result<(), LengthError>
    ensures { Spec.Ciphered key.now «data».old result «data».new }
{
    let cipher = Rc4::from_slice(key)?;
    limits::length_status(0, limits::MOST_OCTETS, data.len())?;
    cipher.apply(data);
    Ok(())
}

// MD4, MD5, HMAC-MD5 and RC4 for C, a function for each name that C has.
ghost use Rattle.std.specs.Prelude.{◌≡◌, replicate};
ghost use Rattle.primitives.specs.Whole.{digested, authenticated};
ghost use Rattle.primitives.specs.declared.hash.Algorithm.TheVariants.{Md4 as is_md4, Md5 as is_md5};
ghost use Rattle.rc4hmac.specs.Answers.{ValueOut};
ghost use Rattle.rc4hmac.specs.Primitives.{outcome, TextOut};

use crate::answers;
use primitives::whole;
use tokens::answer;
use tokens::answer::Refusal;

#[unsafe(no_mangle)]
pub extern "C" fn rc4hmac_md4(data: &[u8], digest: &mut [u8; 16]) -> u32
    ensures { ValueOut (outcome (digested is_md4 «data».now)) (replicate 16 0) result digest.new }
{
    answers::digest_out(whole::md4(data), digest)
}

#[unsafe(no_mangle)]
pub extern "C" fn rc4hmac_md5(data: &[u8], digest: &mut [u8; 16]) -> u32
    ensures { ValueOut (outcome (digested is_md5 «data».now)) (replicate 16 0) result digest.new }
{
    answers::digest_out(whole::md5(data), digest)
}

#[unsafe(no_mangle)]
pub extern "C" fn rc4hmac_hmac_md5(key: &[u8], text: &[u8], digest: &mut [u8; 16]) -> u32
    ensures { ValueOut (outcome (authenticated key.now text.now)) (replicate 16 0) result digest.new }
{
    answers::digest_out(whole::hmac_md5(key, text), digest)
}

#[unsafe(no_mangle)]
pub extern "C" fn rc4hmac_rc4(key: &[u8], data: &mut [u8]) -> u32
    ensures { TextOut key.now «data».old result «data».new }
{
    answer::status_number(&whole::rc4(key, data).map_err(Refusal::from))
}

// Keys, the keyed checksum and encrypted messages for C.
ghost use Rattle.std.specs.Prelude.{◌≡◌, ◌+◌, length, replicate};
ghost use Rattle.tokens.specs.Answer.{status_number, status_answer, map_ok};
ghost use Rattle.tokens.specs.Checksum.{keyed_checksum, checksum_test};
ghost use Rattle.tokens.specs.Key.{password_key};
ghost use Rattle.tokens.specs.Limits.{buffer_after};
ghost use Rattle.tokens.specs.Message.{all_octets, plain, message_length, encryption, decryption, ReadsExactly};
ghost use Rattle.rc4hmac.specs.Answers.{ValueOut};
ghost use Rattle.rc4hmac.specs.Arguments.{strength_of};

use crate::{answers, arguments};
use tokens::{answer, checksum, key, message};

#[unsafe(no_mangle)]
pub extern "C" fn rc4hmac_password_key(units: &[u16], key: &mut [u8; 16]) -> u32
    ensures { ValueOut (password_key units.now) (replicate 16 0) result key.new }
{
    answers::value_out(key::password_key(units), [0; 16], key)
}

#[unsafe(no_mangle)]
pub extern "C" fn rc4hmac_checksum(
    key: &[u8; 16],
    usage: u32,
    data: &[u8],
    checksum: &mut [u8; 16],
) -> u32
    ensures { ValueOut (keyed_checksum key.now usage «data».now) (replicate 16 0) result checksum.new }
{
    answers::value_out(checksum::checksum(*key, usage, data), [0; 16], checksum)
}

#[unsafe(no_mangle)]
pub extern "C" fn rc4hmac_checksum_test(
    key: &[u8; 16],
    usage: u32,
    data: &[u8],
    checksum: &[u8],
) -> u32
    ensures { result ≡ status_number (status_answer (checksum_test key.now usage «data».now checksum.now)) }
{
    answer::status_number(&checksum::checksum_test(*key, usage, data, checksum))
}

#[unsafe(no_mangle)]
pub extern "C" fn rc4hmac_encrypt(
    key: &[u8; 16],
    export: u32,
    usage: u32,
    confounder: &[u8; 8],
    buf: &mut [u8],
    start: usize,
    len: usize,
    wrote: &mut usize,
) -> u32
    ensures answer { ValueOut (map_ok length (encryption key.now (strength_of export) usage confounder.now buf.old start len)) 0 result wrote.new }
    ensures buffer { buf.new ≡ buffer_after all_octets start buf.old (encryption key.now (strength_of export) usage confounder.now buf.old start len) }
{
    let strength = arguments::strength_of(export);
    let written = message::encrypt(*key, strength, usage, *confounder, buf, start, len);
    answers::value_out(written, 0, wrote)
}

#[unsafe(no_mangle)]
pub extern "C" fn rc4hmac_decrypt(
    key: &[u8; 16],
    export: u32,
    usage: u32,
    buf: &mut [u8],
    start: usize,
    len: usize,
    found: &mut usize,
) -> u32
    ensures answer { ValueOut (map_ok message_length (decryption key.now (strength_of export) usage buf.old start len)) 0 result found.new }
    ensures buffer { buf.new ≡ buffer_after plain (start + 16) buf.old (decryption key.now (strength_of export) usage buf.old start len) }
    ensures exact { ReadsExactly key.now (strength_of export) usage buf.old start len result found.new buf.new }
{
    let strength = arguments::strength_of(export);
    let read = message::decrypt(*key, strength, usage, buf, start, len);
    answers::value_out(read, 0, found)
}

// The MIC token: RFC 4757, section 7.2.
//
// A region is a buffer, a start and a length, as C gives it: that it leaves its buffer is an answer of the calls.
ghost use Rattle.std.specs.Prelude.{◌≡◌, length};
ghost use Rattle.tokens.specs.Answer.{map_ok, status_number, number_found};
ghost use Rattle.tokens.specs.Limits.{buffer_after};
ghost use Rattle.tokens.specs.Message.{all_octets};
ghost use Rattle.tokens.specs.Mic as Spec;

use crate::answer::Refusal;
use crate::context::Context;
use crate::{checks, limits, octets, token};

// Octets of a MIC token.
pub const LENGTH: usize = 24;

// TOK_ID, SGN_ALG and Filler.
const HEADER: [u8; 8] = [0x01, 0x01, 0x11, 0x00, 0xff, 0xff, 0xff, 0xff];

// The message type in the checksum, the lowest octet first.
const TYPE: [u8; 4] = [15, 0, 0, 0];

// SGN_CKSUM over a text.
fn mic_checksum(context: Context, text: &[u8]) -> [u8; 8]
    ensures { result ≡ Spec.mic_checksum context text.now }
{
    let begun = token::begin_checksum(TYPE, HEADER);
    token::finish_checksum(context.key, begun.update(text))
}

// The sequence number of a token over a text.
fn mic_number(context: Context, text: &[u8], token: [u8; 24]) -> Result<u32, Refusal>
    ensures { result ≡ Spec.mic_number context text.now token }
{
    checks::equal(&token[..8], &HEADER, Refusal::Header)?;
    let sequence = token::number_in(context, token)?;
    let given = token::checksum_in(token);
    let expected = mic_checksum(context, text);
    checks::equal(&given, &expected, Refusal::Checksum)?;
    Ok(sequence)
}

// Writes the token of a sequence number over 0 to 32,768 octets of data, and returns how many octets it wrote from `start`.
pub fn mic_write(
    context: Context,
    sequence: u32,
    data: &[u8],
    buf: &mut [u8],
    start: usize,
) -> Result<usize, Refusal>
    ensures answer { result ≡ map_ok length (Spec.mic_writing context sequence «data».now buf.old start) }
    ensures buffer { buf.new ≡ buffer_after all_octets start buf.old (Spec.mic_writing context sequence «data».now buf.old start) }
{
    checks::length(0, limits::MOST_MESSAGE, data.len())?;
    checks::region(start, LENGTH, buf.len())?;
    let sum = mic_checksum(context, data);
    let token = token::front(context, HEADER, sum, sequence);
    octets::place(buf, start, &token);
    Ok(LENGTH)
}

// Reads the token in the region of `len` octets from `start`, and returns its sequence number. It is done exactly when the rule of
// section 7.2 writes the token of that number over the data as the region's octets (`exact`).
pub fn mic_read(
    context: Context,
    data: &[u8],
    buf: &[u8],
    start: usize,
    len: usize,
) -> Result<u32, Refusal>
    ensures answer { result ≡ Spec.mic_reading context «data».now buf.now start len }
    ensures exact { Spec.ReadsExactly context «data».now buf.now start len (status_number result) (number_found result) }
{
    checks::length(0, limits::MOST_MESSAGE, data.len())?;
    checks::length(LENGTH, LENGTH, len)?;
    checks::region(start, len, buf.len())?;
    mic_number(context, data, octets::array_at(buf, start))
}

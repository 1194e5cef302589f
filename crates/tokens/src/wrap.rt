// The Wrap token: RFC 4757, section 7.3.
//
// A region is a buffer, a start and a length, as C gives it: that it leaves its buffer is an answer of the calls. So are the sequence
// number, the confounder and the sealing. Inside, the confounder and the body are lent apart, as a writer is given them, and no struct
// holds them: both are changed in place.
ghost use Rattle.std.specs.Prelude.{◌≡◌, ◌++◌, ◌+◌, ◌-◌, ◌≤◌, length, take, drop};
ghost use Rattle.tokens.specs.Answer.{status_answer, status_number, map_ok, unwrapped_sequence, unwrapped_sealed, unwrapped_length};
ghost use Rattle.tokens.specs.Limits.{buffer_after};
ghost use Rattle.tokens.specs.Message.{all_octets};
ghost use Rattle.tokens.specs.Wrap as Spec;

use crate::answer::{Refusal, Unwrapped};
use crate::context::Context;
use crate::{checks, limits, octets, stream, token};

// Octets before the message.
pub const MESSAGE_AT: usize = 32;

// Octets beside the message: those before it, and the pad.
pub const OVERHEAD: usize = 33;

// Where the confounder stands.
const CONFOUNDER_AT: usize = 24;

// TOK_ID, SGN_ALG, SEAL_ALG and Filler, of a sealed token and of a clear one.
const SEALED: [u8; 8] = [0x02, 0x01, 0x11, 0x00, 0x10, 0x00, 0xff, 0xff];

const CLEAR: [u8; 8] = [0x02, 0x01, 0x11, 0x00, 0xff, 0xff, 0xff, 0xff];

// The message type in the checksum, the lowest octet first.
const TYPE: [u8; 4] = [13, 0, 0, 0];

// The pad.
const PAD: u8 = 0x01;

// The header of a sealed or a clear token.
fn header(sealed: bool) -> [u8; 8]
    ensures { result ≡ Spec.header sealed }
{
    if sealed { SEALED } else { CLEAR }
}

// Whether a token is sealed, from its first 24 octets.
fn sealed_in(front: [u8; 24]) -> Result<bool, Refusal>
    ensures { result ≡ Spec.sealed_in front }
{
    if checks::same(&front[..8], &SEALED) {
        return Ok(true);
    }
    checks::equal(&front[..8], &CLEAR, Refusal::Header)?;
    Ok(false)
}

// SGN_CKSUM over confounder and body, which are plain.
fn wrap_checksum(context: Context, sealed: bool, confounder: [u8; 8], body: &[u8]) -> [u8; 8]
    ensures { result ≡ Spec.wrap_checksum context sealed (confounder ++ body.now) }
{
    let begun = token::begin_checksum(TYPE, header(sealed));
    token::finish_checksum(context.key, begun.update(&confounder).update(body))
}

// Encrypts or decrypts confounder and body under Kcrypt, if the token is sealed.
fn under_seal(
    context: Context,
    sealed: bool,
    sequence: u32,
    confounder: &mut [u8; 8],
    body: &mut [u8],
)
    ensures { confounder.new ++ body.new ≡ Spec.under_seal context sealed sequence (confounder.old ++ body.old) }
{
    if sealed {
        stream::run(token::sealing_key(context, sequence), confounder, body);
    }
}

// Whether the checksum of confounder and body is the one that came, and the last octet is the pad. That a body has a pad is asked of it
// here and in the two functions below, and held by no type: a body is a part of the region, whose length the public calls test.
fn verify(
    context: Context,
    sealed: bool,
    sum: [u8; 8],
    confounder: [u8; 8],
    body: &[u8],
) -> Result<(), Refusal>
    requires { 1 ≤ length body.now }
    ensures { result ≡ status_answer (Spec.verified context sealed sum (confounder ++ body.now)) }
{
    let expected = wrap_checksum(context, sealed, confounder, body);
    checks::equal(&sum, &expected, Refusal::Checksum)?;
    if body[body.len() - 1] == PAD {
        Ok(())
    } else {
        Err(Refusal::Pad)
    }
}

// Writes a token over its confounder and its body, in which the message stands with one octet after it, and returns the 24 octets
// that go before them.
fn write_parts(
    context: Context,
    sequence: u32,
    confounder: &mut [u8; 8],
    sealed: bool,
    body: &mut [u8],
) -> [u8; 24]
    requires { 1 ≤ length body.old }
    ensures { result ++ (confounder.new ++ body.new) ≡ Spec.wrap_token context (Spec.parts sequence sealed confounder.old (take (length body.old - 1) body.old)) }
{
    let last = body.len() - 1;
    body[last] = PAD;
    let sum = wrap_checksum(context, sealed, *confounder, body);
    under_seal(context, sealed, sequence, confounder, body);
    token::front(context, header(sealed), sum, sequence)
}

// Opens a token of 24 octets, a confounder and a body, or leaves confounder and body as they came.
fn open_parts(
    context: Context,
    front: [u8; 24],
    confounder: &mut [u8; 8],
    body: &mut [u8],
) -> Result<Unwrapped, Refusal>
    requires { 1 ≤ length body.old }
    ensures answer { result ≡ Spec.unwrapped_answer (Spec.opened context (front ++ (confounder.old ++ body.old))) }
    ensures octets { confounder.new ++ body.new ≡ buffer_after Spec.plain 0 (confounder.old ++ body.old) (Spec.opened context (front ++ (confounder.old ++ body.old))) }
{
    let sealed = sealed_in(front)?;
    let sequence = token::number_in(context, front)?;
    under_seal(context, sealed, sequence, confounder, body);
    let length = body.len() - 1;
    match verify(
        context,
        sealed,
        token::checksum_in(front),
        *confounder,
        body,
    ) {
        Ok(()) => Ok(Unwrapped {
            sequence,
            sealed,
            length,
        }),
        Err(refusal) => {
            under_seal(context, sealed, sequence, confounder, body);
            Err(refusal)
        }
    }
}

// Writes a token over a region, in which the message stands. `MessageKey::write` puts an encrypted message together in the same way; see
// `open_token`.
fn write_token(
    context: Context,
    sequence: u32,
    mut confounder: [u8; 8],
    sealed: bool,
    region: &mut [u8],
)
    requires { 33 ≤ length region.old }
    ensures { region.new ≡ Spec.wrap_token context (Spec.parts sequence sealed confounder (take (length region.old - 33) (drop 32 region.old))) }
{
    let front = write_parts(
        context,
        sequence,
        &mut confounder,
        sealed,
        &mut region[MESSAGE_AT..],
    );
    octets::place(region, 0, &front);
    octets::place(region, CONFOUNDER_AT, &confounder);
}

// Opens the token in a region, or leaves it as it came. `MessageKey::read` takes an encrypted message apart in the same way; a function
// for both would take the step between as a closure, with its clauses.
fn open_token(context: Context, region: &mut [u8]) -> Result<Unwrapped, Refusal>
    requires { 33 ≤ length region.old }
    ensures answer { result ≡ Spec.unwrapped_answer (Spec.opened context region.old) }
    ensures octets { region.new ≡ buffer_after Spec.plain 24 region.old (Spec.opened context region.old) }
{
    let front = octets::array_at(region, 0);
    let mut confounder = octets::array_at(region, CONFOUNDER_AT);
    let answer = open_parts(context, front, &mut confounder, &mut region[MESSAGE_AT..]);
    octets::place(region, CONFOUNDER_AT, &confounder);
    answer
}

// Writes the token of the `len` octets that stand 32 after `start`, sealed or clear, and returns how many octets it wrote from
// `start`.
pub fn wrap_write(
    context: Context,
    sequence: u32,
    confounder: [u8; 8],
    sealed: bool,
    buf: &mut [u8],
    start: usize,
    len: usize,
) -> Result<usize, Refusal>
    ensures answer { result ≡ map_ok length (Spec.wrap_writing context sequence confounder sealed buf.old start len) }
    ensures buffer { buf.new ≡ buffer_after all_octets start buf.old (Spec.wrap_writing context sequence confounder sealed buf.old start len) }
{
    checks::length(0, limits::MOST_MESSAGE, len)?;
    let total = OVERHEAD + len;
    checks::region(start, total, buf.len())?;
    let region = &mut buf[start..start + total];
    write_token(context, sequence, confounder, sealed, region);
    Ok(total)
}

// Opens the token in the region of `len` octets from `start`, and returns its sequence number, whether it is sealed, and the length
// of its message. It is done exactly when the rule of section 7.3 writes some parts as the region's octets (`exact`); a region that
// is refused is left as it came.
pub fn wrap_open(
    context: Context,
    buf: &mut [u8],
    start: usize,
    len: usize,
) -> Result<Unwrapped, Refusal>
    ensures answer { result ≡ Spec.unwrapped_answer (Spec.wrap_opening context buf.old start len) }
    ensures buffer { buf.new ≡ buffer_after Spec.plain (start + 24) buf.old (Spec.wrap_opening context buf.old start len) }
    ensures exact { Spec.OpensExactly context buf.old start len (status_number result) (unwrapped_sequence result) (unwrapped_sealed result) (unwrapped_length result) buf.new }
{
    checks::length(OVERHEAD, OVERHEAD + limits::MOST_MESSAGE, len)?;
    checks::region(start, len, buf.len())?;
    open_token(context, &mut buf[start..start + len])
}

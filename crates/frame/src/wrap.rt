// The framed Wrap token: RFC 4757, section 7.3, in the frame of RFC 2743, section 3.1. Regions and parts are given as in `tokens::wrap`.
ghost use Rattle.std.specs.Prelude.{◌≡◌, length};
ghost use Rattle.tokens.specs.Answer.{map_ok, status_number, unwrapped_sequence, unwrapped_sealed, unwrapped_length};
ghost use Rattle.tokens.specs.Limits.{buffer_after};
ghost use Rattle.tokens.specs.Message.{all_octets};
ghost use Rattle.tokens.specs.Wrap.{unwrapped_answer};
ghost use Rattle.frame.specs.Wrap as Spec;

use crate::{framing, lead};
use tokens::answer::{Refusal, Unwrapped};
use tokens::context::Context;
use tokens::{checks, limits, wrap};

// How many octets stand before the token whose message has `len` octets, 0 to 32,768.
pub fn framed_wrap_lead(len: usize) -> Result<usize, Refusal>
    ensures { result ≡ map_ok length (Spec.wrap_lead len) }
{
    checks::length(0, limits::MOST_MESSAGE, len)?;
    Ok(lead::width(wrap::OVERHEAD + len))
}

// Writes the framed token of the `len` octets that stand where it has its message, 32 after `start` and the octets before the token,
// sealed or clear, and returns how many octets it wrote from `start`.
pub fn framed_wrap_write(
    context: Context,
    sequence: u32,
    confounder: [u8; 8],
    sealed: bool,
    buf: &mut [u8],
    start: usize,
    len: usize,
) -> Result<usize, Refusal>
    ensures answer { result ≡ map_ok length (Spec.framed_wrap_writing context sequence confounder sealed buf.old start len) }
    ensures buffer { buf.new ≡ buffer_after all_octets start buf.old (Spec.framed_wrap_writing context sequence confounder sealed buf.old start len) }
{
    checks::length(0, limits::MOST_MESSAGE, len)?;
    let token = wrap::OVERHEAD + len;
    let before = lead::width(token);
    let total = before + token;
    checks::region(start, total, buf.len())?;
    wrap::wrap_write(
        context,
        sequence,
        confounder,
        sealed,
        buf,
        start + before,
        len,
    )?;
    lead::write(buf, start, token);
    Ok(total)
}

// Opens the framed token in the region of `len` octets from `start`, and returns its sequence number, whether it is sealed, and the
// length of its message. It is done exactly when the rules write some parts, frame and token, as the region's octets (`exact`); a region
// that is refused is left as it came.
pub fn framed_wrap_open(
    context: Context,
    buf: &mut [u8],
    start: usize,
    len: usize,
) -> Result<Unwrapped, Refusal>
    ensures answer { result ≡ unwrapped_answer (Spec.framed_wrap_opening context buf.old start len) }
    ensures buffer { buf.new ≡ Spec.opened_buffer context buf.old start len }
    ensures exact { Spec.OpensExactly context buf.old start len (status_number result) (unwrapped_sequence result) (unwrapped_sealed result) (unwrapped_length result) buf.new }
{
    let lead = framing::lead_in(buf, start, len)?;
    wrap::wrap_open(context, buf, start + lead, len - lead)
}

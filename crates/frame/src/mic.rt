// The framed MIC token: RFC 4757, section 7.2, in the frame of RFC 2743, section 3.1. Regions are given as in `tokens::mic`.
ghost use Rattle.std.specs.Prelude.{◌≡◌, length};
ghost use Rattle.tokens.specs.Answer.{map_ok, status_number, number_found};
ghost use Rattle.tokens.specs.Limits.{buffer_after};
ghost use Rattle.tokens.specs.Message.{all_octets};
ghost use Rattle.frame.specs.Mic as Spec;

use crate::{framing, lead};
use tokens::answer::Refusal;
use tokens::context::Context;
use tokens::{checks, limits, mic};

// Writes the framed token of a sequence number over 0 to 32,768 octets of data, and returns how many octets it wrote from `start`.
pub fn framed_mic_write(
    context: Context,
    sequence: u32,
    data: &[u8],
    buf: &mut [u8],
    start: usize,
) -> Result<usize, Refusal>
    ensures answer { result ≡ map_ok length (Spec.framed_mic_writing context sequence «data».now buf.old start) }
    ensures buffer { buf.new ≡ buffer_after all_octets start buf.old (Spec.framed_mic_writing context sequence «data».now buf.old start) }
{
    checks::length(0, limits::MOST_MESSAGE, data.len())?;
    let before = lead::width(mic::LENGTH);
    let total = before + mic::LENGTH;
    checks::region(start, total, buf.len())?;
    mic::mic_write(context, sequence, data, buf, start + before)?;
    lead::write(buf, start, mic::LENGTH);
    Ok(total)
}

// Reads the framed token in the region of `len` octets from `start`, and returns its sequence number. It is done exactly when the rules
// write the framed token of that number over the data as the region's octets (`exact`).
pub fn framed_mic_read(
    context: Context,
    data: &[u8],
    buf: &[u8],
    start: usize,
    len: usize,
) -> Result<u32, Refusal>
    ensures answer { result ≡ Spec.framed_mic_reading context «data».now buf.now start len }
    ensures exact { Spec.ReadsExactly context «data».now buf.now start len (status_number result) (number_found result) }
{
    let lead = framing::lead_in(buf, start, len)?;
    mic::mic_read(context, data, buf, start + lead, len - lead)
}

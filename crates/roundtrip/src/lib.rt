// Each writer of `tokens` and of `frame` and its reader, one after the other. It is a client: what it promises is proved from their contracts and
// the published laws alone. Each kind of token has a function for each form, with its frame or without, as the writers and readers do: the clauses are
// over the definitions of each form. Regions are given as in `tokens`.
#![tactic(auto)]

ghost use Rattle.std.specs.Prelude.{◌+◌};
ghost use Rattle.frame.specs.Mic.{framed_mic_writing};
ghost use Rattle.frame.specs.Wrap.{framed_message_at, framed_wrap_writing};
ghost use Rattle.tokens.specs.Limits.{region};
ghost use Rattle.tokens.specs.Message as Message;
ghost use Rattle.tokens.specs.Mic as Mic;
ghost use Rattle.tokens.specs.Wrap as Wrap;
ghost use Rattle.roundtrip.specs.Returns.{MessageReturns, MicReturns, WrapReturns, FramedWrapReturns};

use frame::{mic as framed_mic, wrap as framed_wrap};
use tokens::answer::{Refusal, Unwrapped};
use tokens::context::Context;
use tokens::strength::Strength;
use tokens::{message, mic, wrap};

// Encrypts the `len` octets that stand 24 after `start`, and decrypts them again.
pub fn encrypt_then_decrypt(
    key: [u8; 16],
    strength: Strength,
    usage: u32,
    confounder: [u8; 8],
    buf: &mut [u8],
    start: usize,
    len: usize,
) -> Result<usize, Refusal>
    ensures { MessageReturns key strength usage (Message.encryption key strength usage confounder buf.old start len) (Message.parts confounder (region (start + 24) len buf.old)) start buf.old result buf.new }
{
    let written = message::encrypt(key, strength, usage, confounder, buf, start, len)?;
    message::decrypt(key, strength, usage, buf, start, written)
}

// Writes the MIC token of a sequence number over the data, and reads it again.
pub fn mic_then_read(
    context: Context,
    sequence: u32,
    data: &[u8],
    buf: &mut [u8],
    start: usize,
) -> Result<u32, Refusal>
    ensures { MicReturns (Mic.mic_writing context sequence «data».now buf.old start) sequence start buf.old result buf.new }
{
    let written = mic::mic_write(context, sequence, data, buf, start)?;
    mic::mic_read(context, data, buf, start, written)
}

// Writes the Wrap token of the `len` octets that stand 32 after `start`, and opens it again.
pub fn wrap_then_open(
    context: Context,
    sequence: u32,
    confounder: [u8; 8],
    sealed: bool,
    buf: &mut [u8],
    start: usize,
    len: usize,
) -> Result<Unwrapped, Refusal>
    ensures { WrapReturns context (Wrap.wrap_writing context sequence confounder sealed buf.old start len) (Wrap.parts sequence sealed confounder (region (start + 32) len buf.old)) start buf.old result buf.new }
{
    let written = wrap::wrap_write(context, sequence, confounder, sealed, buf, start, len)?;
    wrap::wrap_open(context, buf, start, written)
}

// Writes the framed MIC token of a sequence number over the data, and reads it again.
pub fn framed_mic_then_read(
    context: Context,
    sequence: u32,
    data: &[u8],
    buf: &mut [u8],
    start: usize,
) -> Result<u32, Refusal>
    ensures { MicReturns (framed_mic_writing context sequence «data».now buf.old start) sequence start buf.old result buf.new }
{
    let written = framed_mic::framed_mic_write(context, sequence, data, buf, start)?;
    framed_mic::framed_mic_read(context, data, buf, start, written)
}

// Writes the framed Wrap token of the `len` octets that stand where it has its message, and opens it again.
pub fn framed_wrap_then_open(
    context: Context,
    sequence: u32,
    confounder: [u8; 8],
    sealed: bool,
    buf: &mut [u8],
    start: usize,
    len: usize,
) -> Result<Unwrapped, Refusal>
    ensures { FramedWrapReturns context (framed_wrap_writing context sequence confounder sealed buf.old start len) (Wrap.parts sequence sealed confounder (region (framed_message_at start len) len buf.old)) start buf.old result buf.new }
{
    let written = framed_wrap::framed_wrap_write(
        context, sequence, confounder, sealed, buf, start, len,
    )?;
    framed_wrap::framed_wrap_open(context, buf, start, written)
}

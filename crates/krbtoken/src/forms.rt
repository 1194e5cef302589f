// Tokens in the two forms that the library has: as they are, or in the frame that they travel in.
use frame::{mic as framed_mic, wrap as framed_wrap};
use tokens::answer::{Refusal, Unwrapped};
use tokens::context::Context;
use tokens::{mic, wrap};

// What is put in a Wrap token beside its message.
#[derive(Clone, Copy)]
pub struct Parts {
    pub context: Context,
    pub sequence: u32,
    pub confounder: [u8; 8],
    pub sealed: bool,
}

// Each verb chooses between its two instances by an `if`: a closure can't take a type, so no function can make the choice for all.
pub trait Form {
    // How many octets stand before the Wrap token of a message of n octets. A message that is too long is refused.
    fn wrap_lead(n: usize) -> Result<usize, Refusal>;

    // Writes the Wrap token of n octets from `start`, and returns how long it is.
    fn wrap_write(parts: Parts, buf: &mut [u8], start: usize, n: usize) -> Result<usize, Refusal>;

    // Opens a Wrap token where it stands.
    fn wrap_open(context: Context, token: &mut [u8]) -> Result<Unwrapped, Refusal>;

    // Writes the MIC token over some data at the front of a buffer, and returns how long it is.
    fn mic_write(
        context: Context,
        sequence: u32,
        data: &[u8],
        buf: &mut [u8],
    ) -> Result<usize, Refusal>;

    // Reads the sequence number of a MIC token over some data.
    fn mic_read(context: Context, data: &[u8], token: &[u8]) -> Result<u32, Refusal>;
}

pub struct Bare;

pub struct Framed;

impl Form for Bare {
    fn wrap_lead(_n: usize) -> Result<usize, Refusal> {
        Ok(0)
    }

    fn wrap_write(parts: Parts, buf: &mut [u8], start: usize, n: usize) -> Result<usize, Refusal> {
        wrap::wrap_write(
            parts.context,
            parts.sequence,
            parts.confounder,
            parts.sealed,
            buf,
            start,
            n,
        )
    }

    fn wrap_open(context: Context, token: &mut [u8]) -> Result<Unwrapped, Refusal> {
        let n = token.len();
        wrap::wrap_open(context, token, 0, n)
    }

    fn mic_write(
        context: Context,
        sequence: u32,
        data: &[u8],
        buf: &mut [u8],
    ) -> Result<usize, Refusal> {
        mic::mic_write(context, sequence, data, buf, 0)
    }

    fn mic_read(context: Context, data: &[u8], token: &[u8]) -> Result<u32, Refusal> {
        mic::mic_read(context, data, token, 0, token.len())
    }
}

impl Form for Framed {
    fn wrap_lead(n: usize) -> Result<usize, Refusal> {
        framed_wrap::framed_wrap_lead(n)
    }

    fn wrap_write(parts: Parts, buf: &mut [u8], start: usize, n: usize) -> Result<usize, Refusal> {
        framed_wrap::framed_wrap_write(
            parts.context,
            parts.sequence,
            parts.confounder,
            parts.sealed,
            buf,
            start,
            n,
        )
    }

    fn wrap_open(context: Context, token: &mut [u8]) -> Result<Unwrapped, Refusal> {
        let n = token.len();
        framed_wrap::framed_wrap_open(context, token, 0, n)
    }

    fn mic_write(
        context: Context,
        sequence: u32,
        data: &[u8],
        buf: &mut [u8],
    ) -> Result<usize, Refusal> {
        framed_mic::framed_mic_write(context, sequence, data, buf, 0)
    }

    fn mic_read(context: Context, data: &[u8], token: &[u8]) -> Result<u32, Refusal> {
        framed_mic::framed_mic_read(context, data, token, 0, token.len())
    }
}

// Tokens received into a window: a token is read, and the sequence number that it presents is billed. A token that is refused never
// reaches the window. Regions are given as in `tokens`. There is a function for each kind of token and for each form, with its frame or
// without: C names all four, and their clauses are over four different definitions.
ghost use Rattle.std.specs.Prelude.{◌≡◌, ◌+◌};
ghost use Rattle.tokens.specs.Answer.{status_number, number_found, unwrapped_sequence, unwrapped_sealed, unwrapped_length};
ghost use Rattle.tokens.specs.Limits.{buffer_after};
ghost use Rattle.tokens.specs.Mic.{mic_reading, ReadsExactly};
ghost use Rattle.tokens.specs.Wrap.{plain, wrap_opening, unwrapped_answer, OpensExactly};
ghost use Rattle.frame.specs.Mic as FramedMic;
ghost use Rattle.frame.specs.Wrap as FramedWrap;
ghost use Rattle.billing.specs.Receive as Spec;

use crate::status::Status;
use crate::window::{Receipt, Window};
use frame::{mic as framed_mic, wrap as framed_wrap};
use tokens::answer::{Refusal, Unwrapped};
use tokens::context::Context;
use tokens::{mic, wrap};

// The status of a received token's number, and the window after it. A refused token has no status.
#[derive(Clone, Copy, Debug, PartialEq, Eq)]
pub struct Received {
    pub status: Option<Status>,
    pub window: Window,
}

impl Received {
    // The number of the status that C is given, 0 where there is none. It is a method, as `Status::number` is.
    pub fn number(self) -> u32
        ensures { result ≡ Spec.number self.status }
    {
        self.status.map_or(0, Status::number)
    }

    // Whether the number was billed.
    pub fn is_billed(self) -> bool
        ensures { result ≡ Spec.is_billed self.status }
    {
        self.status.is_some_and(Status::is_billed)
    }
}

// What a token holds, or why it is refused, and what came of its number. The window stands beside the refusal, so that the caller has one
// in any case.
#[derive(Clone, Copy, Debug, PartialEq, Eq)]
pub struct ReceivedToken<T> {
    pub token: Result<T, Refusal>,
    pub received: Received,
}

// The sequence number that a Wrap token presents, if it opened.
pub fn presented_by(token: Result<Unwrapped, Refusal>) -> Result<u32, Refusal>
    ensures { result ≡ Spec.presented_by token }
{
    token.map(|unwrapped| unwrapped.sequence)
}

// Bills the sequence number that a token presents. A refused token has no status, and the window is as it was.
pub fn receive(window: Window, token: Result<u32, Refusal>) -> Received
    ensures { result ≡ Spec.received window token }
{
    match token {
        Ok(sequence) => {
            let Receipt { status, window } = window.bill(sequence);
            Received {
                status: Some(status),
                window,
            }
        }
        Err(_) => Received {
            status: None,
            window,
        },
    }
}

// Opens the Wrap token in the region of `len` octets from `start`, as `wrap_open` does, and bills its sequence number.
pub fn receive_wrap(
    window: Window,
    context: Context,
    buf: &mut [u8],
    start: usize,
    len: usize,
) -> ReceivedToken<Unwrapped>
    ensures answer { result.token ≡ unwrapped_answer (wrap_opening context buf.old start len) }
    ensures buffer { buf.new ≡ buffer_after plain (start + 24) buf.old (wrap_opening context buf.old start len) }
    ensures exact { OpensExactly context buf.old start len (status_number result.token) (unwrapped_sequence result.token) (unwrapped_sealed result.token) (unwrapped_length result.token) buf.new }
    ensures billing { result.received ≡ Spec.received window (Spec.presented_by result.token) }
{
    let token = wrap::wrap_open(context, buf, start, len);
    ReceivedToken {
        token,
        received: receive(window, presented_by(token)),
    }
}

// Reads the MIC token in the region of `len` octets from `start`, as `mic_read` does, and bills its sequence number.
pub fn receive_mic(
    window: Window,
    context: Context,
    data: &[u8],
    buf: &[u8],
    start: usize,
    len: usize,
) -> ReceivedToken<u32>
    ensures answer { result.token ≡ mic_reading context «data».now buf.now start len }
    ensures exact { ReadsExactly context «data».now buf.now start len (status_number result.token) (number_found result.token) }
    ensures billing { result.received ≡ Spec.received window result.token }
{
    let token = mic::mic_read(context, data, buf, start, len);
    ReceivedToken {
        token,
        received: receive(window, token),
    }
}

// Opens the framed Wrap token in the region of `len` octets from `start`, as `framed_wrap_open` does, and bills its sequence number.
pub fn receive_framed_wrap(
    window: Window,
    context: Context,
    buf: &mut [u8],
    start: usize,
    len: usize,
) -> ReceivedToken<Unwrapped>
    ensures answer { result.token ≡ unwrapped_answer (FramedWrap.framed_wrap_opening context buf.old start len) }
    ensures buffer { buf.new ≡ FramedWrap.opened_buffer context buf.old start len }
    ensures exact { FramedWrap.OpensExactly context buf.old start len (status_number result.token) (unwrapped_sequence result.token) (unwrapped_sealed result.token) (unwrapped_length result.token) buf.new }
    ensures billing { result.received ≡ Spec.received window (Spec.presented_by result.token) }
{
    let token = framed_wrap::framed_wrap_open(context, buf, start, len);
    ReceivedToken {
        token,
        received: receive(window, presented_by(token)),
    }
}

// Reads the framed MIC token in the region of `len` octets from `start`, as `framed_mic_read` does, and bills its sequence number.
pub fn receive_framed_mic(
    window: Window,
    context: Context,
    data: &[u8],
    buf: &[u8],
    start: usize,
    len: usize,
) -> ReceivedToken<u32>
    ensures answer { result.token ≡ FramedMic.framed_mic_reading context «data».now buf.now start len }
    ensures exact { FramedMic.ReadsExactly context «data».now buf.now start len (status_number result.token) (number_found result.token) }
    ensures billing { result.received ≡ Spec.received window result.token }
{
    let token = framed_mic::framed_mic_read(context, data, buf, start, len);
    ReceivedToken {
        token,
        received: receive(window, token),
    }
}

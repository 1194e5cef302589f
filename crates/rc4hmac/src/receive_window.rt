// The receive window for C: numbers handed in, and tokens received, with their frame or without: C has a
// name for each.
ghost use Rattle.std.specs.Prelude.{◌≡◌, ◌+◌, Ok};
ghost use Rattle.billing.specs.Receive.{presented_by, received};
ghost use Rattle.billing.specs.Window.{new_window, missing as missing_in};
ghost use Rattle.frame.specs.Mic as FramedMic;
ghost use Rattle.frame.specs.Wrap as FramedWrap;
ghost use Rattle.tokens.specs.Limits.{buffer_after};
ghost use Rattle.tokens.specs.Mic.{mic_reading, ReadsExactly};
ghost use Rattle.tokens.specs.Wrap.{plain, wrap_opening, unwrapped_answer, OpensExactly};
ghost use Rattle.rc4hmac.specs.Answers.{window_words, ValueOut, UnwrappedOut, ReceivedOut};
ghost use Rattle.rc4hmac.specs.Arguments.{is_yes, context_of, window_of};

use crate::{answers, arguments};
use billing::receive;
use billing::receive::ReceivedToken;
use billing::window::Window;

#[unsafe(no_mangle)]
pub extern "C" fn rc4hmac_window_new(first: u32, window: &mut [u64; 4]) -> u32
    ensures answer { result ≡ 0 }
    ensures window { window.new ≡ window_words (new_window first) }
{
    answers::window_out(Window::new(first), window);
    0
}

#[unsafe(no_mangle)]
pub extern "C" fn rc4hmac_window_bill(window: &mut [u64; 4], sequence: u32, status: &mut u32) -> u32
    ensures answer { result ≡ 0 }
    ensures billing { ReceivedOut (received (window_of window.old) (Ok sequence)) window.old window.new status.new }
{
    let came = arguments::window_of(window);
    answers::received_out(receive::receive(came, Ok(sequence)), window, status);
    0
}

#[unsafe(no_mangle)]
pub extern "C" fn rc4hmac_window_missing(window: &[u64; 4], missing: &mut u32) -> u32
    ensures answer { result ≡ 0 }
    ensures missing { missing.new ≡ missing_in (window_of window.now) }
{
    *missing = arguments::window_of(window).missing();
    0
}

#[unsafe(no_mangle)]
pub extern "C" fn rc4hmac_receive_wrap(
    window: &mut [u64; 4],
    key: &[u8; 16],
    export: u32,
    acceptor: u32,
    buf: &mut [u8],
    start: usize,
    len: usize,
    sequence: &mut u32,
    sealed: &mut u32,
    found: &mut usize,
    status: &mut u32,
) -> u32
    ensures answer { UnwrappedOut (unwrapped_answer (wrap_opening (context_of key.now export acceptor) buf.old start len)) result sequence.new sealed.new found.new }
    ensures buffer { buf.new ≡ buffer_after plain (start + 24) buf.old (wrap_opening (context_of key.now export acceptor) buf.old start len) }
    ensures exact { OpensExactly (context_of key.now export acceptor) buf.old start len result sequence.new (is_yes sealed.new) found.new buf.new }
    ensures billing { ReceivedOut (received (window_of window.old) (presented_by (unwrapped_answer (wrap_opening (context_of key.now export acceptor) buf.old start len)))) window.old window.new status.new }
{
    let context = arguments::context_of(key, export, acceptor);
    let came = arguments::window_of(window);
    let ReceivedToken { token, received } = receive::receive_wrap(came, context, buf, start, len);
    answers::received_out(received, window, status);
    answers::unwrapped_out(token, sequence, sealed, found)
}

#[unsafe(no_mangle)]
pub extern "C" fn rc4hmac_receive_mic(
    window: &mut [u64; 4],
    key: &[u8; 16],
    export: u32,
    acceptor: u32,
    data: &[u8],
    buf: &[u8],
    start: usize,
    len: usize,
    sequence: &mut u32,
    status: &mut u32,
) -> u32
    ensures answer { ValueOut (mic_reading (context_of key.now export acceptor) «data».now buf.now start len) 0 result sequence.new }
    ensures exact { ReadsExactly (context_of key.now export acceptor) «data».now buf.now start len result sequence.new }
    ensures billing { ReceivedOut (received (window_of window.old) (mic_reading (context_of key.now export acceptor) «data».now buf.now start len)) window.old window.new status.new }
{
    let context = arguments::context_of(key, export, acceptor);
    let came = arguments::window_of(window);
    let ReceivedToken { token, received } = receive::receive_mic(
        came, context, data, buf, start, len,
    );
    answers::received_out(received, window, status);
    answers::value_out(token, 0, sequence)
}

#[unsafe(no_mangle)]
pub extern "C" fn rc4hmac_receive_framed_wrap(
    window: &mut [u64; 4],
    key: &[u8; 16],
    export: u32,
    acceptor: u32,
    buf: &mut [u8],
    start: usize,
    len: usize,
    sequence: &mut u32,
    sealed: &mut u32,
    found: &mut usize,
    status: &mut u32,
) -> u32
    ensures answer { UnwrappedOut (unwrapped_answer (FramedWrap.framed_wrap_opening (context_of key.now export acceptor) buf.old start len)) result sequence.new sealed.new found.new }
    ensures buffer { buf.new ≡ FramedWrap.opened_buffer (context_of key.now export acceptor) buf.old start len }
    ensures exact { FramedWrap.OpensExactly (context_of key.now export acceptor) buf.old start len result sequence.new (is_yes sealed.new) found.new buf.new }
    ensures billing { ReceivedOut (received (window_of window.old) (presented_by (unwrapped_answer (FramedWrap.framed_wrap_opening (context_of key.now export acceptor) buf.old start len)))) window.old window.new status.new }
{
    let context = arguments::context_of(key, export, acceptor);
    let came = arguments::window_of(window);
    let ReceivedToken { token, received } = receive::receive_framed_wrap(
        came, context, buf, start, len,
    );
    answers::received_out(received, window, status);
    answers::unwrapped_out(token, sequence, sealed, found)
}

#[unsafe(no_mangle)]
pub extern "C" fn rc4hmac_receive_framed_mic(
    window: &mut [u64; 4],
    key: &[u8; 16],
    export: u32,
    acceptor: u32,
    data: &[u8],
    buf: &[u8],
    start: usize,
    len: usize,
    sequence: &mut u32,
    status: &mut u32,
) -> u32
    ensures answer { ValueOut (FramedMic.framed_mic_reading (context_of key.now export acceptor) «data».now buf.now start len) 0 result sequence.new }
    ensures exact { FramedMic.ReadsExactly (context_of key.now export acceptor) «data».now buf.now start len result sequence.new }
    ensures billing { ReceivedOut (received (window_of window.old) (FramedMic.framed_mic_reading (context_of key.now export acceptor) «data».now buf.now start len)) window.old window.new status.new }
{
    let context = arguments::context_of(key, export, acceptor);
    let came = arguments::window_of(window);
    let ReceivedToken { token, received } = receive::receive_framed_mic(
        came, context, data, buf, start, len,
    );
    answers::received_out(received, window, status);
    answers::value_out(token, 0, sequence)
}

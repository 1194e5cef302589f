// Framed MIC and Wrap tokens for C, which has a name for each form; so has `gss_tokens` for tokens without a frame.
ghost use Rattle.std.specs.Prelude.{◌≡◌, length};
ghost use Rattle.tokens.specs.Answer.{map_ok};
ghost use Rattle.tokens.specs.Limits.{buffer_after};
ghost use Rattle.tokens.specs.Message.{all_octets};
ghost use Rattle.tokens.specs.Wrap.{unwrapped_answer};
ghost use Rattle.frame.specs.Mic.{framed_mic_writing, framed_mic_reading, ReadsExactly};
ghost use Rattle.frame.specs.Wrap.{wrap_lead, framed_wrap_writing, framed_wrap_opening, opened_buffer, OpensExactly};
ghost use Rattle.rc4hmac.specs.Answers.{ValueOut, UnwrappedOut};
ghost use Rattle.rc4hmac.specs.Arguments.{is_yes, context_of};

use crate::{answers, arguments};
use frame::{mic, wrap};

#[unsafe(no_mangle)]
pub extern "C" fn rc4hmac_framed_mic_write(
    key: &[u8; 16],
    export: u32,
    acceptor: u32,
    sequence: u32,
    data: &[u8],
    buf: &mut [u8],
    start: usize,
    wrote: &mut usize,
) -> u32
    ensures answer { ValueOut (map_ok length (framed_mic_writing (context_of key.now export acceptor) sequence «data».now buf.old start)) 0 result wrote.new }
    ensures buffer { buf.new ≡ buffer_after all_octets start buf.old (framed_mic_writing (context_of key.now export acceptor) sequence «data».now buf.old start) }
{
    let context = arguments::context_of(key, export, acceptor);
    let written = mic::framed_mic_write(context, sequence, data, buf, start);
    answers::value_out(written, 0, wrote)
}

#[unsafe(no_mangle)]
pub extern "C" fn rc4hmac_framed_mic_read(
    key: &[u8; 16],
    export: u32,
    acceptor: u32,
    data: &[u8],
    buf: &[u8],
    start: usize,
    len: usize,
    sequence: &mut u32,
) -> u32
    ensures answer { ValueOut (framed_mic_reading (context_of key.now export acceptor) «data».now buf.now start len) 0 result sequence.new }
    ensures exact { ReadsExactly (context_of key.now export acceptor) «data».now buf.now start len result sequence.new }
{
    let context = arguments::context_of(key, export, acceptor);
    let read = mic::framed_mic_read(context, data, buf, start, len);
    answers::value_out(read, 0, sequence)
}

#[unsafe(no_mangle)]
pub extern "C" fn rc4hmac_framed_wrap_lead(len: usize, lead: &mut usize) -> u32
    ensures { ValueOut (map_ok length (wrap_lead len)) 0 result lead.new }
{
    answers::value_out(wrap::framed_wrap_lead(len), 0, lead)
}

#[unsafe(no_mangle)]
pub extern "C" fn rc4hmac_framed_wrap_write(
    key: &[u8; 16],
    export: u32,
    acceptor: u32,
    sequence: u32,
    confounder: &[u8; 8],
    sealed: u32,
    buf: &mut [u8],
    start: usize,
    len: usize,
    wrote: &mut usize,
) -> u32
    ensures answer { ValueOut (map_ok length (framed_wrap_writing (context_of key.now export acceptor) sequence confounder.now (is_yes sealed) buf.old start len)) 0 result wrote.new }
    ensures buffer { buf.new ≡ buffer_after all_octets start buf.old (framed_wrap_writing (context_of key.now export acceptor) sequence confounder.now (is_yes sealed) buf.old start len) }
{
    let context = arguments::context_of(key, export, acceptor);
    let seal = arguments::is_yes(sealed);
    let written = wrap::framed_wrap_write(context, sequence, *confounder, seal, buf, start, len);
    answers::value_out(written, 0, wrote)
}

#[unsafe(no_mangle)]
pub extern "C" fn rc4hmac_framed_wrap_open(
    key: &[u8; 16],
    export: u32,
    acceptor: u32,
    buf: &mut [u8],
    start: usize,
    len: usize,
    sequence: &mut u32,
    sealed: &mut u32,
    found: &mut usize,
) -> u32
    ensures answer { UnwrappedOut (unwrapped_answer (framed_wrap_opening (context_of key.now export acceptor) buf.old start len)) result sequence.new sealed.new found.new }
    ensures buffer { buf.new ≡ opened_buffer (context_of key.now export acceptor) buf.old start len }
    ensures exact { OpensExactly (context_of key.now export acceptor) buf.old start len result sequence.new (is_yes sealed.new) found.new buf.new }
{
    let context = arguments::context_of(key, export, acceptor);
    let opened = wrap::framed_wrap_open(context, buf, start, len);
    answers::unwrapped_out(opened, sequence, sealed, found)
}

// MIC and Wrap tokens for C, without their frame; `framed_tokens` has the names for tokens with it.
ghost use Rattle.std.specs.Prelude.{◌≡◌, ◌+◌, length};
ghost use Rattle.tokens.specs.Answer.{map_ok};
ghost use Rattle.tokens.specs.Limits.{buffer_after};
ghost use Rattle.tokens.specs.Message.{all_octets};
ghost use Rattle.tokens.specs.Mic.{mic_writing, mic_reading, ReadsExactly};
ghost use Rattle.tokens.specs.Wrap.{plain, wrap_writing, wrap_opening, unwrapped_answer, OpensExactly};
ghost use Rattle.rc4hmac.specs.Answers.{ValueOut, UnwrappedOut};
ghost use Rattle.rc4hmac.specs.Arguments.{is_yes, context_of};

use crate::{answers, arguments};
use tokens::{mic, wrap};

#[unsafe(no_mangle)]
pub extern "C" fn rc4hmac_mic_write(
    key: &[u8; 16],
    export: u32,
    acceptor: u32,
    sequence: u32,
    data: &[u8],
    buf: &mut [u8],
    start: usize,
    wrote: &mut usize,
) -> u32
    ensures answer { ValueOut (map_ok length (mic_writing (context_of key.now export acceptor) sequence «data».now buf.old start)) 0 result wrote.new }
    ensures buffer { buf.new ≡ buffer_after all_octets start buf.old (mic_writing (context_of key.now export acceptor) sequence «data».now buf.old start) }
{
    let context = arguments::context_of(key, export, acceptor);
    let written = mic::mic_write(context, sequence, data, buf, start);
    answers::value_out(written, 0, wrote)
}

#[unsafe(no_mangle)]
pub extern "C" fn rc4hmac_mic_read(
    key: &[u8; 16],
    export: u32,
    acceptor: u32,
    data: &[u8],
    buf: &[u8],
    start: usize,
    len: usize,
    sequence: &mut u32,
) -> u32
    ensures answer { ValueOut (mic_reading (context_of key.now export acceptor) «data».now buf.now start len) 0 result sequence.new }
    ensures exact { ReadsExactly (context_of key.now export acceptor) «data».now buf.now start len result sequence.new }
{
    let context = arguments::context_of(key, export, acceptor);
    let read = mic::mic_read(context, data, buf, start, len);
    answers::value_out(read, 0, sequence)
}

#[unsafe(no_mangle)]
pub extern "C" fn rc4hmac_wrap_write(
    key: &[u8; 16],
    export: u32,
    acceptor: u32,
    sequence: u32,
    confounder: &[u8; 8],
    sealed: u32,
    buf: &mut [u8],
    start: usize,
    len: usize,
    wrote: &mut usize,
) -> u32
    ensures answer { ValueOut (map_ok length (wrap_writing (context_of key.now export acceptor) sequence confounder.now (is_yes sealed) buf.old start len)) 0 result wrote.new }
    ensures buffer { buf.new ≡ buffer_after all_octets start buf.old (wrap_writing (context_of key.now export acceptor) sequence confounder.now (is_yes sealed) buf.old start len) }
{
    let context = arguments::context_of(key, export, acceptor);
    let seal = arguments::is_yes(sealed);
    let written = wrap::wrap_write(context, sequence, *confounder, seal, buf, start, len);
    answers::value_out(written, 0, wrote)
}

#[unsafe(no_mangle)]
pub extern "C" fn rc4hmac_wrap_open(
    key: &[u8; 16],
    export: u32,
    acceptor: u32,
    buf: &mut [u8],
    start: usize,
    len: usize,
    sequence: &mut u32,
    sealed: &mut u32,
    found: &mut usize,
) -> u32
    ensures answer { UnwrappedOut (unwrapped_answer (wrap_opening (context_of key.now export acceptor) buf.old start len)) result sequence.new sealed.new found.new }
    ensures buffer { buf.new ≡ buffer_after plain (start + 24) buf.old (wrap_opening (context_of key.now export acceptor) buf.old start len) }
    ensures exact { OpensExactly (context_of key.now export acceptor) buf.old start len result sequence.new (is_yes sealed.new) found.new buf.new }
{
    let context = arguments::context_of(key, export, acceptor);
    let opened = wrap::wrap_open(context, buf, start, len);
    answers::unwrapped_out(opened, sequence, sealed, found)
}

// What is read: standard input and files, to their ends.
ghost use Rattle.std.specs.Prelude.{◌≡◌, ◌≤◌, length, take, IfOk};

use crate::failure::WrongUse;
use std::io;
use std::io::Read;

// Octets of a buffer for a token, a message or data: one more than the most that is read.
pub const BUFFER: usize = 65537;

// What is told if standard input can't be read.
pub const UNREADABLE: &str = "standard input can't be read";

// Says that standard input can't be read.
pub fn unreadable(error: io::Error) -> WrongUse {
    WrongUse::Io(UNREADABLE, error)
}

// Reads until the input ends, and returns the octets that were read. An input that fills the buffer is too long.
pub fn read<'a>(
    from: &mut impl Read,
    buf: &'a mut [u8],
    too_long: &'static str,
    unreadable: &'static str,
) -> Result<&'a mut [u8], WrongUse>
    ensures { IfOk result (λ octets. length octets.now ≤ length buf.old) }
{
    // `read_exact` refuses an input that is shorter than the buffer, and `read_to_end` needs the heap.
    let mut n: usize = 0;
    while n < buf.len() {
        match from.read(&mut buf[n..]) {
            Ok(0) => return Ok(&mut buf[..n]),
            Ok(more) => n += more,
            Err(error) => return Err(WrongUse::Io(unreadable, error)),
        }
    }
    Err(WrongUse::Input(too_long))
}

// Reads standard input, of at most 65,536 octets.
pub fn standard(rt: HostRuntime, buf: &mut [u8]) -> Result<&mut [u8], WrongUse>
    ensures { IfOk result (λ octets. length octets.now ≤ length buf.old) }
{
    read(
        &mut rt.stdin(),
        buf,
        "standard input is too long: expected at most 65536 octets",
        UNREADABLE,
    )
}

// A text without one closing newline.
pub fn without_newline(text: &[u8]) -> &[u8]
    ensures { result.now ≡ take (length result.now) text.now }
{
    text.strip_suffix(b"\n").unwrap_or(text)
}

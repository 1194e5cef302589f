// How the answers of the calls are written. That a line could not be written is left to the comparison with the file `stdout`.
use crate::words;
use std::fmt;
use std::fmt::Display;
use text::hex::Hex;
use tokens::answer::{Refusal, Unwrapped, status_number};

// Sixteen octets.
#[derive(Clone, Copy, Default)]
pub struct Digest(pub [u8; 16]);

impl Display for Digest {
    fn fmt<W: fmt::Write>(&self, f: &mut fmt::Formatter<W>) -> fmt::Result {
        write!(f, "{}", Hex(&self.0))
    }
}

// What an opened Wrap token holds.
#[derive(Clone, Copy, Default)]
pub struct Opened(pub Unwrapped);

impl Display for Opened {
    fn fmt<W: fmt::Write>(&self, f: &mut fmt::Formatter<W>) -> fmt::Result {
        let Unwrapped {
            sequence,
            sealed,
            length,
        } = self.0;
        write!(f, "{sequence} {} {length}", words::seal(sealed))
    }
}

// The number of a refusal, or 0, and what the call gives. A refused call has zeros for it.
#[derive(Clone, Copy)]
pub struct Answer<T>(pub Result<T, Refusal>);

impl<T: Copy + Default + Display> Display for Answer<T> {
    fn fmt<W: fmt::Write>(&self, f: &mut fmt::Formatter<W>) -> fmt::Result {
        write!(
            f,
            "{} {}",
            status_number(&self.0),
            self.0.unwrap_or_default()
        )
    }
}

// The answer of a call on a buffer, and whether it left the buffer as it was.
#[derive(Clone, Copy)]
pub struct OnBuffer<T> {
    answer: Answer<T>,
    unchanged: bool,
}

impl<T: Copy> OnBuffer<T> {
    pub fn of<const N: usize, F: FnOnce(&mut [u8]) -> Result<T, Refusal>>(
        before: [u8; N],
        call: F,
    ) -> OnBuffer<T>
        requires { F.IsAlwaysCallable call }
    {
        let mut buf = before;
        let answer = Answer(call(&mut buf));
        OnBuffer {
            answer,
            unchanged: buf == before,
        }
    }
}

impl<T: Copy + Default + Display> Display for OnBuffer<T> {
    fn fmt<W: fmt::Write>(&self, f: &mut fmt::Formatter<W>) -> fmt::Result {
        let state = if self.unchanged {
            "unchanged"
        } else {
            "changed"
        };
        write!(f, "{} {state}", self.answer)
    }
}

// How the answers of the calls are written.
use primitives::limits::LengthError;
use std::fmt;
use std::fmt::Display;
use text::hex::Hex;
use tokens::answer;
use tokens::answer::Refusal;

// The number of a call's status: 0, or that of a length outside the limits.
pub fn status<T: Copy>(answer: Result<T, LengthError>) -> u32 {
    answer::status_number(&answer.map_err(Refusal::from))
}

// A digest after the number of its status. A refused call has zeros for it.
#[derive(Clone, Copy)]
pub struct Digest(pub Result<[u8; 16], LengthError>);

impl Display for Digest {
    fn fmt<W: fmt::Write>(&self, f: &mut fmt::Formatter<W>) -> fmt::Result {
        let octets = self.0.unwrap_or_default();
        write!(f, "{} {}", status(self.0), Hex(&octets))
    }
}

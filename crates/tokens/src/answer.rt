// Why a call is refused, and what an opened Wrap token holds. `specs/Answer.antt` has the number and the words of each refusal.
ghost use Rattle.std.specs.Prelude.{◌≡◌, Some};
ghost use Rattle.tokens.specs.Answer as Spec;
ghost use Rattle.tokens.specs.declared.answer.Refusal.TheVariants.{Length};

use primitives::limits::LengthError;
use std::error::Error;
use std::fmt;

// Why a call is refused: every number that a call of any crate returns, in their order; 8 is not used. docs/RULES.md says when each is
// given.
#[derive(Clone, Copy, Debug, PartialEq, Eq)]
pub enum Refusal {
    Length = 1,
    Region = 2,
    Usage = 3,
    Header = 4,
    Direction = 5,
    Checksum = 6,
    Pad = 7,
    Frame = 9,
}

impl Refusal {
    // The number that a caller is given. It is a method, which docs/DECISIONS.md (36) names, and no `From`.
    pub fn number(self) -> u32
        ensures { result ≡ Spec.number self }
    {
        self as u32
    }
}

// The number of the refusal, or 0.
pub fn status_number<T>(answer: &Result<T, Refusal>) -> u32
    ensures { result ≡ Spec.status_number answer.now }
{
    match answer {
        Ok(_) => 0,
        Err(refusal) => refusal.number(),
    }
}

impl fmt::Display for Refusal {
    ghost output = { λ refusal. Some (Spec.words refusal) };

    fn fmt<W: fmt::Write>(&self, f: &mut fmt::Formatter<W>) -> fmt::Result {
        f.write_str(match self {
            Refusal::Length => "a length is outside the limits",
            Refusal::Region => "the region does not lie inside the buffer",
            Refusal::Usage => "the usage is not 1 to 15",
            Refusal::Header => "the first eight octets are not a header of this kind of token",
            Refusal::Direction =>
                "the direction octets are not those of the expected sender; a wrong key or strength shows so too",
            Refusal::Checksum => "the checksum differs",
            Refusal::Pad => "the last octet of the opened token is not 01",
            Refusal::Frame => "not one whole frame",
        })
    }
}

impl Error for Refusal {}

// A length outside the limits of the primitives is the refusal of a length.
impl From<LengthError> for Refusal {
    ghost from_gives = { λ _ refusal. refusal ≡ Length };

    fn from(_: LengthError) -> Self {
        Self::Length
    }
}

// What a Wrap token holds beside its octets: its sequence number, whether it is sealed, and how long its message is.
#[derive(Clone, Copy, Debug, Default, PartialEq, Eq)]
pub struct Unwrapped {
    pub sequence: u32,
    pub sealed: bool,
    pub length: usize,
}

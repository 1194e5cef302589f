// The lengths that the calls take, and the error of a call that can refuse one.
ghost use Rattle.std.specs.Prelude.{◌≡◌, Some, codes};
ghost use Rattle.primitives.specs.Limits.{length_status};

use std::error::Error;
use std::fmt;

// The most octets to digest, or to run through RC4.
pub const MOST_OCTETS: usize = 65536;

pub const MOST_HMAC_KEY: usize = 65536;

pub const MOST_HMAC_TEXT: usize = 65472;

pub const LEAST_RC4_KEY: usize = 1;

pub const MOST_RC4_KEY: usize = 256;

// A length outside the limits, which is all that a call of this crate can refuse.
#[derive(Clone, Copy, Debug, PartialEq, Eq)]
pub struct LengthError;

impl fmt::Display for LengthError {
    ghost output = { λ _. Some (codes "a length is outside the limits") };

    fn fmt<W: fmt::Write>(&self, f: &mut fmt::Formatter<W>) -> fmt::Result {
        f.write_str("a length is outside the limits")
    }
}

impl Error for LengthError {}

// Whether a length lies from `least` to `most`.
pub fn length_status(least: usize, most: usize, n: usize) -> Result<(), LengthError>
    ensures { result ≡ length_status least most n }
{
    if (least..=most).contains(&n) {
        Ok(())
    } else {
        Err(LengthError)
    }
}

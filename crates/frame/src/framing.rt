// The outer frame: RFC 2743, section 3.1. The tag, the length, the mechanism, and then the token.
ghost use Rattle.std.specs.Prelude.{◌≡◌};
ghost use Rattle.frame.specs.Framing as Spec;

use crate::length;
use crate::length::Contents;
use tokens::answer::Refusal;
use tokens::checks;

// What stands at the front of some octets: a frame, with so many octets before its token and so many in it; the beginning of a frame, of
// which more is needed; or neither, whatever follows.
#[derive(Clone, Copy, Debug, PartialEq, Eq)]
pub enum Framing {
    Token { lead: usize, length: usize },
    Incomplete,
    Fault,
}

// The tag: [APPLICATION 0], constructed.
pub const TAG: u8 = 0x60;

// The object identifier of the mechanism, with its own tag and length.
pub const MECHANISM: [u8; 11] = [
    0x06, 0x09, 0x2a, 0x86, 0x48, 0x86, 0xf7, 0x12, 0x01, 0x02, 0x02,
];

// Whether octets are those of the mechanism, as far as they go. By `same`, as the definition `agree`.
fn is_mechanism(octets: &[u8]) -> bool
    ensures { result ≡ Spec.agree octets.now Spec.mechanism }
{
    let count = octets.len().min(MECHANISM.len());
    checks::same(&octets[..count], &MECHANISM[..count])
}

// What stands at the front of some octets, whatever follows it.
pub fn framing_in(octets: &[u8]) -> Framing
    ensures { Spec.FrontIs octets.now result }
{
    let [tag, rest @ ..] = octets else {
        return Framing::Incomplete;
    };
    if *tag != TAG {
        return Framing::Fault;
    }
    match length::contents_in(MECHANISM.len(), rest) {
        Contents::Counted { width, value } if is_mechanism(&rest[width..]) => Framing::Token {
            lead: 1 + width + MECHANISM.len(),
            length: value - MECHANISM.len(),
        },
        Contents::Cut { width } if is_mechanism(&rest[width..]) => Framing::Incomplete,
        Contents::Incomplete => Framing::Incomplete,
        _ => Framing::Fault,
    }
}

// How many octets stand before the token, if some octets are one whole frame.
fn lead_of(octets: &[u8]) -> Result<usize, Refusal>
    ensures { result ≡ Spec.lead_of octets.now }
{
    match framing_in(octets) {
        Framing::Token { lead, length } if lead + length == octets.len() => Ok(lead),
        _ => Err(Refusal::Frame),
    }
}

// How many octets stand before the token in the region of `len` octets from `start`, if it is one whole frame. Regions are given as in
// `tokens`.
#[tactic(auto, using(crate::proofs::Regions::region_fits, crate::proofs::Regions::region_refused, crate::proofs::Regions::region_read))]
pub fn lead_in(buf: &[u8], start: usize, len: usize) -> Result<usize, Refusal>
    ensures { result ≡ Spec.lead_in buf.now start len }
{
    checks::region(start, len, buf.len())?;
    lead_of(&buf[start..start + len])
}

// Octets in hexadecimal, two digits each.
ghost use Rattle.std.specs.Prelude.{◌≡◌, ◌<◌, ◌≤◌, length, IfSome, Some};
ghost use Rattle.tokens.specs.Limits.{placed};
ghost use Rattle.text.specs.Hex as Spec;

use std::fmt;

// The digit of a number, in lower case.
fn digit(value: u8) -> u8
    requires { value < 16 }
    ensures { result ≡ Spec.digit value }
{
    if value < 10 {
        b'0' + value
    } else {
        b'a' + (value - 10)
    }
}

// Octets that are written as their digits, in lower case.
#[derive(Clone, Copy, Debug, PartialEq, Eq)]
pub struct Hex<'a>(pub &'a [u8]);

impl fmt::Display for Hex<'_> {
    ghost output = { λ hex. Some (Spec.digits hex.0.now) };

    fn fmt<W: fmt::Write>(&self, f: &mut fmt::Formatter<W>) -> fmt::Result {
        for octet in self.0 {
            f.write_char(char::from(digit(octet / 16)))?;
            f.write_char(char::from(digit(octet % 16)))?;
        }
        Ok(())
    }
}

// Writes the digits of some octets at the front of `out`, in lower case, and returns how many. If they do not all fit, it writes none.
pub fn encode(octets: &[u8], out: &mut [u8]) -> Option<usize>
    ensures count { result ≡ Spec.count octets.now out.old }
    ensures within { IfSome result (λ n. n ≤ length out.new) }
    ensures digits { out.new ≡ placed 0 (Spec.fitting octets.now out.old) out.old }
{
    if out.len() / 2 < octets.len() {
        return None;
    }
    for (i, octet) in octets.iter().enumerate() {
        out[2 * i] = digit(octet / 16);
        out[2 * i + 1] = digit(octet % 16);
    }
    Some(2 * octets.len())
}

// The octet that two digits say, each in lower or upper case.
fn octet(high: u8, low: u8) -> Option<u8>
    ensures { result ≡ Spec.octet high low }
{
    let high = (high as char).to_digit(16)?;
    let low = (low as char).to_digit(16)?;
    Some((16 * high + low) as u8)
}

// Whether every octet of a text is a digit, in lower or upper case.
fn are_digits(text: &[u8]) -> bool
    ensures { result ≡ Spec.are_digits text.now }
{
    text.iter().all(|c| c.is_ascii_hexdigit())
}

// Reads the octets that a text is the digits of into `out`, if it is the digits of as many as `out` has. If not, `out` is as it was.
pub fn decode_into(text: &[u8], out: &mut [u8]) -> Option<()>
    ensures answer { result ≡ Spec.decode_into text.now out.old }
    ensures octets { out.new ≡ Spec.decoded text.now out.old }
{
    if text.len() % 2 != 0 || text.len() / 2 != out.len() || !are_digits(text) {
        return None;
    }
    for (i, octet) in out.iter_mut().enumerate() {
        *octet = self::octet(text[2 * i], text[2 * i + 1])?;
    }
    Some(())
}

// Reads the octets that a text is the digits of, if it is the digits of as many.
#[tactic(auto, unfolding(crate::specs::Hex::decode_into, crate::specs::Hex::decoded, crate::specs::Hex::decode))]
pub fn decode<const N: usize>(text: &[u8]) -> Option<[u8; N]>
    ensures { result ≡ Spec.decode N text.now }
{
    let mut octets = [0; N];
    decode_into(text, &mut octets)?;
    Some(octets)
}

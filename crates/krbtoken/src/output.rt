// What is written on standard output: results and refusals. A line is one write, but for that of `named_digits`, which is two. The status
// of the run goes to a descriptor of its own.
use crate::failure::{Exit, Failure};
use billing::status::Status;
use std::fmt;
use std::fs::File;
use std::io::Write;
use text::hex;
use tokens::answer::Refusal;

// Digits of the longest input that is read.
const MOST_DIGITS: usize = 131072;

// Writes the number of a status on descriptor 3, which std knows by its path alone. Not every caller has opened it. It is opened for
// reading too, since opening a fifo for writing alone waits for a reader.
pub fn status(rt: HostRuntime, exit: Exit) {
    if let Ok(mut file) = File::options()
        .read(true)
        .append(true)
        .open(&rt, "/dev/fd/3")
    {
        let _ = write!(file, "{}", exit as u8);
    }
}

// A refusal, with its number.
#[derive(Clone, Copy)]
pub struct Refused(pub Refusal);

impl fmt::Display for Refused {
    fn fmt<W: fmt::Write>(&self, f: &mut fmt::Formatter<W>) -> fmt::Result {
        write!(f, "refused {}: {}", self.0.number(), self.0)
    }
}

// The status of a token that opened, after a blank.
#[derive(Clone, Copy)]
pub struct StatusWords(pub Option<Status>);

impl fmt::Display for StatusWords {
    fn fmt<W: fmt::Write>(&self, f: &mut fmt::Formatter<W>) -> fmt::Result {
        match self.0 {
            Some(status) => write!(f, " {status}"),
            None => Ok(()),
        }
    }
}

// The octets of a region that a call of the library answered. It lies inside the buffer. Slices at the calls were tried: the
// search does not prove their bounds from the contracts of the calls. So the bounds are tested here.
pub fn part(buf: &[u8], start: usize, n: usize) -> Result<&[u8], Refusal> {
    buf.get(start..)
        .and_then(|after| after.get(..n))
        .ok_or(Refusal::Region)
}

// Writes octets as they are.
pub fn octets(rt: HostRuntime, octets: &[u8]) -> Result<(), Failure> {
    rt.write_all(octets)?;
    Ok(())
}

// Writes a line of octets in hexadecimal.
pub fn digits(rt: HostRuntime, octets: &[u8]) -> Result<(), Failure> {
    let mut digits = [0u8; MOST_DIGITS + 1];
    let n = hex::encode(octets, &mut digits[..MOST_DIGITS]).unwrap_or(0);
    digits[n] = b'\n';
    rt.write_all(&digits[..=n])?;
    Ok(())
}

// Writes a line: a name and, after a blank, octets in hexadecimal. If there are none, there is no blank.
pub fn named_digits(rt: HostRuntime, name: &str, octets: &[u8]) -> Result<(), Failure> {
    if octets.is_empty() {
        println!(rt; "{name}")?;
        return Ok(());
    }
    print!(rt; "{name} ")?;
    digits(rt, octets)
}

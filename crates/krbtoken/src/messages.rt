// The verbs of encrypted messages: RFC 4757, section 5.
use crate::arguments::Arguments;
use crate::failure::Failure;
use crate::{input, output};
use tokens::message;

// Octets before the message, and what input::read may fill.
const BUFFER: usize = message::OVERHEAD + input::BUFFER;

// Encrypts standard input.
pub fn encrypt(arguments: &mut Arguments) -> Result<(), Failure> {
    let key = arguments.key()?;
    let strength = arguments.strength()?;
    let usage = arguments.usage()?;
    let confounder = arguments.confounder()?;
    let rt = arguments.rt;
    let mut buf = [0; BUFFER];
    let n = input::standard(rt, &mut buf[message::OVERHEAD..])?.len();
    let total = message::encrypt(key, strength, usage, confounder, &mut buf, 0, n)?;
    output::octets(rt, output::part(&buf, 0, total)?)
}

// Decrypts standard input, and writes the length of the data and the data.
pub fn decrypt(arguments: &mut Arguments) -> Result<(), Failure> {
    let key = arguments.key()?;
    let strength = arguments.strength()?;
    let usage = arguments.usage()?;
    let rt = arguments.rt;
    let mut buf = [0; input::BUFFER];
    let region = input::standard(rt, &mut buf)?;
    let n = region.len();
    let length = message::decrypt(key, strength, usage, region, 0, n)?;
    println!(rt; "length {length}")?;
    let data = output::part(region, message::OVERHEAD, length)?;
    output::named_digits(rt, "data", data)
}

// The verbs of MIC tokens: RFC 4757, section 7.2, with their frame or without.
use crate::arguments::Arguments;
use crate::failure::{Failure, WrongUse};
use crate::forms::{Bare, Form, Framed};
use crate::{input, output};
use tokens::context::Context;

// Octets that a framed token fits in.
const TOKEN: usize = 64;

const NO_TOKEN: &str = "the token file can't be read, expected a MIC token";

const LONG_TOKEN: &str = "the token file is too long: expected at most 65536 octets";

// Writes the token over standard input.
fn mic_input<F: Form>(rt: HostRuntime, context: Context, sequence: u32) -> Result<(), Failure> {
    let mut buf = [0; input::BUFFER];
    let data = input::standard(rt, &mut buf)?;
    let mut token = [0; TOKEN];
    let total = F::mic_write(context, sequence, data, &mut token)?;
    output::octets(rt, output::part(&token, 0, total)?)
}

pub fn mic(arguments: &mut Arguments) -> Result<(), Failure> {
    let context = arguments.context()?;
    let sequence = arguments.sequence()?;
    if arguments.framed()? {
        mic_input::<Framed>(arguments.rt, context, sequence)
    } else {
        mic_input::<Bare>(arguments.rt, context, sequence)
    }
}

// Reads the token over standard input.
fn verify_input<F: Form>(rt: HostRuntime, context: Context, token: &[u8]) -> Result<(), Failure> {
    let mut buf = [0; input::BUFFER];
    let data = input::standard(rt, &mut buf)?;
    let sequence = F::mic_read(context, data, token)?;
    println!(rt; "sequence {sequence}")?;
    Ok(())
}

// Reads the token file that the next word names, and returns its octets.
fn token_file<'a>(arguments: &mut Arguments, buf: &'a mut [u8]) -> Result<&'a mut [u8], WrongUse> {
    let mut file = arguments
        .file()
        .map_err(|error| WrongUse::Io(NO_TOKEN, error))?;
    input::read(&mut file, buf, LONG_TOKEN, NO_TOKEN)
}

pub fn verify(arguments: &mut Arguments) -> Result<(), Failure> {
    let context = arguments.context()?;
    let mut buf = [0; input::BUFFER];
    let token = token_file(arguments, &mut buf)?;
    if arguments.framed()? {
        verify_input::<Framed>(arguments.rt, context, token)
    } else {
        verify_input::<Bare>(arguments.rt, context, token)
    }
}

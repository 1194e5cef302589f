// The verbs of Wrap tokens: RFC 4757, section 7.3, with their frame or without.
use crate::arguments::Arguments;
use crate::failure::Failure;
use crate::forms::{Bare, Form, Framed, Parts};
use crate::{input, output};
use tokens::context::Context;
use tokens::wrap;

// Where a message is read to: a framed token has fewer octets before it.
const MESSAGE_AT: usize = 64;

// Where a token without a frame starts, if its message stands there.
const START: usize = MESSAGE_AT - wrap::MESSAGE_AT;

// The octets before the message, and the buffer for it. An input that is read leaves at least one octet of that free, which the pad takes.
const BUFFER: usize = MESSAGE_AT + input::BUFFER;

// Writes the token of standard input.
fn wrap_input<F: Form>(rt: HostRuntime, parts: Parts) -> Result<(), Failure> {
    let mut buf = [0; BUFFER];
    let n = input::standard(rt, &mut buf[MESSAGE_AT..])?.len();
    // A message that is too long has no lead, and is refused where the token is written.
    let start = START.saturating_sub(F::wrap_lead(n).unwrap_or(0));
    let total = F::wrap_write(parts, &mut buf, start, n)?;
    output::octets(rt, output::part(&buf, start, total)?)
}

pub fn wrap(arguments: &mut Arguments) -> Result<(), Failure> {
    let parts = Parts {
        context: arguments.context()?,
        sequence: arguments.sequence()?,
        confounder: arguments.confounder()?,
        sealed: arguments.sealing()?,
    };
    if arguments.framed()? {
        wrap_input::<Framed>(arguments.rt, parts)
    } else {
        wrap_input::<Bare>(arguments.rt, parts)
    }
}

// Opens standard input, and writes what the token held. Its message stands before the last octet, the pad.
fn open_input<F: Form>(rt: HostRuntime, context: Context) -> Result<(), Failure> {
    let mut buf = [0; input::BUFFER];
    let token = input::standard(rt, &mut buf)?;
    let opened = F::wrap_open(context, token)?;
    let length = opened.length;
    println!(rt; "sequence {}", opened.sequence)?;
    println!(rt; "sealed {}", if opened.sealed { "yes" } else { "no" })?;
    println!(rt; "length {length}")?;
    let start = token.len().saturating_sub(length.saturating_add(1));
    output::named_digits(rt, "message", output::part(token, start, length)?)
}

pub fn open(arguments: &mut Arguments) -> Result<(), Failure> {
    let context = arguments.context()?;
    if arguments.framed()? {
        open_input::<Framed>(arguments.rt, context)
    } else {
        open_input::<Bare>(arguments.rt, context)
    }
}

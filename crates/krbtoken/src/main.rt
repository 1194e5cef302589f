// The library on the command line: keys, checksums, encrypted messages and tokens, one at a time, and a capture of tokens billed.
#![tactic(auto)]

mod arguments;
mod bill;
mod failure;
mod forms;
mod help;
mod input;
mod keys;
mod messages;
mod mic_tokens;
mod output;
mod wrap_tokens;

use arguments::Arguments;
use failure::Failure;
use text::words::Verb;

// Does what the words ask for.
fn run(arguments: &mut Arguments) -> Result<(), Failure> {
    match arguments.verb()? {
        Verb::Key => keys::key(arguments.rt),
        Verb::Open => wrap_tokens::open(arguments),
        Verb::Wrap => wrap_tokens::wrap(arguments),
        Verb::Verify => mic_tokens::verify(arguments),
        Verb::Mic => mic_tokens::mic(arguments),
        Verb::Decrypt => messages::decrypt(arguments),
        Verb::Encrypt => messages::encrypt(arguments),
        Verb::Checksum => keys::checksum(arguments),
        Verb::Bill => bill::bill(arguments),
        Verb::Help => help::help(arguments.rt),
    }
}

// With `--status` as its first word, the program writes 0, 1 or 2 on descriptor 3 when it ends. Its own exit status is always 0.
fn main(rt: HostRuntime) {
    let mut arguments = Arguments::new(rt);
    let asks = arguments.asks_status();
    let exit = failure::report(rt, run(&mut arguments));
    if asks {
        output::status(rt, exit);
    }
}

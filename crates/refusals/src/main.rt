// Runs calls that are refused, and writes whole tokens, messages and checksums. `rt` compares what it writes with the file `stdout`; the
// tests of the Rust binding compare the whole ones with the reference implementation.
#![tactic(auto)]

mod answers;
mod messages;
mod mic_tokens;
mod samples;
mod words;
mod wrap_tokens;

fn main(rt: HostRuntime) {
    messages::refused(&rt);
    mic_tokens::refused(&rt);
    wrap_tokens::refused(&rt);
    messages::whole(&rt);
    mic_tokens::whole(&rt);
    wrap_tokens::whole(&rt);
}

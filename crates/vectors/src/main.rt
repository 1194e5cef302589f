// Runs the published test vectors and the refusals at each limit. What it writes is held to the file `stdout`.
#![tactic(auto)]

mod answers;
mod digests;
mod keystreams;
mod limits;
mod rfc4757;

fn main(rt: HostRuntime) {
    digests::run(&rt);
    keystreams::run(&rt);
    rfc4757::run(&rt);
    limits::run(&rt);
}

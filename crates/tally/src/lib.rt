// The sequence numbers of a session billed one after the other. It is a client of `billing`: what it promises is in the clerk's words,
// with no window in it, and is proved from the contracts and the published laws alone.
#![tactic(auto)]

ghost use Rattle.std.specs.Prelude.{◌≡◌};
ghost use Rattle.tally.specs.Tally.{clerk_tally};

use billing::window::Window;

// How many of the numbers of a session are billed, and how many of the last sixty-four are missing.
#[derive(Clone, Copy, Debug, PartialEq, Eq)]
pub struct Tally {
    pub billed: u64,
    pub missing: u32,
}

// Bills the numbers in the order in which they stand.
pub fn bill_all(first: u32, numbers: &[u32]) -> Tally
    ensures { result ≡ clerk_tally first numbers.now }
{
    let mut window = Window::new(first);
    for number in numbers {
        window = window.bill(*number).window;
    }
    Tally {
        billed: window.billed,
        missing: window.missing(),
    }
}

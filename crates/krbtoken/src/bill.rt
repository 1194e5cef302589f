// The verb that bills a capture: framed Wrap tokens one after the other, read through a buffer of a few frames.
ghost use Rattle.std.specs.Prelude.{◌≡◌, ◌+◌, ◌-◌, ◌≤◌};
ghost use Rattle.billing.specs.Receive.{presented_by, received};
ghost use Rattle.frame.specs.Capture.{frame_octets};
ghost use Rattle.frame.specs.Wrap.{framed_wrap_opening};
ghost use Rattle.tokens.specs.Wrap.{unwrapped_answer};

use crate::arguments::Arguments;
use crate::failure::{Failure, WrongUse};
use crate::input;
use crate::output::{Refused, StatusWords};
use billing::receive;
use billing::window::Window;
use frame::capture;
use frame::capture::Next;
use std::io::Read;
use tokens::answer::Refusal;
use tokens::context::Context;

// Octets of four framed tokens of the greatest length.
const BUFFER: usize = 131264;

// What is held of a capture: the octets from `at` to `end` of a buffer, and whether the capture ends after them. The program has no heap,
// so the buffer has a fixed length.
#[derive(Drop)]
struct Capture {
    buf: [u8; BUFFER],
    at: usize,
    end: usize,
    ended: bool,
    ghost inside: { (at ≤ end) × (end ≤ 131264) },
}

impl Capture {
    // What is at the front of the octets that are held. Nothing can be read after them if the capture has ended, or they fill the buffer.
    fn next(&self) -> Next
        ensures { frame_octets result ≤ self.now.end - self.now.at }
    {
        let last = self.ended || (self.at == 0 && self.end == BUFFER);
        capture::next_frame(&self.buf[self.at..self.end], last)
    }

    // Goes on to the octets after the next n.
    fn skip(&mut self, n: usize)
        requires { n ≤ self.old.end - self.old.at }
    {
        self.at += n;
    }

    // Moves the octets that are held to the front of the buffer, and reads what there is after them, as far as it fits. It does not wait
    // for more than the next octets, so that a token is billed, and a fault is told, while a pipe is still open.
    fn refill(&mut self, rt: HostRuntime) -> Result<(), WrongUse> {
        if self.at != 0 {
            self.buf.copy_within(self.at..self.end, 0);
            self.end -= self.at;
            self.at = 0;
        }
        let more = rt
            .stdin()
            .read(&mut self.buf[self.end..])
            .map_err(input::unreadable)?;
        self.end += more;
        self.ended = more == 0;
        Ok(())
    }
}

// How far the billing is: the window, where in the capture the next token begins, and how many were refused.
#[derive(Drop)]
struct Billing {
    window: Window,
    place: u64,
    refused: u64,
}

impl Billing {
    // Writes the totals.
    fn totals(&self, rt: HostRuntime) -> Result<(), Failure> {
        println!(rt; "billed {}", self.window.billed)?;
        println!(rt; "missing {}", self.window.missing())?;
        println!(rt; "refused {}", self.refused)?;
        Ok(())
    }

    // Counts one more that was refused. The window is as it was.
    fn refuse(&mut self)
        ensures { self.new.window ≡ self.old.window }
    {
        self.refused = self.refused.wrapping_add(1);
    }

    // Receives the framed token of n octets from `at`, writes its line, and goes on to the place after it. The window is what
    // `receive_framed_wrap` makes of it: the number of a token that opened is billed, and a refused token leaves the window as it was.
    fn receive(
        &mut self,
        rt: HostRuntime,
        context: Context,
        buf: &mut [u8],
        at: usize,
        n: usize,
    ) -> Result<(), Failure>
        ensures { self.new.window ≡ (received self.old.window (presented_by (unwrapped_answer (framed_wrap_opening context buf.old at n)))).window }
    {
        let answer = receive::receive_framed_wrap(self.window, context, buf, at, n);
        self.window = answer.received.window;
        let place = self.place;
        self.place = place.wrapping_add(n as u64);
        match answer.token {
            Ok(opened) => {
                let status = StatusWords(answer.received.status);
                let clear = if opened.sealed { "" } else { " clear" };
                println!(rt;
                    "at {place} sequence {}{status} length {}{clear}",
                    opened.sequence, opened.length
                )?;
            }
            Err(refusal) => {
                self.refuse();
                println!(rt; "at {place} {}", Refused(refusal))?;
            }
        }
        Ok(())
    }

    // Ends the billing at a fault of a frame.
    fn fault(&mut self, rt: HostRuntime) -> Result<(), Failure> {
        let place = self.place;
        println!(rt;
            "at {place} {}; what follows can't be told apart",
            Refused(Refusal::Frame)
        )?;
        self.refuse();
        self.totals(rt)?;
        Err(Failure::Faulty)
    }

    // Bills standard input. A capture may have any length, but a proved loop must end, so the number of turns has a limit. No run reaches it.
    fn run(
        &mut self,
        rt: HostRuntime,
        context: Context,
        capture: &mut Capture,
    ) -> Result<(), Failure> {
        for _ in 0..u64::MAX {
            match capture.next() {
                Next::Frame(n) => {
                    self.receive(rt, context, &mut capture.buf, capture.at, n)?;
                    capture.skip(n);
                }
                Next::More => capture.refill(rt)?,
                Next::End => return self.totals(rt),
                Next::Fault => return self.fault(rt),
            }
        }
        self.totals(rt)
    }
}

pub fn bill(arguments: &mut Arguments) -> Result<(), Failure> {
    let context = arguments.context()?;
    let first = arguments.sequence()?;
    let mut capture = Capture {
        buf: [0; BUFFER],
        at: 0,
        end: 0,
        ended: false,
    };
    let mut billing = Billing {
        window: Window::new(first),
        place: 0,
        refused: 0,
    };
    billing.run(arguments.rt, context, &mut capture)
}

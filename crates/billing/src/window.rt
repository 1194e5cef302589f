// The receive window of a session.
ghost use Rattle.std.specs.Prelude.{◌≡◌, ◌<◌, ◌≤◌};
ghost use Rattle.billing.specs.Status.{outside_from};
ghost use Rattle.billing.specs.Window as Spec;

use crate::status::Status;

// The distances from here on are outside the session.
const OUTSIDE_FROM: u32 = 2147483648;

// How many distances below the next expected one have a mark.
const MARKS: u32 = 64;

// The session's first number, the next expected distance from it, the marks of the distances below that, and how many numbers were
// billed. Bit k of `seen` is the mark of the distance next - 1 - k. Every value is legal. It is handed on by value, as C's four numbers
// are: the caller keeps the old one where nothing was billed.
#[derive(Clone, Copy, Debug, PartialEq, Eq)]
pub struct Window {
    pub first: u32,
    pub next: u32,
    pub seen: u64,
    pub billed: u64,
}

// The status of a number, and the window after it.
#[derive(Clone, Copy, Debug, PartialEq, Eq)]
pub struct Receipt {
    pub status: Status,
    pub window: Window,
}

// The marks moved up to make room for `by` distances more, of which the highest is marked.
fn shifted(seen: u64, by: u32) -> u64
    ensures { result ≡ Spec.shifted seen by }
{
    if by < MARKS { (seen << by) | 1 } else { 1 }
}

impl Window {
    // The window of a session that begins with the number `first`.
    pub fn new(first: u32) -> Window
        ensures { result ≡ Spec.new_window first }
    {
        Window {
            first,
            next: 0,
            seen: 0,
            billed: 0,
        }
    }

    // Whether the distance that the mark at `place` stands for is marked.
    fn is_marked(self, place: u32) -> bool
        requires { place < 64 }
        ensures { result ≡ Spec.is_marked self.seen place }
    {
        (self.seen >> place) % 2 == 1
    }

    // The window after the number at a distance, the next expected one or a higher one, is billed.
    fn advanced(self, distance: u32) -> Window
        requires { (self.next ≤ distance) × (distance < outside_from) }
        ensures { result ≡ Spec.advanced self distance }
    {
        let more = distance - self.next + 1;
        Window {
            next: distance + 1,
            seen: shifted(self.seen, more),
            billed: self.billed.wrapping_add(1),
            ..self
        }
    }

    // The window after the late number whose mark is at `place` is billed.
    fn filled(self, place: u32) -> Window
        requires { place < 64 }
        ensures { result ≡ Spec.filled self place }
    {
        Window {
            seen: self.seen | (1 << place),
            billed: self.billed.wrapping_add(1),
            ..self
        }
    }

    // A status, with this window after it.
    fn with(self, status: Status) -> Receipt
        ensures { result ≡ Spec.receipt status self }
    {
        Receipt {
            status,
            window: self,
        }
    }

    // Gives a sequence number its status, and bills it if it is in order, a gap or late. What becomes of a window that no session leads to
    // is left free by the rules; the definition decides, and a number that is not billed leaves any window as it was.
    pub fn bill(self, sequence: u32) -> Receipt
        ensures { result ≡ Spec.step self sequence }
    {
        let next = self.next;
        let distance = sequence.wrapping_sub(self.first);
        if OUTSIDE_FROM <= distance {
            return self.with(Status::Outside);
        }
        if distance == next {
            return self.advanced(distance).with(Status::InOrder);
        }
        if next < distance {
            return self.advanced(distance).with(Status::Gap);
        }
        let place = next - 1 - distance;
        if MARKS <= place {
            return self.with(Status::Old);
        }
        if self.is_marked(place) {
            return self.with(Status::Duplicate);
        }
        self.filled(place).with(Status::Late)
    }

    // How many of the last sixty-four distances below the next expected one, or of all if they are fewer, are not marked: not billed, in a
    // window that a session leads to.
    pub fn missing(self) -> u32
        ensures { result ≡ Spec.missing self }
    {
        let next = self.next;
        if MARKS <= next {
            return MARKS - self.seen.count_ones();
        }
        next - (self.seen & ((1 << next) - 1)).count_ones()
    }
}

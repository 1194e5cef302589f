// A capture: frames one after the other, of which some octets are held.
ghost use Rattle.std.specs.Prelude.{◌≤◌, length};
ghost use Rattle.frame.specs.Capture as Spec;

use crate::framing;
use crate::framing::Framing;

// What stands at the front of the octets that are held: a frame of so many octets; nothing that can be told without more of the
// capture; its end; or a fault.
#[derive(Clone, Copy, Debug, PartialEq, Eq)]
pub enum Next {
    Frame(usize),
    More,
    End,
    Fault,
}

// What stands at the front of the octets that are held. They are the last of the capture, or all that there is room for, if `last`.
pub fn next_frame(held: &[u8], last: bool) -> Next
    ensures answer { Spec.NextIs held.now last result }
    ensures within { Spec.frame_octets result ≤ length held.now }
{
    match framing::framing_in(held) {
        Framing::Token { lead, length } => Next::Frame(lead + length),
        Framing::Incomplete if !last => Next::More,
        Framing::Incomplete if held.is_empty() => Next::End,
        Framing::Incomplete | Framing::Fault => Next::Fault,
    }
}

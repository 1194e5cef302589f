// Whose tokens are written or read.
ghost use Rattle.std.specs.Prelude.{◌≡◌};
ghost use Rattle.tokens.specs.Session as Spec;

use crate::strength::Strength;

// Who sends a token: the side that began the session, or the other.
#[derive(Clone, Copy, Debug, PartialEq, Eq)]
pub enum Sender {
    Initiator,
    Acceptor,
}

impl Sender {
    // The other side.
    pub fn other(self) -> Sender
        ensures { result ≡ Spec.other self }
    {
        match self {
            Sender::Initiator => Sender::Acceptor,
            Sender::Acceptor => Sender::Initiator,
        }
    }
}

// The session key and its strength, and the sender. For a reader it is the sender that is expected. It has no `Debug`, which would print
// the key, and no `==`, which would compare it in a time that tells something of it.
#[derive(Clone, Copy)]
pub struct Context {
    pub key: [u8; 16],
    pub strength: Strength,
    pub sender: Sender,
}

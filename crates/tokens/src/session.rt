// A session, and the contexts of the tokens that it writes and reads.
ghost use Rattle.std.specs.Prelude.{◌≡◌};
ghost use Rattle.tokens.specs.Session as Spec;

use crate::context::{Context, Sender};
use crate::strength::Strength;

// The session key and its strength, our own role, and whether the session insists on sealing. As a context, it has no `Debug`.
#[derive(Clone, Copy)]
pub struct Session {
    pub key: [u8; 16],
    pub strength: Strength,
    pub role: Sender,
    pub sealed_only: bool,
}

impl Session {
    // The context of the tokens that this session writes: we are the sender.
    pub fn outgoing(self) -> Context
        ensures { result ≡ Spec.outgoing self }
    {
        let key = self.key;
        Context {
            key,
            strength: self.strength,
            sender: self.role,
        }
    }

    // The context of the tokens that this session reads: the other side is the sender.
    pub fn incoming(self) -> Context
        ensures { result ≡ Spec.incoming self }
    {
        Context {
            sender: self.role.other(),
            ..self.outgoing()
        }
    }

    // The session of the other side.
    pub fn peer(self) -> Session
        ensures { result ≡ Spec.peer self }
    {
        Session {
            role: self.role.other(),
            ..self
        }
    }
}

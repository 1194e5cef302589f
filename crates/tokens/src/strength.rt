// The strength of a key, and the salt that it picks for a T.
ghost use Rattle.std.specs.Prelude.{◌≡◌};
ghost use Rattle.tokens.specs.Strength as Spec;

use crate::short::Short;

#[derive(Clone, Copy, Debug, PartialEq, Eq)]
pub enum Strength {
    Full,
    Export,
}

impl Strength {
    // The salt for a T: the four octets of T, or for export "fortybits" with its closing zero and then those four.
    pub fn salt(self, t: [u8; 4]) -> Short<14>
        ensures { result ≡ Spec.salt self t }
    {
        match self {
            Strength::Full => Short::from_slice(&t),
            Strength::Export => {
                let [a, b, c, d] = t;
                Short::from_slice(&[
                    b'f', b'o', b'r', b't', b'y', b'b', b'i', b't', b's', b'\0', a, b, c, d,
                ])
            }
        }
    }
}

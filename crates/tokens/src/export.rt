// The octets of a key that export strength sets.
ghost use Rattle.std.specs.Prelude.{◌≡◌};
ghost use Rattle.tokens.specs.Strength.{export_fill};

use crate::strength::Strength;

// The nine octets 7 to 15 become AB, for export.
pub fn fill(strength: Strength, mut key: [u8; 16]) -> [u8; 16]
    ensures { result ≡ export_fill strength key }
{
    if let Strength::Export = strength {
        key[7..].copy_from_slice(&[0xab; 9]);
    }
    key
}

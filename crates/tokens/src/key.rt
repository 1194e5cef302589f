// The key of a password: RFC 4757, section 2.
ghost use Rattle.std.specs.Prelude.{◌≡◌, ◌++◌, ◌-◌, ◌*◌, ◌≤◌, length, replicate};
ghost use Rattle.tokens.specs.Key as Spec;

use crate::answer::Refusal;
use crate::{checks, limits};
use primitives::hash::{Algorithm, Hash};

// Each unit in two octets, the low one first, and zeros after the last.
fn unicode(units: &[u16]) -> [u8; 512]
    requires { length units.now ≤ 256 }
    ensures { result ≡ Spec.unicode units.now ++ replicate (512 - 2 * length units.now) 0 }
{
    let mut octets = [0; 512];
    for (i, unit) in units.iter().enumerate() {
        octets[2 * i..2 * i + 2].copy_from_slice(&unit.to_le_bytes());
    }
    octets
}

// The key of a password of 0 to 256 units. A zero among them is a unit like any other.
pub fn password_key(units: &[u16]) -> Result<[u8; 16], Refusal>
    ensures { result ≡ Spec.password_key units.now }
{
    checks::length(0, limits::MOST_UNITS, units.len())?;
    let octets = unicode(units);
    Ok(
        Hash::new(Algorithm::Md4)
            .update(&octets[..2 * units.len()])
            .finish(),
    )
}

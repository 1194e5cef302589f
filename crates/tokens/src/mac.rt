// HMAC-MD5 under a key of sixteen octets, of a text in one part or in two.
ghost use Rattle.std.specs.Prelude.{◌≡◌, ◌++◌};
ghost use Rattle.primitives.specs.Hmac.{hmac};

use primitives::hmac::Hmac;

// The code of a text.
pub fn of(key: [u8; 16], text: &[u8]) -> [u8; 16]
    ensures { result ≡ hmac key text.now }
{
    let digest = Hmac::begin_inner(key).update(text).finish();
    Hmac::begin_outer(key).update(&digest).finish()
}

// The code of a text in two parts. A list of parts would be plainer for no caller: there are one or two.
pub fn of_two(key: [u8; 16], first: &[u8], second: &[u8]) -> [u8; 16]
    ensures { result ≡ hmac key (first.now ++ second.now) }
{
    let digest = Hmac::begin_inner(key).update(first).update(second).finish();
    Hmac::begin_outer(key).update(&digest).finish()
}

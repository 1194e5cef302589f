// Octets run through RC4 under a key of sixteen octets.
ghost use Rattle.std.specs.Prelude.{◌≡◌, ◌++◌};
ghost use Rattle.primitives.specs.Rc4.{rc4};

use primitives::rc4::Rc4;

// Eight octets under the key.
pub fn eight(key: [u8; 16], mut text: [u8; 8]) -> [u8; 8]
    ensures { result ≡ rc4 key text }
{
    Rc4::new(key).apply(&mut text);
    text
}

// Encrypts or decrypts the confounder and the body after it, as one stream.
pub fn run(key: [u8; 16], confounder: &mut [u8; 8], body: &mut [u8])
    ensures { confounder.new ++ body.new ≡ rc4 key (confounder.old ++ body.old) }
{
    Rc4::new(key).apply(confounder).apply(body);
}

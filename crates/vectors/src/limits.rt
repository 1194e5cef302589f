// Both sides of each limit: what is taken is answered with 0 and its octets, what is not with 1, zeros and the data as they came.
ghost use Rattle.std.specs.Prelude.{◌≤◌, length};

use crate::answers;
use crate::answers::Digest;
use primitives::limits::LengthError;
use primitives::whole;
use text::hex::Hex;

// The octets of which a call is given the first ones. They are made here and not where they are lent, since the prover takes long
// over a large array that is made and lent in one function.
fn octets() -> [u8; 65537] {
    [0x5a; 65537]
}

// A digest or a code of these octets, or under them as a key.
fn write_digest<F: Fn(&[u8]) -> Result<[u8; 16], LengthError>>(
    rt: &impl Print,
    name: &str,
    octets: &[u8],
    digest: F,
)
    requires { F.IsAlwaysCallable digest }
{
    let n = octets.len();
    let answer = digest(octets);
    let _ = println!(rt; "{name} {n}: {}", Digest(answer));
}

// RC4 with a key of `n` octets 01, over sixteen octets 5a.
fn write_rc4_key(rt: &impl Print, n: usize)
    requires { n ≤ 257 }
{
    let key = [0x01; 257];
    let mut data = [0x5a; 16];
    let answer = whole::rc4(&key[..n], &mut data);
    let _ = println!(rt;
        "rc4 with a key of {n}: {} {}",
        answers::status(answer),
        Hex(&data)
    );
}

// Data run through RC4 under one key: the status, the last octet afterwards, and the MD5 digest of those before it.
fn write_rc4(rt: &impl Print, octets: &mut [u8])
    requires { 1 ≤ length octets.old }
{
    let status = answers::status(whole::rc4(b"key", octets));
    let last = octets.len() - 1;
    let _ = println!(rt;
        "rc4 of {}: {status} {:02x} md5: {}",
        octets.len(),
        octets[last],
        Digest(whole::md5(&octets[..last]))
    );
}

pub fn run(rt: &impl Print) {
    let octets = octets();
    for n in [65536, 65537] {
        write_digest(rt, "md4 of", &octets[..n], whole::md4);
    }
    for n in [65536, 65537] {
        write_digest(rt, "md5 of", &octets[..n], whole::md5);
    }
    for n in [0, 64, 65, 65536, 65537] {
        let code = |key: &[u8]| whole::hmac_md5(key, b"text");
        write_digest(rt, "hmac_md5 with a key of", &octets[..n], code);
    }
    for n in [0, 65472, 65473] {
        let code = |text: &[u8]| whole::hmac_md5(b"key", text);
        write_digest(rt, "hmac_md5 of", &octets[..n], code);
    }
    for n in [0, 1, 256, 257] {
        write_rc4_key(rt, n);
    }
    for n in [65536, 65537] {
        let mut data = octets;
        write_rc4(rt, &mut data[..n]);
    }
}

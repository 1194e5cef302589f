// The keystreams of RFC 6229: RC4 over zeros, at eighteen offsets under each of its fourteen keys.
ghost use Rattle.std.specs.Prelude.{◌≤◌, length};

use crate::answers;
use primitives::whole;
use text::hex::Hex;

// The first key of each length is the beginning of these octets, 1 to 32.
const COUNTING: [u8; 32] =
    *b"\x01\x02\x03\x04\x05\x06\x07\x08\x09\x0a\x0b\x0c\x0d\x0e\x0f\x10\x11\x12\x13\x14\x15\x16\x17\x18\x19\x1a\x1b\x1c\x1d\x1e\x1f\x20";

// The second key of each length is the end of the SHA-256 digest of "Internet Engineering Task Force".
const DIGEST: [u8; 32] =
    *b"\x1a\xda\x31\xd5\xcf\x68\x82\x21\xc1\x09\x16\x39\x08\xeb\xe5\x1d\xeb\xb4\x62\x27\xc6\xcc\x8b\x37\x64\x19\x10\x83\x32\x22\x77\x2a";

// The lengths of the keys.
const KEY_LENGTHS: [usize; 7] = [5, 7, 8, 10, 16, 24, 32];

// Where sixteen octets of a keystream are printed.
const OFFSETS: [usize; 18] = [
    0, 16, 240, 256, 496, 512, 752, 768, 1008, 1024, 1520, 1536, 2032, 2048, 3056, 3072, 4080, 4096,
];

// The sixteen octets of a keystream at each offset.
fn write_offsets(rt: &impl Print, stream: &[u8])
    requires { 4112 ≤ length stream.now }
{
    for offset in OFFSETS {
        let _ = println!(rt; "{offset}: {}", Hex(&stream[offset..offset + 16]));
    }
}

fn write_stream(rt: &impl Print, key: &[u8]) {
    let mut stream = [0; 4112];
    let answer = whole::rc4(key, &mut stream);
    let _ = println!(rt; "RFC 6229 {}: {}", Hex(key), answers::status(answer));
    write_offsets(rt, &stream);
}

pub fn run(rt: &impl Print) {
    for n in KEY_LENGTHS {
        write_stream(rt, &COUNTING[..n]);
        write_stream(rt, &DIGEST[32 - n..]);
    }
}

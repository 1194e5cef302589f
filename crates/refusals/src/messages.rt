// The keyed checksum and encrypted messages.
ghost use Rattle.std.specs.Prelude.{◌≤◌};

use crate::answers::{Answer, Digest, OnBuffer};
use crate::{samples, words};
use text::hex::Hex;
use tokens::answer::status_number;
use tokens::strength::Strength;
use tokens::{checksum, message};

// Checksums that are refused. A case has its name, the usage and the number of octets.
fn refused_checksums(rt: &impl Print) {
    let octets = samples::octets();
    let cases = [
        ("for usage 0", 0, 4),
        ("for usage 16", 16, 4),
        ("of 32769", 6, 32769),
        ("of 32769 for usage 0", 0, 32769),
    ];
    for (name, usage, n) in cases {
        let answer = checksum::checksum(samples::KEY, usage, &octets[..n]);
        let _ = println!(rt; "checksum {name}: {}", Answer(answer.map(Digest)));
    }
}

// Tests the checksum of four octets against these and against four others.
fn tested_checksums(rt: &impl Print) {
    let octets = samples::octets();
    let four = &octets[..4];
    let sum = checksum::checksum(samples::KEY, 6, four).unwrap_or_default();
    let cases: [(&str, &[u8], &[u8]); 3] = [
        ("the checksum", four, &sum),
        ("another", &octets[1..5], &sum),
        ("15 octets", four, &[0x5a; 15]),
    ];
    for (name, data, sum) in cases {
        let answer = checksum::checksum_test(samples::KEY, 6, data, sum);
        let _ = println!(rt; "checksum_test of {name}: {}", status_number(&answer));
    }
}

// This and `decrypt` stay two functions: the fixed output has their calls in turn, and they differ in the call.
fn encrypt(rt: &impl Print, name: &str, usage: u32, start: usize, len: usize) {
    let answer = OnBuffer::of(
        samples::buffer(),
        |buf| samples::encrypt(Strength::Full, usage, buf, start, len),
    );
    let _ = println!(rt; "encrypt {name}: {answer}");
}

fn decrypt(rt: &impl Print, name: &str, usage: u32, start: usize, len: usize) {
    let answer = OnBuffer::of(
        samples::buffer(),
        |buf| message::decrypt(samples::KEY, Strength::Full, usage, buf, start, len),
    );
    let _ = println!(rt; "decrypt {name}: {answer}");
}

// Messages that are refused. A case has its name, the usage, the start and the length. An encrypted message has 24 octets more than the
// message, and the buffer has 32,802.
fn refused_messages(rt: &impl Print) {
    let encryptions = [
        ("for usage 0", 0, 0, 76),
        ("for usage 16", 16, 0, 76),
        ("to one past the buffer", 7, 32703, 76),
        ("of 32769 where it does not fit", 7, 10, 32769),
    ];
    for (name, usage, start, len) in encryptions {
        encrypt(rt, name, usage, start, len);
    }
    let decryptions = [
        ("for usage 0", 0, 0, 100),
        ("for usage 16", 16, 0, 100),
        ("of 23", 7, 0, 23),
        ("of 32793", 7, 10, 32793),
        ("to one past the buffer", 7, 32703, 100),
        ("of another checksum", 7, 0, 100),
    ];
    for (name, usage, start, len) in decryptions {
        decrypt(rt, name, usage, start, len);
    }
    encrypt(rt, "of 32769", 7, 0, 32769);
}

pub fn refused(rt: &impl Print) {
    refused_checksums(rt);
    tested_checksums(rt);
    refused_messages(rt);
}

fn write_checksums(rt: &impl Print) {
    let octets = samples::octets();
    for usage in [6, 15] {
        for n in [0, 300] {
            let sum = checksum::checksum(samples::KEY, usage, &octets[..n]).unwrap_or_default();
            let _ = println!(rt; "checksum {usage} {n}: {}", Hex(&sum));
        }
    }
}

// A message of 0 to 300 octets.
fn write_message(rt: &impl Print, strength: Strength, usage: u32, len: usize)
    requires { len ≤ 300 }
{
    let mut buf = [0; 324];
    let region = &mut buf[..24 + len];
    samples::fill(&mut region[24..]);
    let _ = samples::encrypt(strength, usage, region, 0, len);
    let strength = words::strength(strength);
    let _ = println!(rt; "message {strength} {usage} {len}: {}", Hex(region));
}

pub fn whole(rt: &impl Print) {
    write_checksums(rt);
    for len in [0, 300] {
        for strength in samples::STRENGTHS {
            for usage in [3, 13] {
                write_message(rt, strength, usage, len);
            }
        }
    }
}

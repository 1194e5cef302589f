// Wrap tokens.
ghost use Rattle.std.specs.Prelude.{◌≤◌, length};

use crate::answers::{Digest, OnBuffer, Opened};
use crate::{samples, words};
use primitives::whole;
use text::hex::Hex;
use tokens::context::{Context, Sender};
use tokens::strength::Strength;
use tokens::wrap;

// Tokens of an empty message, sealed and clear, that were signed with 02 in the pad's place: 33 octets, and five zeros.
const SEALED_PAD_2: [u8; 38] =
    *b"\x02\x01\x11\x00\x10\x00\xff\xff\x3f\xc8\x0f\x75\x62\x56\x41\x62\xe8\x61\x4c\x20\x71\x99\x65\x2d\x1b\x96\x3e\x2a\x04\x65\xe8\x34\x47\x00\x00\x00\x00\x00";

const CLEAR_PAD_2: [u8; 38] =
    *b"\x02\x01\x11\x00\xff\xff\xff\xff\xe0\x4a\x06\x20\x43\x1f\x6c\x7c\xe3\x83\x09\x3a\xaf\x7a\x45\x12\xc0\xc1\xc2\xc3\xc4\xc5\xc6\xc7\x02\x00\x00\x00\x00\x00";

// The answer of a call that opens the token in the `len` octets of a buffer from `start`.
fn opened<const N: usize>(
    sender: Sender,
    buf: [u8; N],
    start: usize,
    len: usize,
) -> OnBuffer<Opened> {
    let context = samples::context(Strength::Full, sender);
    OnBuffer::of(
        buf,
        |buf| wrap::wrap_open(context, buf, start, len).map(Opened),
    )
}

fn write(rt: &impl Print, name: &str, start: usize, len: usize) {
    let context = samples::context(Strength::Full, Sender::Initiator);
    let answer = OnBuffer::of(
        samples::buffer(),
        |buf| samples::wrap_write(context, true, buf, start, len),
    );
    let _ = println!(rt; "wrap_write {name}: {answer}");
}

fn open(rt: &impl Print, name: &str, start: usize, len: usize) {
    let answer = opened(Sender::Initiator, samples::buffer(), start, len);
    let _ = println!(rt; "wrap_open {name}: {answer}");
}

// Regions that are refused, each with its start and its length. A token has 33 octets beside its message, and the buffer has 32,802. The
// calls stand one by one, since the fixed output has writes and reads in turn.
fn refused_regions(rt: &impl Print) {
    write(rt, "of 32769", 0, 32769);
    open(rt, "of 32", 0, 32);
    open(rt, "of 32802", 0, 32802);
    write(rt, "to one past the buffer", 32765, 5);
    write(rt, "of 32769 where it does not fit", 1, 32769);
    open(rt, "to one past the buffer", 32765, 38);
    open(rt, "of another header", 0, 38);
}

// A token with a message of five octets.
fn token_of_five(sealed: bool) -> [u8; 38] {
    let mut token = [0x5a; 38];
    let context = samples::context(Strength::Full, Sender::Initiator);
    let _ = samples::wrap_write(context, sealed, &mut token, 0, 5);
    token
}

// A token as it is, with an octet of its message changed, and with another header.
fn opened_tokens(rt: &impl Print, sealed: bool) {
    let token = token_of_five(sealed);
    let mut changed = token;
    changed[36] ^= 0x01;
    let mut des = token;
    des[4..6].fill(0x00);
    let cases = [
        ("", Sender::Initiator, token),
        (" from the wrong role", Sender::Acceptor, token),
        (" of a changed message", Sender::Initiator, changed),
        (" of DES's SEAL_ALG", Sender::Initiator, des),
    ];
    for (name, sender, token) in cases {
        let answer = opened(sender, token, 0, 38);
        let _ = println!(rt; "{} token, wrap_open{name}: {answer}", words::seal(sealed));
    }
}

fn opened_pads(rt: &impl Print) {
    for (sealed, token) in [(true, SEALED_PAD_2), (false, CLEAR_PAD_2)] {
        let answer = opened(Sender::Initiator, token, 0, 33);
        let seal = words::seal(sealed);
        let _ = println!(rt; "{seal} token, wrap_open of another pad: {answer}");
    }
}

pub fn refused(rt: &impl Print) {
    refused_regions(rt);
    opened_tokens(rt, true);
    opened_tokens(rt, false);
    opened_pads(rt);
}

// A token with a message of `len` octets, in a buffer that it fills: its octets, or if it is long their MD5 digest.
fn write_token(rt: &impl Print, context: Context, sealed: bool, buf: &mut [u8], len: usize)
    requires { 32 ≤ length buf.old }
{
    samples::fill(&mut buf[32..]);
    let _ = samples::wrap_write(context, sealed, buf, 0, len);
    let strength = words::strength(context.strength);
    let sender = words::sender(context.sender);
    let _ = print!(rt; "wrap {strength} {sender} {} {len}", words::seal(sealed));
    if buf.len() <= 333 {
        let _ = println!(rt; ": {}", Hex(buf));
    } else {
        let digest = whole::md5(buf).unwrap_or_default();
        let _ = println!(rt; " md5: {}", Digest(digest));
    }
}

// Tokens with messages of 0, 300 and 32,768 octets.
fn write_tokens(rt: &impl Print, context: Context, sealed: bool) {
    let mut buf = samples::buffer();
    for len in [0, 300, 32768] {
        write_token(rt, context, sealed, &mut buf[..33 + len], len);
    }
}

pub fn whole(rt: &impl Print) {
    for strength in samples::STRENGTHS {
        for sender in samples::SENDERS {
            for sealed in [true, false] {
                write_tokens(rt, samples::context(strength, sender), sealed);
            }
        }
    }
}

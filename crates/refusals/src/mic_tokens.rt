// MIC tokens.
use crate::answers::{Answer, OnBuffer};
use crate::{samples, words};
use text::hex::Hex;
use tokens::context::Sender;
use tokens::mic;
use tokens::strength::Strength;

// Writes that are refused. A case has its name, the data, and the start in a buffer of 40.
fn refused_writes(rt: &impl Print) {
    let octets = samples::octets();
    let context = samples::context(Strength::Full, Sender::Initiator);
    let cases: [(&str, &[u8], usize); 2] = [
        ("over 32769", &octets, 0),
        ("to one past the buffer", &octets[..4], 17),
    ];
    for (name, data, start) in cases {
        let answer = OnBuffer::of(
            [0x5a; 40],
            |buf| samples::mic_write(context, data, buf, start),
        );
        let _ = println!(rt; "mic_write {name}: {answer}");
    }
}

// A buffer of 40 that begins with the token over the first four octets.
fn token_of_four() -> [u8; 40] {
    let octets = samples::octets();
    let mut buf = [0x5a; 40];
    let context = samples::context(Strength::Full, Sender::Initiator);
    let _ = samples::mic_write(context, &octets[..4], &mut buf, 0);
    buf
}

// Reads that are refused. A case has its name, the sender, the data, the buffer, and the start and the length of the token in it.
fn refused_reads(rt: &impl Print) {
    let octets = samples::octets();
    let four = &octets[..4];
    let token = token_of_four();
    let mut other = token;
    other[0] = 0x02;
    let role = Sender::Initiator;
    let wrong = Sender::Acceptor;
    let cases: [(&str, Sender, &[u8], [u8; 40], usize, usize); 8] = [
        ("of the token", role, four, token, 0, 24),
        ("of 23", role, four, token, 0, 23),
        ("of 25", role, four, token, 0, 25),
        ("over 32769", role, &octets, token, 0, 24),
        ("to one past the buffer", role, four, token, 17, 24),
        ("from the wrong role", wrong, four, token, 0, 24),
        ("over other data", role, &octets[1..5], token, 0, 24),
        ("of another header", role, four, other, 0, 24),
    ];
    for (name, sender, data, buf, start, len) in cases {
        let context = samples::context(Strength::Full, sender);
        let answer = mic::mic_read(context, data, &buf, start, len);
        let _ = println!(rt; "mic_read {name}: {}", Answer(answer));
    }
}

pub fn refused(rt: &impl Print) {
    refused_writes(rt);
    refused_reads(rt);
}

// The tokens over the first `n` octets, for each `n`.
fn write_tokens(rt: &impl Print, strength: Strength, sender: Sender) {
    let octets = samples::octets();
    let context = samples::context(strength, sender);
    for n in [0, 300] {
        let mut token = [0; 24];
        let _ = samples::mic_write(context, &octets[..n], &mut token, 0);
        let strength = words::strength(strength);
        let sender = words::sender(sender);
        let _ = println!(rt; "mic {strength} {sender} {n}: {}", Hex(&token));
    }
}

pub fn whole(rt: &impl Print) {
    for strength in samples::STRENGTHS {
        for sender in samples::SENDERS {
            write_tokens(rt, strength, sender);
        }
    }
}

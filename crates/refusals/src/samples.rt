// The key, the confounder, the number and the octets that the lines are about, and the calls that several lines make with them.
use tokens::answer::{Refusal, Unwrapped};
use tokens::context::{Context, Sender};
use tokens::strength::Strength;
use tokens::{message, mic, wrap};

pub const KEY: [u8; 16] = [
    0x00, 0x11, 0x22, 0x33, 0x44, 0x55, 0x66, 0x77, 0x88, 0x99, 0xaa, 0xbb, 0xcc, 0xdd, 0xee, 0xff,
];

pub const CONFOUNDER: [u8; 8] = [0xc0, 0xc1, 0xc2, 0xc3, 0xc4, 0xc5, 0xc6, 0xc7];

pub const SEQUENCE: u32 = 16909060;

pub const STRENGTHS: [Strength; 2] = [Strength::Full, Strength::Export];

pub const SENDERS: [Sender; 2] = [Sender::Initiator, Sender::Acceptor];

pub fn context(strength: Strength, sender: Sender) -> Context {
    Context {
        key: KEY,
        strength,
        sender,
    }
}

// A message: its octet i is 7 i + 1, modulo 256.
pub fn fill(message: &mut [u8]) {
    let mut next: u8 = 1;
    for octet in message {
        *octet = next;
        next = next.wrapping_add(7);
    }
}

// The octets of which a call is given a part as its data. Like the buffer below they are made here and not where they are lent,
// since the prover takes long over a large array that is made and lent in one function.
pub fn octets() -> [u8; 32769] {
    let mut octets = [0; 32769];
    fill(&mut octets);
    octets
}

// The buffer of calls that are refused.
pub fn buffer() -> [u8; 32802] {
    [0x5a; 32802]
}

pub fn encrypt(
    strength: Strength,
    usage: u32,
    buf: &mut [u8],
    start: usize,
    len: usize,
) -> Result<usize, Refusal> {
    message::encrypt(KEY, strength, usage, CONFOUNDER, buf, start, len)
}

pub fn mic_write(
    context: Context,
    data: &[u8],
    buf: &mut [u8],
    start: usize,
) -> Result<usize, Refusal> {
    mic::mic_write(context, SEQUENCE, data, buf, start)
}

pub fn wrap_write(
    context: Context,
    sealed: bool,
    buf: &mut [u8],
    start: usize,
    len: usize,
) -> Result<usize, Refusal> {
    wrap::wrap_write(context, SEQUENCE, CONFOUNDER, sealed, buf, start, len)
}

// The test suites of RFC 1320 (A.5), RFC 1321 (A.5) and RFC 2104 (appendix).
use crate::answers::Digest;
use primitives::limits::LengthError;
use primitives::whole;

// The messages of A.5, which are the same in both documents.
const MESSAGES: [&str; 7] = [
    "",
    "a",
    "abc",
    "message digest",
    "abcdefghijklmnopqrstuvwxyz",
    "ABCDEFGHIJKLMNOPQRSTUVWXYZabcdefghijklmnopqrstuvwxyz0123456789",
    "12345678901234567890123456789012345678901234567890123456789012345678901234567890",
];

// The tests of A.5 of a document.
fn write_suite<F: Fn(&[u8]) -> Result<[u8; 16], LengthError>>(
    rt: &impl Print,
    document: &str,
    digest: F,
)
    requires { F.IsAlwaysCallable digest }
{
    for (i, message) in MESSAGES.iter().enumerate() {
        let answer = digest(message.as_bytes());
        let _ = println!(rt; "{document} A.5 {}: {}", i + 1, Digest(answer));
    }
}

// The keys and the messages of RFC 2104.
const CODES: [(&[u8], &[u8]); 3] = [
    (&[0x0b; 16], b"Hi There"),
    (b"Jefe", b"what do ya want for nothing?"),
    (&[0xaa; 16], &[0xdd; 50]),
];

fn write_codes(rt: &impl Print) {
    for (i, (key, message)) in CODES.iter().enumerate() {
        let answer = whole::hmac_md5(key, message);
        let _ = println!(rt; "RFC 2104 {}: {}", i + 1, Digest(answer));
    }
}

pub fn run(rt: &impl Print) {
    write_suite(rt, "RFC 1320", whole::md4);
    write_suite(rt, "RFC 1321", whole::md5);
    write_codes(rt);
}

// The encrypted message: RFC 4757, section 5.
//
// A region is a buffer, a start and a length, and a usage is a number, as C gives them. That a region leaves its buffer, or a number is
// no usage, is an answer of the calls, and `answer` says which comes first. Confounder and message are lent apart, as a writer is given
// them.
ghost use Rattle.std.specs.Prelude.{◌≡◌, ◌++◌, ◌+◌, ◌≤◌, length, drop};
ghost use Rattle.tokens.specs.Answer.{status_answer, status_number, map_ok, number_found};
ghost use Rattle.tokens.specs.Limits.{buffer_after};
ghost use Rattle.tokens.specs.Message as Spec;

use crate::answer::Refusal;
use crate::strength::Strength;
use crate::usage::Usage;
use crate::{checks, export, limits, mac, octets, stream};

// Octets before the message: the checksum's sixteen and the confounder's eight.
pub const OVERHEAD: usize = 24;

// Where the confounder stands.
const CONFOUNDER_AT: usize = 16;

// A key with what it is used for. This and `Keys` have no `Debug` and no `==`, as `Context`.
#[derive(Clone, Copy)]
struct MessageKey {
    key: [u8; 16],
    strength: Strength,
    usage: Usage,
}

// K1, and K2, which is K1 before export strength sets its octets.
#[derive(Clone, Copy)]
struct Keys {
    k1: [u8; 16],
    k2: [u8; 16],
}

impl MessageKey {
    // K1 and K2.
    fn derive(self) -> Keys
        ensures { (result.k1 ≡ Spec.k1 self.key self.strength self.usage.t) × (result.k2 ≡ Spec.k2 self.key self.strength self.usage.t) }
    {
        let salt = self.usage.salt(self.strength);
        let k2 = mac::of(self.key, salt.as_slice());
        let k1 = export::fill(self.strength, k2);
        Keys { k1, k2 }
    }

    // Encrypts a confounder and a message in place, and returns the checksum, which goes before them.
    fn seal(self, confounder: &mut [u8; 8], message: &mut [u8]) -> [u8; 16]
        ensures { result ++ (confounder.new ++ message.new) ≡ Spec.encrypt self.key self.strength self.usage.t (Spec.parts confounder.old message.old) }
    {
        let Keys { k1, k2 } = self.derive();
        let checksum = mac::of_two(k2, confounder, message);
        stream::run(mac::of(k1, &checksum), confounder, message);
        checksum
    }

    // Decrypts a confounder and a message in place, and encrypts them again if the checksum is not theirs.
    fn unseal(
        self,
        checksum: [u8; 16],
        confounder: &mut [u8; 8],
        message: &mut [u8],
    ) -> Result<(), Refusal>
        ensures status { result ≡ status_answer (Spec.opened self.key self.strength self.usage.t (checksum ++ (confounder.old ++ message.old))) }
        ensures octets { confounder.new ++ message.new ≡ buffer_after Spec.plain 0 (confounder.old ++ message.old) (Spec.opened self.key self.strength self.usage.t (checksum ++ (confounder.old ++ message.old))) }
    {
        let Keys { k1, k2 } = self.derive();
        let k3 = mac::of(k1, &checksum);
        stream::run(k3, confounder, message);
        let expected = mac::of_two(k2, confounder, message);
        if let Err(refusal) = checks::equal(&checksum, &expected, Refusal::Checksum) {
            stream::run(k3, confounder, message);
            return Err(refusal);
        }
        Ok(())
    }

    // Writes the encrypted message over a region, in which the message stands.
    fn write(self, mut confounder: [u8; 8], region: &mut [u8])
        requires { 24 ≤ length region.old }
        ensures { region.new ≡ Spec.encrypt self.key self.strength self.usage.t (Spec.parts confounder (drop 24 region.old)) }
    {
        let checksum = self.seal(&mut confounder, &mut region[OVERHEAD..]);
        octets::place(region, 0, &checksum);
        octets::place(region, CONFOUNDER_AT, &confounder);
    }

    // Restores confounder and message in a region, or leaves it as it came.
    fn read(self, region: &mut [u8]) -> Result<(), Refusal>
        requires { 24 ≤ length region.old }
        ensures status { result ≡ status_answer (Spec.opened self.key self.strength self.usage.t region.old) }
        ensures octets { region.new ≡ buffer_after Spec.plain 16 region.old (Spec.opened self.key self.strength self.usage.t region.old) }
    {
        let checksum = octets::array_at(region, 0);
        let mut confounder = octets::array_at(region, CONFOUNDER_AT);
        let status = self.unseal(checksum, &mut confounder, &mut region[OVERHEAD..]);
        octets::place(region, CONFOUNDER_AT, &confounder);
        status
    }
}

// Encrypts the `len` octets that stand 24 after `start`, and returns how many octets it wrote from `start`.
pub fn encrypt(
    key: [u8; 16],
    strength: Strength,
    usage: u32,
    confounder: [u8; 8],
    buf: &mut [u8],
    start: usize,
    len: usize,
) -> Result<usize, Refusal>
    ensures answer { result ≡ map_ok length (Spec.encryption key strength usage confounder buf.old start len) }
    ensures buffer { buf.new ≡ buffer_after Spec.all_octets start buf.old (Spec.encryption key strength usage confounder buf.old start len) }
{
    checks::length(0, limits::MOST_MESSAGE, len)?;
    let total = OVERHEAD + len;
    checks::region(start, total, buf.len())?;
    let usage = Usage::try_from(usage)?;
    let key = MessageKey {
        key,
        strength,
        usage,
    };
    key.write(confounder, &mut buf[start..start + total]);
    Ok(total)
}

// Decrypts the encrypted message in the region of `len` octets from `start`, and returns the length of the message in it. It is
// done exactly when the rule of section 5 writes some confounder and message as the region's octets (`exact`); a region that is
// refused is left as it came.
pub fn decrypt(
    key: [u8; 16],
    strength: Strength,
    usage: u32,
    buf: &mut [u8],
    start: usize,
    len: usize,
) -> Result<usize, Refusal>
    ensures answer { result ≡ map_ok Spec.message_length (Spec.decryption key strength usage buf.old start len) }
    ensures buffer { buf.new ≡ buffer_after Spec.plain (start + 16) buf.old (Spec.decryption key strength usage buf.old start len) }
    ensures exact { Spec.ReadsExactly key strength usage buf.old start len (status_number result) (number_found result) buf.new }
{
    checks::length(OVERHEAD, OVERHEAD + limits::MOST_MESSAGE, len)?;
    checks::region(start, len, buf.len())?;
    let usage = Usage::try_from(usage)?;
    let key = MessageKey {
        key,
        strength,
        usage,
    };
    key.read(&mut buf[start..start + len])?;
    Ok(len - OVERHEAD)
}

// What MIC and Wrap tokens have in common: SND_SEQ, SGN_CKSUM, Kseq, Kcrypt and the first 24 octets. RFC 4757, sections 7.2 and 7.3.
ghost use Rattle.std.specs.Prelude.{◌≡◌, ◌++◌, ◌<◌, take};
ghost use Rattle.primitives.specs.Hash.{absorb, begun, finished};
ghost use Rattle.primitives.specs.Hmac.{hmac};
ghost use Rattle.primitives.specs.declared.hash.Algorithm.TheVariants as algorithm;
ghost use Rattle.tokens.specs.Checksum.{signature_key};
ghost use Rattle.tokens.specs.Token as Spec;

use crate::answer::Refusal;
use crate::context::{Context, Sender};
use crate::strength::Strength;
use crate::{checks, checksum, export, mac, octets, stream};
use primitives::hash::{Algorithm, Hash};

// Where SND_SEQ and SGN_CKSUM stand.
const SEQUENCE_AT: usize = 8;

const CHECKSUM_AT: usize = 16;

// The direction octets of a sender, as in RFC 1964.
fn direction(sender: Sender) -> [u8; 4]
    ensures { result ≡ Spec.direction sender }
{
    match sender {
        Sender::Initiator => [0x00; 4],
        Sender::Acceptor => [0xff; 4],
    }
}

// The sequence number in four octets, the highest first.
fn sequence_octets(n: u32) -> [u8; 4]
    ensures { result ≡ Spec.sequence_octets n }
{
    n.to_be_bytes()
}

// The number whose four octets a sequence field begins with.
fn number_of(field: [u8; 8]) -> u32
    ensures { result ≡ Spec.number_of field }
{
    let [a, b, c, d, ..] = field;
    u32::from_be_bytes([a, b, c, d])
}

// SND_SEQ before it is encrypted.
fn sequence_field(sender: Sender, n: u32) -> [u8; 8]
    ensures { result ≡ Spec.sequence_field sender n }
{
    let [a, b, c, d] = sequence_octets(n);
    let [e, f, g, h] = direction(sender);
    [a, b, c, d, e, f, g, h]
}

// SGN_CKSUM begun: T and the header have been digested, and the text is to follow.
pub fn begin_checksum(t: [u8; 4], header: [u8; 8]) -> Hash
    ensures { result ≡ absorb (begun algorithm.Md5) (t ++ header) }
{
    Hash::new(Algorithm::Md5).update(&t).update(&header)
}

// SGN_CKSUM of what has been digested.
pub fn finish_checksum(key: [u8; 16], hash: Hash) -> [u8; 8]
    ensures { result ≡ take 8 (hmac (signature_key key) (finished hash)) }
{
    let digest = hash.finish();
    let sum = mac::of(checksum::signature_key(key), &digest);
    octets::array_at(&sum, 0)
}

// The first step of Kseq and of Kcrypt: HMAC of the salt, and the fill for export strength.
fn salted_key(strength: Strength, key: [u8; 16]) -> [u8; 16]
    ensures { result ≡ Spec.salted_key strength key }
{
    let salt = strength.salt([0; 4]);
    export::fill(strength, mac::of(key, salt.as_slice()))
}

// Kseq.
fn sequence_key(context: Context, sum: [u8; 8]) -> [u8; 16]
    ensures { result ≡ Spec.sequence_key context sum }
{
    mac::of(salted_key(context.strength, context.key), &sum)
}

// Klocal.
fn local_key(key: [u8; 16]) -> [u8; 16]
    ensures { result ≡ Spec.local_key key }
{
    key.map(|octet| octet ^ 0xf0)
}

// Kcrypt.
pub fn sealing_key(context: Context, n: u32) -> [u8; 16]
    ensures { result ≡ Spec.sealing_key context n }
{
    mac::of(
        salted_key(context.strength, local_key(context.key)),
        &sequence_octets(n),
    )
}

// The first 24 octets of a token.
pub fn front(context: Context, header: [u8; 8], sum: [u8; 8], n: u32) -> [u8; 24]
    ensures { result ≡ Spec.front context header sum n }
{
    let field = stream::eight(
        sequence_key(context, sum),
        sequence_field(context.sender, n),
    );
    let mut octets = [0; 24];
    octets::place(&mut octets, 0, &header);
    octets::place(&mut octets, SEQUENCE_AT, &field);
    octets::place(&mut octets, CHECKSUM_AT, &sum);
    octets
}

// SGN_CKSUM of a token's first 24 octets.
pub fn checksum_in(front: [u8; 24]) -> [u8; 8]
    ensures { result ≡ Spec.checksum_in front }
{
    octets::array_at(&front, CHECKSUM_AT)
}

// The sequence number in a token's first 24 octets, if the direction is that of the expected sender.
pub fn number_in(context: Context, front: [u8; 24]) -> Result<u32, Refusal>
    ensures { result ≡ Spec.number_in context front }
{
    let key = sequence_key(context, checksum_in(front));
    let field = stream::eight(key, octets::array_at(&front, SEQUENCE_AT));
    checks::equal(&field[4..], &direction(context.sender), Refusal::Direction)?;
    Ok(number_of(field))
}

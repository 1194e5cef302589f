// UTF-8 (RFC 3629) read as the units of UTF-16 (RFC 2781). std has `str::from_utf8` and `encode_utf16`; this is written out, since the
// must-fail edit `surrogate_taken` takes half of the surrogates for characters, which std's `char` can't be.
ghost use Rattle.std.specs.Prelude.{◌≡◌, ◌+◌, ◌≤◌, ◌<◌, length, Some};
ghost use Rattle.text.specs.Utf8 as Spec;

use crate::units::Units;
use std::error::Error;
use std::fmt;

// Why a text has no units.
#[derive(Clone, Copy, Debug, PartialEq, Eq)]
pub enum TextError {
    NotUtf8,
    TooLong,
}

impl fmt::Display for TextError {
    ghost output = { λ error. Some (Spec.words error) };

    fn fmt<W: fmt::Write>(&self, f: &mut fmt::Formatter<W>) -> fmt::Result {
        f.write_str(match self {
            TextError::NotUtf8 => "not UTF-8",
            TextError::TooLong => "longer than 1024 octets",
        })
    }
}

impl Error for TextError {}

// The character at the front of some octets: how many of them it takes, and its number.
#[derive(Clone, Copy, Debug, PartialEq, Eq)]
struct Character {
    width: usize,
    value: u32,
}

// Writes the octets of a character at the front of a buffer, and returns them.
#[tactic(auto, unfolding(crate::specs::Utf8::utf8))]
fn encoded(character: u32, buf: &mut [u8; 4]) -> &[u8]
    requires { character < 0x110000 }
    ensures { result.now ≡ Spec.utf8 character }
{
    let last = (0x80 + character % 64) as u8;
    let third = (0x80 + character / 64 % 64) as u8;
    let second = (0x80 + character / 4096 % 64) as u8;
    if character < 0x80 {
        *buf = [character as u8, 0, 0, 0];
        &buf[..1]
    } else if character < 0x800 {
        *buf = [(0xc0 + character / 64) as u8, last, 0, 0];
        &buf[..2]
    } else if character < 0x10000 {
        *buf = [(0xe0 + character / 4096) as u8, third, last, 0];
        &buf[..3]
    } else {
        *buf = [(0xf0 + character / 262144) as u8, second, third, last];
        &buf[..4]
    }
}

// How many octets a character takes, and the bits of it that stand in the first, by that octet.
#[tactic(auto, unfolding(crate::specs::Utf8::width, crate::specs::Utf8::leading_bits))]
fn first_octet(first: u8) -> (usize, u8)
    ensures width { result.0 ≡ Spec.width first }
    ensures bits { result.1 ≡ Spec.leading_bits first }
    ensures some { (1 ≤ result.0) × (result.0 ≤ 4) × (result.1 < 128) }
{
    match first {
        0..=0x7f => (1, first),
        0x80..=0xdf => (2, first % 32),
        0xe0..=0xef => (3, first % 16),
        0xf0..=0xff => (4, first % 8),
    }
}

// The number that the octets of one character say: the bits of the first, and six of each after it.
fn value(bits: u8, after: &[u8]) -> u32
    requires { (bits < 128) × (length after.now ≤ 3) }
    ensures { result ≡ Spec.value_after bits after.now }
{
    let mut value = bits as u32;
    for octet in after {
        value = value * 64 + (octet % 64) as u32;
    }
    value
}

// Whether a number is a character.
#[tactic(auto, unfolding(crate::specs::Utf8::is_character))]
fn is_character(number: u32) -> bool
    ensures { result ≡ Spec.is_character number }
{
    matches!(number, 0..=0xd7ff | 0xe000..=0x10ffff)
}

// The character at the front of some octets: they begin with the octets that it is written in.
fn character_in(octets: &[u8]) -> Option<Character>
    requires { 1 ≤ length octets.now }
    ensures { result ≡ Spec.character_in octets.now }
{
    let (width, bits) = first_octet(octets[0]);
    if octets.len() < width {
        return None;
    }
    let value = value(bits, &octets[1..width]);
    if !is_character(value) {
        return None;
    }
    let mut buf = [0; 4];
    if &octets[..width] == encoded(value, &mut buf) {
        Some(Character { width, value })
    } else {
        None
    }
}

// The units of a text of at most 1,024 octets. It is read exactly when it is the octets of some characters.
pub fn units(text: &[u8]) -> Result<Units, TextError>
    ensures { Spec.ReadsExactly text.now result }
{
    if Units::MOST < text.len() {
        return Err(TextError::TooLong);
    }
    let mut units = Units::new();
    let mut ahead = text;
    // The width of a character is known only when it has been read.
    while !ahead.is_empty() {
        let Some(found) = character_in(ahead) else {
            return Err(TextError::NotUtf8);
        };
        units.push(found.value);
        ahead = ahead.split_at(found.width).1;
    }
    Ok(units)
}

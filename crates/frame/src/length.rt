// The length of DER: X.690, sections 8.1.3 and 10.1.
ghost use Rattle.std.specs.Prelude.{◌≡◌, ◌+◌, ◌≤◌, ◌<◌, ◌∷◌, length};
ghost use Rattle.frame.specs.Length as Spec;

use tokens::short::Short;

// A length at the front of some octets: how many octets it has, and how many it counts, if all that it counts follows it; or how many it
// has, if what follows is cut off; or that the octets end inside it; or that they begin no length.
#[derive(Clone, Copy, Debug, PartialEq, Eq)]
pub enum Contents {
    Counted { width: usize, value: usize },
    Cut { width: usize },
    Incomplete,
    Wrong,
}

// The shortest form of a number below 65,536.
#[tactic(auto, using(crate::proofs::Lengths::der_short, crate::proofs::Lengths::der_two, crate::proofs::Lengths::der_three))]
pub fn shortest(n: usize) -> Short<3>
    requires { n < 65536 }
    ensures { result ≡ Spec.der_length n }
{
    match n {
        ..128 => Short::from_slice(&[n as u8]),
        ..256 => Short::from_slice(&[0x81, n as u8]),
        _ => Short::from_slice(&[0x82, (n / 256) as u8, (n % 256) as u8]),
    }
}

// The number that octets say, the highest first, if it is at most `most`.
fn value_within(most: usize, octets: &[u8]) -> Option<usize>
    ensures { result ≡ Spec.up_to most (Spec.value_after 0 octets.now) }
{
    let mut value: usize = 0;
    for octet in octets {
        value = value.checked_mul(256)?.checked_add(usize::from(*octet))?;
        if most < value {
            return None;
        }
    }
    Some(value)
}

// A length of one octet, which is the number itself, with `rest` octets after it.
fn short_form(least: usize, value: usize, rest: usize) -> Contents
    ensures { result ≡ Spec.short_form least value rest }
{
    if value < least {
        Contents::Wrong
    } else if rest < value {
        Contents::Cut { width: 1 }
    } else {
        Contents::Counted { width: 1, value }
    }
}

// The least first digit of `count` in the shortest form: it is not zero, and a number of one digit is 128 or more.
fn least_digit(count: usize) -> u8
    ensures { result ≡ Spec.least_digit count }
{
    if count == 1 { 128 } else { 1 }
}

// A length whose first octet says that it has `count` digits, with `rest` after that octet.
fn long_form(least: usize, count: usize, rest: &[u8]) -> Contents
    requires { (least ≤ 128) × (0 < count) × (count < 127) }
    ensures { Spec.LengthIs least ((128 + count) ∷ rest.now) result }
{
    match rest {
        [digit, ..] if *digit < least_digit(count) => Contents::Wrong,
        _ if rest.len() < count => Contents::Incomplete,
        _ => match value_within(rest.len() - count, &rest[..count]) {
            Some(value) => Contents::Counted {
                width: 1 + count,
                value,
            },
            None => Contents::Cut { width: 1 + count },
        },
    }
}

// The length at the front of some octets, if it has the shortest form and counts at least `least` octets.
pub fn contents_in(least: usize, octets: &[u8]) -> Contents
    requires { least ≤ 128 }
    ensures { Spec.LengthIs least octets.now result }
{
    match octets {
        [] => Contents::Incomplete,
        [first @ ..128, rest @ ..] => short_form(least, usize::from(*first), rest.len()),
        [0x80 | 0xff, ..] => Contents::Wrong,
        [first, rest @ ..] => long_form(least, usize::from(*first) - 128, rest),
    }
}

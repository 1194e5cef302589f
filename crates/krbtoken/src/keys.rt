// The verbs that print sixteen octets: the key of a password, and the keyed checksum.
use crate::arguments::Arguments;
use crate::failure::{Failure, WrongUse};
use crate::{input, output};
use text::utf8;
use text::utf8::TextError;
use tokens::{checksum, key};

// Octets of the longest password with a newline after it, and one more.
const PASSWORD_BUFFER: usize = 1026;

const TOO_LONG: &str = "standard input is too long: expected at most 1024 octets";

// Only `key` below reads a text, so the text is the password.
impl From<TextError> for Failure {
    fn from(error: TextError) -> Failure {
        Failure::WrongUse(WrongUse::Input(match error {
            TextError::NotUtf8 => "the password is wrong: expected UTF-8",
            TextError::TooLong => TOO_LONG,
        }))
    }
}

// Prints the key of a password, which ends before one closing newline.
pub fn key(rt: HostRuntime) -> Result<(), Failure> {
    let mut buf = [0; PASSWORD_BUFFER];
    let text = input::read(&mut rt.stdin(), &mut buf, TOO_LONG, input::UNREADABLE)?;
    let units = utf8::units(input::without_newline(text))?;
    let key = key::password_key(units.as_slice())?;
    output::digits(rt, &key)
}

pub fn checksum(arguments: &mut Arguments) -> Result<(), Failure> {
    let key = arguments.key()?;
    let usage = arguments.usage()?;
    let rt = arguments.rt;
    let mut buf = [0; input::BUFFER];
    let data = input::standard(rt, &mut buf)?;
    let checksum = checksum::checksum(key, usage, data)?;
    output::digits(rt, &checksum)
}

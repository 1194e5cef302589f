// The words of the command line, one after the other. An error never repeats the word that is wrong, since it may be a key.
ghost use Rattle.std.specs.Prelude.{◌≤◌, length};

use crate::failure::WrongUse;
use crate::{help, input};
use std::env::FillError;
use std::fs::File;
use std::io;
use std::io::ErrorKind;
use std::rt::Env;
use text::words::Verb;
use text::{decimal, hex, words};
use tokens::context::{Context, Sender};
use tokens::strength::Strength;

// The most octets of a word that are looked at. A path is shorter.
const WORD: usize = 4096;

// The system's number for a path that is too long.
const NAME_TOO_LONG: i32 = 36;

const WRONG_KEY: &str =
    "the key file is wrong: expected 32 hexadecimal digits and at most one newline after them";

const NO_KEY: &str = "the key file can't be read, expected 32 hexadecimal digits";

// The words of the command line that were not read yet.
#[derive(Clone, Copy)]
pub struct Arguments {
    pub rt: HostRuntime,
    next: usize,
}

impl Arguments {
    // The words after the program's name.
    pub fn new(rt: HostRuntime) -> Arguments {
        Arguments { rt, next: 1 }
    }

    // Reads the next word into a buffer. It is empty if there is none, and cut off if it is longer than the buffer.
    fn read<'a>(&mut self, buf: &'a mut [u8; WORD]) -> &'a [u8]
        ensures { length result.now ≤ 4096 }
    {
        let at = self.next;
        self.next = at.saturating_add(1);
        let length = match self.rt.arg(at, buf) {
            Ok(length) => length,
            Err(FillError::TooLong) => WORD,
            Err(FillError::NotPresent) => 0,
        };
        &buf[..length]
    }

    // What the next word means, or the error if it means nothing.
    fn meaning<T, F: Fn(&[u8]) -> Option<T>>(
        &mut self,
        meaning_of: F,
        wrong: &'static str,
    ) -> Result<T, WrongUse>
        requires { F.IsAlwaysCallable meaning_of }
    {
        let mut buf = [0; WORD];
        meaning_of(self.read(&mut buf)).ok_or(WrongUse::Input(wrong))
    }

    fn is_there(&self, at: usize) -> bool {
        !matches!(self.rt.arg(at, &mut []), Err(FillError::NotPresent))
    }

    // How many words are left. std counts the words of the command line only in `env::args`, which needs the heap.
    fn left(&self) -> usize {
        (0..usize::MAX)
            .find(|n| !self.is_there(self.next.saturating_add(*n)))
            .unwrap_or(usize::MAX)
    }

    // Whether the next word asks for the status. If so, it is read.
    pub fn asks_status(&mut self) -> bool {
        let mut ahead = *self;
        let mut buf = [0; WORD];
        let asks = ahead.read(&mut buf) == b"--status".as_slice();
        if asks {
            *self = ahead;
        }
        asks
    }

    // The verb, if as many words stand after it as it takes.
    pub fn verb(&mut self) -> Result<Verb, WrongUse> {
        let verb = self.meaning(
            words::verb_of,
            "the verb is missing or unknown: expected key, open, wrap, verify, mic, decrypt, encrypt, checksum, bill or help",
        )?;
        if help::counts(verb).contains(&self.left()) {
            Ok(verb)
        } else {
            Err(WrongUse::WordCount(verb))
        }
    }

    pub fn strength(&mut self) -> Result<Strength, WrongUse> {
        self.meaning(
            words::strength_of,
            "the strength is wrong: expected full or export",
        )
    }

    fn sender(&mut self) -> Result<Sender, WrongUse> {
        self.meaning(
            words::sender_of,
            "the sender is wrong: expected initiator or acceptor",
        )
    }

    // Whether the message is to be sealed.
    pub fn sealing(&mut self) -> Result<bool, WrongUse> {
        self.meaning(
            words::sealing_of,
            "the word for sealing is wrong: expected sealed or clear",
        )
    }

    // Whether the last word is there and says framed.
    pub fn framed(&mut self) -> Result<bool, WrongUse> {
        if self.left() == 0 {
            return Ok(false);
        }
        self.meaning(
            |word| words::is_framed(word).then_some(true),
            "the last word is wrong: expected framed, or nothing",
        )
    }

    pub fn sequence(&mut self) -> Result<u32, WrongUse> {
        self.meaning(
            decimal::read,
            "the sequence number is wrong: expected a whole number from 0 to 4294967295, in decimal",
        )
    }

    // A usage. Which numbers are usages is left to the library.
    pub fn usage(&mut self) -> Result<u32, WrongUse> {
        self.meaning(
            decimal::read,
            "the usage is wrong: expected a whole number from 1 to 15, in decimal",
        )
    }

    pub fn confounder(&mut self) -> Result<[u8; 8], WrongUse> {
        self.meaning(
            hex::decode::<8>,
            "the confounder is wrong: expected 16 hexadecimal digits",
        )
    }

    // Opens the file that the next word names, for reading. A path is taken only if it is UTF-8.
    pub fn file(&mut self) -> io::Result<File> {
        let mut buf = [0; WORD];
        let word = self.read(&mut buf);
        if word.len() == WORD {
            return Err(io::Error::from_raw_os_error(NAME_TOO_LONG));
        }
        match str::from_utf8(word) {
            Ok(path) => File::open(&self.rt, path),
            Err(_) => Err(io::Error::from(ErrorKind::InvalidFilename)),
        }
    }

    // The key in the file that the next word names: 32 digits, and at most one newline after them.
    pub fn key(&mut self) -> Result<[u8; 16], WrongUse> {
        let mut file = self.file().map_err(|error| WrongUse::Io(NO_KEY, error))?;
        let mut buf = [0; 64];
        let text = input::read(&mut file, &mut buf, WRONG_KEY, NO_KEY)?;
        hex::decode(input::without_newline(text)).ok_or(WrongUse::Input(WRONG_KEY))
    }

    // The key, the strength and the sender.
    pub fn context(&mut self) -> Result<Context, WrongUse> {
        Ok(Context {
            key: self.key()?,
            strength: self.strength()?,
            sender: self.sender()?,
        })
    }
}

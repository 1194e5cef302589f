// Why a run ends without its result, how that is told, and the status of the run.
use crate::help;
use crate::output::Refused;
use std::error::Error;
use std::fmt::Write;
use std::{fmt, io};
use text::words::Verb;
use tokens::answer::Refusal;

// The status of a run.
#[derive(Clone, Copy, Debug, PartialEq, Eq)]
pub enum Exit {
    Done = 0,
    Refused = 1,
    WrongUse = 2,
}

#[derive(Clone, Copy, Debug)]
pub enum Failure {
    // The library refused. It is told on standard output.
    Refused(Refusal),
    // A bill ended at a fault of a frame. It was told before the totals.
    Faulty,
    // It is told on standard error.
    WrongUse(WrongUse),
}

#[derive(Clone, Copy, Debug)]
pub enum WrongUse {
    // What is wrong and what was expected.
    Input(&'static str),
    // The verb takes another number of words.
    WordCount(Verb),
    // What can't be read or written, and why.
    Io(&'static str, io::Error),
}

impl From<Refusal> for Failure {
    fn from(refusal: Refusal) -> Failure {
        Failure::Refused(refusal)
    }
}

impl From<WrongUse> for Failure {
    fn from(wrong: WrongUse) -> Failure {
        Failure::WrongUse(wrong)
    }
}

// `?` is given an `io::Error` only by writes to standard output. An error of reading becomes a `WrongUse` where it is found.
impl From<io::Error> for Failure {
    fn from(error: io::Error) -> Failure {
        Failure::WrongUse(output_error(error))
    }
}

fn output_error(error: io::Error) -> WrongUse {
    WrongUse::Io("standard output can't be written", error)
}

impl fmt::Display for WrongUse {
    fn fmt<W: fmt::Write>(&self, f: &mut fmt::Formatter<W>) -> fmt::Result {
        match self {
            WrongUse::Input(what) => f.write_str(what),
            WrongUse::WordCount(verb) => write!(
                f,
                "the number of words is wrong: expected krbtoken {}",
                help::words(*verb)
            ),
            WrongUse::Io(what, error) => write!(f, "{what}: {}", Reason(*error)),
        }
    }
}

impl Error for WrongUse {}

// The system's words for an error. After them `io::Error` has their number, which is left out.
#[derive(Clone, Copy)]
struct Reason(io::Error);

impl fmt::Display for Reason {
    fn fmt<W: fmt::Write>(&self, f: &mut fmt::Formatter<W>) -> fmt::Result {
        let mut words = WithoutNumber {
            to: f,
            ended: false,
        };
        write!(words, "{}", self.0)
    }
}

// Writes the text of an error without the number at its end.
#[derive(Drop)]
struct WithoutNumber<'a, W> {
    to: &'a mut W,
    ended: bool,
}

impl<W: fmt::Write> fmt::Write for WithoutNumber<'_, W> {
    fn write_str(&mut self, text: &str) -> fmt::Result {
        if self.ended {
            return Ok(());
        }
        match text.split_once(" (os error ") {
            Some((words, _)) => {
                self.ended = true;
                self.to.write_str(words)
            }
            None => self.to.write_str(text),
        }
    }
}

// Writes why a run ended, and returns its status. An error of writing to standard error is ignored: there is nowhere left to write it.
pub fn report(rt: HostRuntime, ended: Result<(), Failure>) -> Exit {
    let wrong = match ended {
        Ok(()) => return Exit::Done,
        Err(Failure::Faulty) => return Exit::Refused,
        Err(Failure::Refused(refusal)) => match println!(rt; "{}", Refused(refusal)) {
            Ok(()) => return Exit::Refused,
            Err(error) => output_error(error),
        },
        Err(Failure::WrongUse(wrong)) => wrong,
    };
    let _ = eprintln!(rt; "krbtoken: {wrong}");
    Exit::WrongUse
}

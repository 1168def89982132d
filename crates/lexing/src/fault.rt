// What is wrong with a text: where, what was found there, and what was expected.
ghost use Rattle.std.specs.Prelude.{◌≡◌, ◌+◌, ◌^◌, ◌<◌};
ghost use Rattle.lexing.specs.declared.fault.Error.TheVariants.{Memory};
ghost use Rattle.lexing.specs.Places.{past, place_of};

use crate::lexer::is_continuation;
use std::alloc::{AllocError, AllocFailed};
use std::fmt;

// A mark around or between the parts of a sign.
#[derive(Clone, Copy, Debug, PartialEq, Eq)]
pub enum Mark {
    Open,
    Comma,
    Close,
}

// What could have stood in the place of what was found.
#[derive(Debug, Drop, PartialEq, Eq)]
pub enum Expected {
    // what the text says
    Words(&'static str),
    // at most so many of what the text says
    AtMost(usize, &'static str),
    // a mark of the parts of a sign, which has so many, by its name
    Parts(Mark, u32, String),
}

#[derive(Debug, Drop, PartialEq, Eq)]
pub enum Found {
    Word(String),
    End,
    EndOfLine,
}

impl Found {
    // The same, where the text is one line of several.
    fn in_line(self) -> Found {
        match self {
            Found::End => Found::EndOfLine,
            found => found,
        }
    }
}

// A line and a column, from 1; columns count characters.
#[derive(Clone, Copy, Debug, PartialEq, Eq)]
pub struct Place {
    pub line: usize,
    pub column: usize,
}

#[derive(Debug, Drop, PartialEq, Eq)]
pub struct Fault {
    pub place: Place,
    pub found: Found,
    pub expected: Expected,
}

#[derive(Debug, Drop, PartialEq, Eq)]
pub enum Error {
    Fault(Fault),
    Memory,
}

impl From<AllocError> for Error {
    fn from(_e: AllocError) -> Error
        ensures { result ≡ Memory }
    {
        Error::Memory
    }
}

impl<T: Drop> From<AllocFailed<T>> for Error {
    fn from(_e: AllocFailed<T>) -> Error {
        Error::Memory
    }
}

impl fmt::Display for Mark {
    fn fmt<W: fmt::Write>(&self, f: &mut fmt::Formatter<W>) -> fmt::Result {
        f.write_str(match self {
            Mark::Open => "`(` and the parts",
            Mark::Comma => "`,` and the next part",
            Mark::Close => "`)` after the parts",
        })
    }
}

impl fmt::Display for Expected {
    fn fmt<W: fmt::Write>(&self, f: &mut fmt::Formatter<W>) -> fmt::Result {
        match self {
            Expected::Words(words) => write!(f, "{words}"),
            Expected::AtMost(most, what) => write!(f, "at most {most} {what}"),
            Expected::Parts(mark, n, sign) => write!(f, "{mark} of `{sign}`, which has {n}"),
        }
    }
}

impl fmt::Display for Found {
    fn fmt<W: fmt::Write>(&self, f: &mut fmt::Formatter<W>) -> fmt::Result {
        match self {
            Found::Word(word) => write!(f, "`{word}`"),
            Found::End => write!(f, "the end of the text"),
            Found::EndOfLine => write!(f, "the end of the line"),
        }
    }
}

impl fmt::Display for Place {
    fn fmt<W: fmt::Write>(&self, f: &mut fmt::Formatter<W>) -> fmt::Result {
        let Place { line, column } = self;
        write!(f, "{line}:{column}")
    }
}

impl fmt::Display for Fault {
    fn fmt<W: fmt::Write>(&self, f: &mut fmt::Formatter<W>) -> fmt::Result {
        let Fault {
            place,
            found,
            expected,
        } = self;
        write!(f, "{place}: expected {expected}, found {found}")
    }
}

impl fmt::Display for Error {
    fn fmt<W: fmt::Write>(&self, f: &mut fmt::Formatter<W>) -> fmt::Result {
        match self {
            Error::Fault(fault) => write!(f, "{fault}"),
            Error::Memory => write!(f, "there is not enough memory"),
        }
    }
}

// The place one byte further.
fn step(place: Place, b: u8) -> Place
    requires { (place.line + 1 < 2 ^ 64) × (place.column + 1 < 2 ^ 64) }
    ensures { result ≡ past place b }
{
    match b {
        b'\n' => Place {
            line: place.line + 1,
            column: 1,
        },
        _ if is_continuation(b) => place,
        _ => Place {
            column: place.column + 1,
            ..place
        },
    }
}

// The line and the column at which the text after `before` begins.
pub fn place_after(before: &[u8]) -> Place
    ensures { result ≡ place_of before.now }
{
    let mut place = Place { line: 1, column: 1 };
    for b in before {
        place = step(place, *b);
    }
    place
}

// The same error, where the text was the line with this number of a longer one.
pub fn on_line(error: Error, line: usize) -> Error {
    match error {
        Error::Fault(fault) => Error::Fault(Fault {
            place: Place {
                line,
                ..fault.place
            },
            found: fault.found.in_line(),
            ..fault
        }),
        Error::Memory => Error::Memory,
    }
}

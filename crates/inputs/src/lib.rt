// How the programs read a book: from a file or the standard input, in the readable form or as rows.
#![tactic(auto)]

use arguments::{Input, Options, Program, Stopped};
use lexing::fault::{Error, Place, place_after};
use lexing::{Rows, read_rows};
use notation::{Book, parse};
use std::alloc::Global;
use std::fs::File;
use std::io::Read;
use std::{fmt, io};

// The longest text that is read, in bytes.
pub const MOST_TEXT: usize = 262_144;

// A book with its names, or any words.
#[derive(Drop)]
pub enum Source {
    Named(Book),
    Rows(Rows),
}

impl Source {
    pub fn words(&self) -> &[u32] {
        match self {
            Source::Named(book) => book.words.as_slice(),
            Source::Rows(rows) => rows.book.as_slice(),
        }
    }

    pub fn ways(&self) -> &[u32] {
        match self {
            Source::Named(book) => book.ways.as_slice(),
            Source::Rows(rows) => rows.ways.as_slice(),
        }
    }

    // The book with its names, if there are any.
    pub fn named(&self) -> Option<&Book> {
        match self {
            Source::Named(book) => Some(book),
            Source::Rows(_) => None,
        }
    }
}

// Why nothing can be read.
#[derive(Debug, Drop)]
pub enum Trouble {
    Io(io::Error),
    TooLong,
    NoUtf8(Place),
    Text(Error),
}

impl From<io::Error> for Trouble {
    fn from(e: io::Error) -> Trouble {
        Trouble::Io(e)
    }
}

impl From<Error> for Trouble {
    fn from(e: Error) -> Trouble {
        Trouble::Text(e)
    }
}

// What a program says of trouble with an input: with the place in the text where there is one.
#[derive(Debug, Drop)]
struct Complaint<'a> {
    program: Program,
    input: Input<'a>,
    trouble: Trouble,
}

impl fmt::Display for Complaint<'_> {
    fn fmt<W: fmt::Write>(&self, f: &mut fmt::Formatter<W>) -> fmt::Result {
        let Complaint {
            program,
            input,
            trouble,
        } = self;
        match trouble {
            Trouble::Io(e) => write!(f, "{program}: {input}: {e}"),
            Trouble::TooLong => write!(
                f,
                "{program}: {input}: the text has more than {MOST_TEXT} bytes"
            ),
            Trouble::NoUtf8(Place { line, column }) => {
                write!(f, "{input}:{line}:{column}: expected UTF-8")
            }
            Trouble::Text(e) => write!(f, "{input}:{e}"),
        }
    }
}

// Tells on the standard error why nothing was read. Where that fails too, the program stops all the same.
// Stays with the program as a parameter: it is only a name that is told.
pub fn complain(rt: &HostRuntime, program: Program, input: Input<'_>, trouble: Trouble) -> Stopped {
    let complaint = Complaint {
        program,
        input,
        trouble,
    };
    let _ = eprintln!(rt; "{complaint}");
    Stopped
}

// All that the reader gives, but not much more than the longest text.
fn read_all<R: Read + Drop>(heap: Global, reader: R) -> io::Result<Vec<u8>> {
    let mut bytes = Vec::with_capacity(heap, MOST_TEXT + 1)?;
    reader.take(MOST_TEXT as u64 + 1).read_to_end(&mut bytes)?;
    Ok(bytes)
}

fn read_input(rt: &HostRuntime, input: Input<'_>) -> io::Result<Vec<u8>> {
    match input {
        Input::Stdin => read_all(rt.alloc(), rt.stdin()),
        Input::File(name) => read_all(rt.alloc(), File::open(rt, name)?),
    }
}

// What the bytes of a file write.
// Stays a bool that chooses: the command line says in which form the book comes, and it is asked only here.
pub fn source_of(heap: Global, bytes: &[u8], rows: bool) -> Result<Source, Trouble> {
    if bytes.len() > MOST_TEXT {
        return Err(Trouble::TooLong);
    }
    let text = std::str::from_utf8(bytes).map_err(|e| Trouble::NoUtf8(place_after(
        &bytes[..e.valid_up_to()],
    )))?;
    if rows {
        Ok(Source::Rows(read_rows(heap, text)?))
    } else {
        Ok(Source::Named(parse(heap, text)?))
    }
}

fn read_source(rt: &HostRuntime, input: Input<'_>, rows: bool) -> Result<Source, Trouble> {
    let bytes = read_input(rt, input)?;
    source_of(rt.alloc(), bytes.as_slice(), rows)
}

// Reads the book that the program was asked for; where that fails, it is told why.
// Stays with the program as a parameter, as in `complain`.
pub fn read_book(
    rt: &HostRuntime,
    program: Program,
    options: &Options<'_>,
) -> Result<Source, Stopped> {
    let input = options.book.unwrap_or(Input::Stdin);
    read_source(rt, input, options.rows).map_err(|trouble| complain(rt, program, input, trouble))
}

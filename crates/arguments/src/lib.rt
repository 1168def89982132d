// What the programs are asked for on their command lines.
#![tactic(auto)]

ghost use Rattle.std.specs.Prelude.{◌≡◌, ◌≤◌, IfOk};

mod program;

pub use program::{Program, Stopped, run};
use std::fmt;

// All buffers together have at most 4 MiB. Of these 768 KiB are for texts, rows, names and reading; the rest can be lent as work words, of
// 4 bytes each.
pub const MOST_WORK: usize = 851_968;

// Where a text comes from.
// Stays an enum: the standard input is an input too, and that none is named is told by an Option around it.
#[derive(Clone, Copy, Debug, PartialEq, Eq)]
pub enum Input<'a> {
    Stdin,
    File(&'a str),
}

// The name by which messages tell of it.
impl fmt::Display for Input<'_> {
    fn fmt<W: fmt::Write>(&self, f: &mut fmt::Formatter<W>) -> fmt::Result {
        f.write_str(match *self {
            Input::Stdin => "<stdin>",
            Input::File(name) => name,
        })
    }
}

// What is to be done. Where an input is not named, it is the standard input.
#[derive(Clone, Copy, Debug, PartialEq, Eq)]
pub struct Options<'a> {
    // whether books and terms come as decimal words
    pub rows: bool,
    // how many work words are lent
    pub work: usize,
    pub book: Option<Input<'a>>,
    // the pairs of terms that `tell` compares
    pub pairs: Option<Input<'a>>,
    pub ghost within: { work ≤ 851968 },
}

#[derive(Clone, Copy, Debug, PartialEq, Eq)]
pub enum Asked<'a> {
    Help,
    Version,
    Run(Options<'a>),
}

// Why the command line asks for nothing.
#[derive(Clone, Copy, Debug, PartialEq, Eq)]
pub enum Refusal<'a> {
    UnknownOption(&'a str),
    // a file that `judge` has no use for
    SecondFile(&'a str),
    // one that another program has no use for
    ExtraFile(&'a str),
    NoBook,
    InputTwice,
    NoNumber,
    BadNumber(&'a str),
}

impl fmt::Display for Refusal<'_> {
    fn fmt<W: fmt::Write>(&self, f: &mut fmt::Formatter<W>) -> fmt::Result {
        match *self {
            Refusal::UnknownOption(option) => write!(
                f,
                "there is no option `{option}`; see --help"
            ),
            Refusal::SecondFile(file) => write!(
                f,
                "one file is judged at a time, and `{file}` is a second"
            ),
            Refusal::ExtraFile(file) => write!(f, "`{file}` is one file too many; see --help"),
            Refusal::NoBook => write!(f, "a book is wanted; see --help"),
            Refusal::InputTwice => write!(
                f,
                "the book and the pairs can't both come from the standard input"
            ),
            Refusal::NoNumber => write!(f, "--work wants a number after it"),
            Refusal::BadNumber(n) => write!(
                f,
                "--work wants a number up to {MOST_WORK}, and `{n}` is none"
            ),
        }
    }
}

// The input that a word names.
fn named_input(word: &str) -> Result<Input<'_>, Refusal<'_>> {
    if word == "-" {
        Ok(Input::Stdin)
    } else if word.starts_with('-') {
        Err(Refusal::UnknownOption(word))
    } else {
        Ok(Input::File(word))
    }
}

// The number of work words that the argument writes, if these fit.
fn work_words(argument: Option<&String>) -> Result<usize, Refusal<'_>>
    ensures { IfOk result (λ n. n ≤ 851968) }
{
    let digits = argument.ok_or(Refusal::NoNumber)?.as_str();
    match digits.parse::<usize>() {
        Ok(n) if n <= MOST_WORK => Ok(n),
        _ => Err(Refusal::BadNumber(digits)),
    }
}

// Stays with the program as a parameter, here and below: it says how many files there may be, and all else is the same.
impl<'a> Options<'a> {
    // Takes one more file, if the program has use for it. The work words are as they were.
    fn add_file(&mut self, program: Program, word: &'a str) -> Result<(), Refusal<'a>>
        ensures { self.new.work ≡ self.old.work }
    {
        let input = named_input(word)?;
        match (self.book, self.pairs, program) {
            (None, _, _) => self.book = Some(input),
            (Some(_), None, Program::Tell) => self.pairs = Some(input),
            (_, _, Program::Judge) => return Err(Refusal::SecondFile(word)),
            _ => return Err(Refusal::ExtraFile(word)),
        }
        Ok(())
    }

    // Whether the program has all that it wants.
    fn complete(&self, program: Program) -> Result<(), Refusal<'a>> {
        if program != Program::Tell {
            return Ok(());
        }
        let book = self.book.ok_or(Refusal::NoBook)?;
        if book == Input::Stdin && self.pairs.unwrap_or(Input::Stdin) == Input::Stdin {
            return Err(Refusal::InputTwice);
        }
        Ok(())
    }
}

// What the arguments ask the program for, its own name left out.
pub fn read_arguments(program: Program, arguments: &[String]) -> Result<Asked<'_>, Refusal<'_>> {
    let mut options = Options {
        rows: false,
        work: MOST_WORK,
        book: None,
        pairs: None,
    };
    let mut rest = arguments.iter();
    while let Some(argument) = rest.next() {
        match argument.as_str() {
            "--help" => return Ok(Asked::Help),
            "--version" => return Ok(Asked::Version),
            "--rows" => options.rows = true,
            "--work" => options.work = work_words(rest.next())?,
            file => options.add_file(program, file)?,
        }
    }
    options.complete(program)?;
    Ok(Asked::Run(options))
}

#[cfg(test)]
mod tests {
    use super::*;
    use std::alloc::Global;
    use std::test::Fail;

    // A program, its arguments, one to a line, and what is told of them.
    const ASKED: [(Program, &str, &str); 14] = [
        (
            Program::Judge,
            "",
            "rows false, work 851968, no file, no file",
        ),
        (
            Program::Judge,
            "--rows\nsums.book\n--work\n20000",
            "rows true, work 20000, sums.book, no file",
        ),
        (Program::Judge, "-", "rows false, work 851968, -, no file"),
        (Program::Judge, "--rows\n--help\n--foo", "help"),
        (Program::Tell, "--version", "version"),
        (
            Program::Judge,
            "--foo",
            "there is no option `--foo`; see --help",
        ),
        (
            Program::Judge,
            "a\nb",
            "one file is judged at a time, and `b` is a second",
        ),
        (
            Program::Judge,
            "a\n--work",
            "--work wants a number after it",
        ),
        (
            Program::Judge,
            "--work\n851969",
            "--work wants a number up to 851968, and `851969` is none",
        ),
        (Program::Tell, "a\nb", "rows false, work 851968, a, b"),
        (
            Program::Tell,
            "a\nb\nc",
            "`c` is one file too many; see --help",
        ),
        (Program::Tell, "-\nb", "rows false, work 851968, -, b"),
        (Program::Tell, "--rows", "a book is wanted; see --help"),
        (
            Program::Tell,
            "-",
            "the book and the pairs can't both come from the standard input",
        ),
    ];

    // What the arguments, one to a line, ask a program for.
    fn asked(heap: Global, program: Program, lines: &str) -> Result<String, Fail> {
        let mut words = Vec::new(heap);
        for line in lines.lines() {
            words.push(String::from_str(heap, line)?)?;
        }
        match read_arguments(program, words.as_slice()) {
            Ok(Asked::Help) => Ok(String::from_str(heap, "help")?),
            Ok(Asked::Version) => Ok(String::from_str(heap, "version")?),
            Ok(Asked::Run(options)) => Ok(shown(heap, options)?),
            Err(refusal) => Ok(refusal.to_string(heap)?),
        }
    }

    // An input by the word that names it.
    fn word(input: Option<Input<'_>>) -> &str {
        match input {
            None => "no file",
            Some(Input::Stdin) => "-",
            Some(Input::File(name)) => name,
        }
    }

    fn shown(heap: Global, options: Options<'_>) -> Result<String, Fail> {
        let Options { rows, work, .. } = options;
        let (book, pairs) = (word(options.book), word(options.pairs));
        Ok(format!(in heap; "rows {rows}, work {work}, {book}, {pairs}")?)
    }

    #[test]
    fn arguments(rt: HostRuntime) -> Result<(), Fail> {
        for (program, lines, wanted) in ASKED.iter() {
            let found = asked(rt.alloc(), *program, lines)?;
            assert_eq!(rt; found.as_str(), *wanted);
        }
        Ok(())
    }
}

// Compares pairs of terms by a book that settles its equations.
#![tactic(auto)]

use arguments::{Input, Options, Program, Stopped, run};
use inputs::{Source, Trouble, complain, read_book};
use std::fs::File;
use std::io::Read;
use std::process::ExitCode;
use telling::{Asking, tell_pairs};

const HELP: &str = "Usage: tell [--rows] [--work N] BOOK [PAIRS]
Judges the book in BOOK, and compares the pairs of terms in PAIRS, one a line, by it. Where no PAIRS is named, they come from the standard
input; `-` is the standard input too.
  --rows      the book is given by its row and that of its ways, and a pair by two rows with `|` between them, in decimal words
  --work N    lend N work words, of 4 bytes, to judging and comparing: at most, and if not said, 851968
  --help      print this
  --version   print the version
Without --rows a pair is two terms with `=` between them. The answers are explained in docs/BOOKS.md.";

// Compares the pairs that the reader gives.
fn tell_from<R: Read>(
    rt: &HostRuntime,
    source: &Source,
    work: usize,
    input: Input<'_>,
    reader: &mut R,
) -> Result<(), Stopped> {
    let asking = Asking {
        rt,
        input,
        signature: source.named().map(|book| &book.signature),
    };
    let mut words = vec![in rt.alloc(); 0u32; work]?;
    tell_pairs(
        asking,
        reader,
        source.words(),
        source.ways(),
        words.as_mut_slice(),
    )
}

fn tell(rt: &HostRuntime, options: Options<'_>) -> Result<(), Stopped> {
    let source = read_book(rt, Program::Tell, &options)?;
    let pairs = options.pairs.unwrap_or(Input::Stdin);
    match pairs {
        Input::Stdin => tell_from(rt, &source, options.work, pairs, &mut rt.stdin()),
        Input::File(name) => {
            let mut reader = File::open(rt, name).map_err(|e| complain(
                rt,
                Program::Tell,
                pairs,
                Trouble::Io(e),
            ))?;
            tell_from(rt, &source, options.work, pairs, &mut reader)
        }
    }
}

fn main(rt: HostRuntime) -> ExitCode {
    run(&rt, Program::Tell, HELP, |options| tell(&rt, options))
}

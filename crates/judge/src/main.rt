// Judges a book: whether its rules settle its equations.
#![tactic(auto)]

use answers::{explanation, judged_line};
use arguments::{Options, Program, Stopped, run};
use equal::{Judged, judge};
use inputs::{Source, read_book};
use std::alloc::AllocError;
use std::process::ExitCode;

const HELP: &str = "Usage: judge [--rows] [--work N] [FILE]
Judges the book of equations and rules in FILE, or on the standard input where there is none or it is `-`.
  --rows      the book is given by its row and that of its ways, each a line of decimal words
  --work N    lend N work words, of 4 bytes, to the judge: at most, and if not said, 851968
  --help      print this
  --version   print the version
The readable form and the answers are explained in docs/BOOKS.md.";

// The answer on a book, found with so many work words.
fn answer(rt: &HostRuntime, source: &Source, work: usize) -> Result<Judged, AllocError> {
    let mut words = vec![in rt.alloc(); 0u32; work]?;
    Ok(judge(source.words(), source.ways(), words.as_mut_slice()))
}

// Prints the answer on a line, and what it says.
fn judge_file(rt: &HostRuntime, options: Options<'_>) -> Result<(), Stopped> {
    let source = read_book(rt, Program::Judge, &options)?;
    let answer = answer(rt, &source, options.work)?;
    let line = judged_line(rt.alloc(), answer)?;
    let words = explanation(rt.alloc(), answer, source.named())?;
    println!(rt; "{line}\n{words}")?;
    Ok(())
}

fn main(rt: HostRuntime) -> ExitCode {
    run(
        &rt,
        Program::Judge,
        HELP,
        |options| judge_file(&rt, options),
    )
}

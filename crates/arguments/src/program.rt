// The programs, and how each starts: by its command line.
ghost use Rattle.std.specs.Prelude.{◌≤◌};
ghost use Rattle.std.specs.Process.{exit_status};

use crate::{Asked, Options, read_arguments};
use std::alloc::AllocError;
use std::process::ExitCode;
use std::{env, fmt, io};

// `judge` takes one file, a book; `tell` takes a book and then pairs of terms.
#[derive(Clone, Copy, Debug, PartialEq, Eq)]
pub enum Program {
    Judge,
    Tell,
}

impl fmt::Display for Program {
    fn fmt<W: fmt::Write>(&self, f: &mut fmt::Formatter<W>) -> fmt::Result {
        f.write_str(match self {
            Program::Judge => "judge",
            Program::Tell => "tell",
        })
    }
}

// The program ends with status 1. Why has been told on the standard error.
#[derive(Clone, Copy, Debug, PartialEq, Eq)]
pub struct Stopped;

impl From<io::Error> for Stopped {
    fn from(_e: io::Error) -> Stopped {
        Stopped
    }
}

impl From<AllocError> for Stopped {
    fn from(_e: AllocError) -> Stopped {
        Stopped
    }
}

// Prints what the command line asks for, or does the work by its options.
fn start<F: FnOnce(Options<'_>) -> Result<(), Stopped>>(
    rt: &HostRuntime,
    program: Program,
    help: &str,
    work: F,
) -> Result<(), Stopped>
    requires { F.IsAlwaysCallable work }
{
    let arguments: Vec<String> = env::args(rt)?.skip(1).collect(rt.alloc())?;
    match read_arguments(program, arguments.as_slice()) {
        Ok(Asked::Help) => println!(rt; "{help}")?,
        Ok(Asked::Version) => println!(rt; "{program} 0.1.0")?,
        Ok(Asked::Run(options)) => work(options)?,
        Err(refusal) => {
            eprintln!(rt; "{program}: {refusal}")?;
            return Err(Stopped);
        }
    }
    Ok(())
}

// Runs a program with its help text and its work. An error of `main` would be told once more, and so this gives the status alone.
pub fn run<F: FnOnce(Options<'_>) -> Result<(), Stopped>>(
    rt: &HostRuntime,
    program: Program,
    help: &str,
    work: F,
) -> ExitCode
    requires { F.IsAlwaysCallable work }
    ensures { exit_status result ≤ 1 }
{
    match start(rt, program, help, work) {
        Ok(()) => ExitCode::SUCCESS,
        Err(Stopped) => ExitCode::FAILURE,
    }
}

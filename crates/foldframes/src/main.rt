// Reads frames from standard input, a line each, and prints the out lines at `04`, or the line of the first refusal.
//
// What is printed `program` decides: here the input is read, handed over block by block, and the text of each block written. A read
// or a write that fails ends the program, with a line on standard error, nothing more on standard output, and the status 1.
#![tactic(auto)]

use program::Program;
use std::fmt;
use std::io::{Error, ErrorKind, Read, Write};
use std::process::ExitCode;

// The call of the system that failed, and why.
#[derive(Clone, Copy)]
enum Failure {
    Reading(Error),
    Writing(Error),
}

impl fmt::Display for Failure {
    fn fmt<W: fmt::Write>(&self, f: &mut fmt::Formatter<W>) -> fmt::Result {
        match self {
            Failure::Reading(error) => write!(f, "standard input: {error}"),
            Failure::Writing(error) => write!(f, "standard output: {error}"),
        }
    }
}

fn main(rt: HostRuntime) -> ExitCode {
    match fold(&mut rt.stdin(), &mut rt.stdout()) {
        Ok(()) => ExitCode::SUCCESS,
        Err(failure) => {
            let _ = eprintln!(rt; "foldframes: {failure}");
            ExitCode::FAILURE
        }
    }
}

// The whole input, read by read. A refused line is the last.
fn fold(input: &mut impl Read, output: &mut impl Write) -> Result<(), Failure> {
    let mut block = [0u8; 65536];
    let mut program = Program::new();
    // By a count that no run uses up: reads have no measure, and `forever` takes the handle Wait, which is not allowed here.
    for _ in 0..u64::MAX {
        if program.is_stopped() {
            break;
        }
        match input.read(&mut block) {
            Ok(0) => program.end(),
            Ok(count) => program.feed(&block[..count]),
            Err(error) if is_passing(&error) => continue,
            Err(error) => return Err(Failure::Reading(error)),
        }
        write(output, program.text())?;
    }
    Ok(())
}

// Writes all of text to standard output. A write that takes nothing is one that failed.
fn write(output: &mut impl Write, text: &[u8]) -> Result<(), Failure> {
    let mut rest = text;
    // By a count too: a write may be made again.
    for _ in 0..u64::MAX {
        if rest.is_empty() {
            return Ok(());
        }
        match output.write(rest) {
            Ok(0) => break,
            Ok(count) => rest = &rest[count..],
            Err(error) if is_passing(&error) => {}
            Err(error) => return Err(Failure::Writing(error)),
        }
    }
    Err(Failure::Writing(Error::from(ErrorKind::WriteZero)))
}

// Whether a call that failed may be made again: it was interrupted, or would have had to wait.
fn is_passing(error: &Error) -> bool {
    matches!(error.kind(), ErrorKind::Interrupted | ErrorKind::WouldBlock)
}

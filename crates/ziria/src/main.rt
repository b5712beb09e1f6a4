//! The program: `ziria run --ticks N NAME` runs the program in the file NAME over the standard input.
#![tactic(auto)]

use std::alloc::{AllocError, Global};
use std::io::ErrorKind;
use std::process::ExitCode;
use std::{env, io};
use zir_outside::memory::Open;
use zir_outside::real::{FileShelf, StdInput, StdNotes, StdOutput};
use zir_run::ziria;

/// The status where a word is not UTF-8.
const BAD_WORDS: u8 = 1;

/// The status where there is no memory for the words.
const NO_MEMORY: u8 = 9;

fn main(rt: HostRuntime) -> ExitCode {
    let alloc = rt.alloc();
    let words = match words(alloc, &rt) {
        Ok(words) => words,
        Err(error) if error.kind() == ErrorKind::OutOfMemory => return ExitCode::from(NO_MEMORY),
        Err(_) => return ExitCode::from(BAD_WORDS),
    };
    let mut shelf = FileShelf::new(&rt);
    let mut input = StdInput::new(rt.stdin());
    let mut out = StdOutput::new(rt.stdout());
    let mut notes = StdNotes::new(rt.stderr());
    let status = ziria(
        alloc, &words, &mut shelf, &mut input, &mut out, &mut notes, &Open,
    );
    ExitCode::from(status)
}

/// The words after the program's own name.
fn words(alloc: Global, rt: &HostRuntime) -> io::Result<Vec<String>> {
    let mut words = Vec::new(alloc);
    for word in env::args(rt)?.skip(1) {
        words.push(word)?;
    }
    Ok(words)
}

//! The program of tests and measurements: `zir_evaluate FILE TICKS` sets the top variables of the program in FILE, evaluates its
//! main component, a `do`, with so many ticks, and writes the cells of its value or its trap, and the ticks that it took.
#![tactic(auto)]

mod open;
mod run;

use crate::open::{Fault, open};
use crate::run::run;
use std::alloc::Global;
use std::process::ExitCode;
use std::{env, io};
use zir_eval::evaluation::Stop;
use zir_eval::opening::{base_of, frame_of};
use zir_expr::frame::Frame;
use zir_outside::real::FileShelf;
use zir_outside::{LoadError, Shelf};

/// The status of all that is not a run.
const FAILED: u8 = 2;

fn main(rt: HostRuntime) -> ExitCode {
    match evaluate(&rt) {
        Ok(()) => ExitCode::SUCCESS,
        Err(fault) => {
            let _ = eprintln!(rt; "zir_evaluate: {}", fault.text());
            ExitCode::from(FAILED)
        }
    }
}

/// All of it.
fn evaluate(rt: &HostRuntime) -> Result<(), Fault> {
    let alloc = rt.alloc();
    let words = words(alloc, rt)?;
    let [name, ticks] = words.as_slice() else {
        return Err(Fault::Words);
    };
    let Ok(ticks) = ticks.as_str().parse::<u64>() else {
        return Err(Fault::Words);
    };
    let text = load(alloc, rt, name.as_str())?;
    let opened = open(alloc, text.as_slice())?;
    let mut frame = frame_of(alloc, &opened.names, opened.room, ticks)?;
    let base = base_of(&opened.names);
    let end = run(&opened, &mut frame, base);
    match tell(rt, end, &frame, opened.cells) {
        Ok(()) => Ok(()),
        Err(_) => Err(Fault::Output),
    }
}

/// The words after the program's own name.
fn words(alloc: Global, rt: &HostRuntime) -> Result<Vec<String>, Fault> {
    let mut words = Vec::new(alloc);
    let Ok(all) = env::args(rt) else {
        return Err(Fault::Words);
    };
    for word in all.skip(1) {
        words.push(word)?;
    }
    Ok(words)
}

/// The text of a file.
fn load(alloc: Global, rt: &HostRuntime, name: &str) -> Result<Vec<u8>, Fault> {
    let mut shelf = FileShelf::new(rt);
    let mut text = Vec::new(alloc);
    match shelf.load(name, &mut text) {
        Ok(()) => Ok(text),
        Err(LoadError::Memory) => Err(Fault::Memory),
        Err(LoadError::Failed) => Err(Fault::Text),
        Err(LoadError::TooLong) => Err(Fault::Text),
    }
}

/// Writes how a run ended.
fn tell(rt: &HostRuntime, end: Result<usize, Stop>, frame: &Frame, cells: u64) -> io::Result<()> {
    match end {
        Ok(at) => tell_value(rt, at, frame, cells)?,
        Err(Stop::Trap(trap)) => {
            println!(rt; "trap {} at {}:{}", trap.code, trap.at.line, trap.at.col)?;
        }
        Err(Stop::Spent) => {
            println!(rt; "spent")?;
            return Ok(());
        }
    }
    println!(rt; "ticks {}", frame.used())
}

/// Writes the cells of a value from an index on.
fn tell_value(rt: &HostRuntime, at: usize, frame: &Frame, cells: u64) -> io::Result<()> {
    print!(rt; "value")?;
    let mut i = at;
    for _past in 0..cells {
        print!(rt; " {}", frame.cell(i))?;
        i = i.wrapping_add(1);
    }
    println!(rt; "")
}

ghost use Rattle.std.specs.Prelude.{◌≤◌};

use super::*;
use std::alloc::AllocError;
use std::process::Abort;
use std::test::Fail;
use zir_outside::memory::{MemShelf, MemSink, MemSource, Open};

/// The text named `p`, the only one of the shelf.
const TURNS: &str =
    "let comp main = read[bit] >>> repeat { x <- take; emit x ^ '1 } >>> write[bit]";

/// The calls that fail, counted from 1: reads of the input, and puts of the output and of the notes.
#[derive(Clone, Copy, Debug)]
struct Failing {
    reads: &'static [u64],
    puts: &'static [u64],
    note_puts: &'static [u64],
}

const NOTHING: Failing = Failing {
    reads: &[],
    puts: &[],
    note_puts: &[],
};

/// What a run came to.
#[derive(Debug, Drop)]
struct Told {
    status: u8,
    output: Vec<u8>,
    notes: Vec<u8>,
}

fn shelf(alloc: Global) -> Result<MemShelf, AllocError> {
    let name = String::from_str(alloc, "p")?;
    let text = Vec::from_slice(alloc, TURNS.as_bytes())?;
    MemShelf::new(alloc, vec![in alloc; (name, text)]?, 0, Vec::new(alloc))
}

/// Runs the text of a name over the bytes 00 and ff, of which so many at most come in a read.
fn told_by_run(
    alloc: Global,
    name: &str,
    piece: usize,
    failing: Failing,
) -> Result<Told, AllocError>
    requires { 1 ≤ piece }
{
    let mut words = Vec::new(alloc);
    for word in ["run", "--ticks", "100", name] {
        words.push(String::from_str(alloc, word)?)?;
    }
    let mut shelf = shelf(alloc)?;
    let bytes = Vec::from_slice(alloc, b"\x00\xff")?;
    let mut input = MemSource::new(bytes, piece, Vec::from_slice(alloc, failing.reads)?);
    let mut out = MemSink::new(alloc, 64, Vec::from_slice(alloc, failing.puts)?)?;
    let mut notes = MemSink::new(alloc, 64, Vec::from_slice(alloc, failing.note_puts)?)?;
    let status = ziria(
        alloc, &words, &mut shelf, &mut input, &mut out, &mut notes, &Open,
    );
    Ok(Told {
        status,
        output: Vec::from_slice(alloc, out.bytes())?,
        notes: Vec::from_slice(alloc, notes.bytes())?,
    })
}

fn compare(rt: &impl Abort, told: &Told, status: u8, output: &[u8], notes: &str) {
    assert_eq!(rt; told.status, status);
    assert_eq!(rt; told.output.as_slice(), output);
    assert_eq!(rt; told.notes.as_slice(), notes.as_bytes());
}

#[test]
fn a_run_is_the_same_in_any_pieces(rt: HostRuntime) -> Result<(), Fail> {
    for piece in [1, 2, 3] {
        let told = told_by_run(rt.alloc(), "p", piece, NOTHING)?;
        compare(
            &rt,
            &told,
            0,
            b"\xff\x00",
            "input ended\ntaken 16\nwritten 16\n",
        );
    }
    Ok(())
}

#[test]
fn a_text_that_the_shelf_lacks_is_answered(rt: HostRuntime) -> Result<(), Fail> {
    let told = told_by_run(rt.alloc(), "q", 1, NOTHING)?;
    compare(&rt, &told, 3, b"", "");
    Ok(())
}

#[test]
fn a_failed_read_is_answered(rt: HostRuntime) -> Result<(), Fail> {
    let first = Failing {
        reads: &[1],
        ..NOTHING
    };
    let second = Failing {
        reads: &[2],
        ..NOTHING
    };
    let none = told_by_run(rt.alloc(), "p", 1, first)?;
    compare(&rt, &none, 7, b"", "");
    let some = told_by_run(rt.alloc(), "p", 1, second)?;
    compare(&rt, &some, 7, b"\xff", "");
    Ok(())
}

#[test]
fn a_failed_put_is_answered(rt: HostRuntime) -> Result<(), Fail> {
    let output = Failing {
        puts: &[1],
        ..NOTHING
    };
    let notes = Failing {
        note_puts: &[1],
        ..NOTHING
    };
    let none = told_by_run(rt.alloc(), "p", 2, output)?;
    compare(&rt, &none, 8, b"", "");
    let all = told_by_run(rt.alloc(), "p", 2, notes)?;
    compare(&rt, &all, 8, b"\xff\x00", "");
    Ok(())
}

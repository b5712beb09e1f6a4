//! The real input, output, notes and files, a few lines each. They tell nothing of the bytes, and each error of the
//! system raises the count of faults.

ghost use Rattle.std.specs.Prelude.{ℕ, ◌≡◌, ◌≤◌, [], ⊤, List, length, None, IfOk, OnOk, OnErr, IsErrOf, is_err, vec_len};
ghost use Rattle.std.specs.Io.KnownBytes.{Appends, ReadConsumes};
ghost use Rattle.zir_outside.specs.Causes.{CountsFault, one_more};

use crate::{Failed, LONGEST_TEXT, LoadError, Shelf, Sink, Source};
use std::fs;
use std::fs::OpenOptions;
use std::io::{Read, Write};
use std::rt::Files;

/// Reads from a reader, as the standard input.
#[derive(Debug, Drop)]
pub struct StdInput<R> {
    reader: R,
    faults: u64,
}

impl<R> StdInput<R> {
    ghost use Rattle.zir_outside.specs.Real.{reader_of, input_faults};

    /// Reads from `reader` on.
    pub fn new(reader: R) -> StdInput<R>
        ensures reader { reader_of result ≡ reader }
        ensures faults { input_faults result ≡ 0 }
    {
        StdInput { reader, faults: 0 }
    }
}

impl<R: Read> Source for StdInput<R> {
    ghost use Rattle.zir_outside.specs.Causes.{HasCause};
    ghost use Rattle.zir_outside.specs.Reads.{Reads};
    ghost use Rattle.zir_outside.specs.Real.{reader_of, input_faults};

    ghost left = { λ _. None };

    ghost faults = { λ s. s.faults };

    fn read(&mut self, into: &mut [u8]) -> Result<usize, Failed>
        ensures within { IfOk result (λ n. n ≤ length into.old) }
        ensures taken { Reads None None into.new result }
        ensures cause { HasCause (input_faults self.old) (input_faults self.new) result }
        // What the reader gave is handed on.
        ensures bytes { ReadConsumes (R.remaining (reader_of self.old)) (R.remaining (reader_of self.new)) result into.new }
        ensures counted { CountsFault (input_faults self.old) (input_faults self.new) (is_err result) }
    {
        match self.reader.read(into) {
            Ok(n) => Ok(n),
            Err(_) => {
                self.faults = self.faults.saturating_add(1);
                Err(Failed)
            }
        }
    }
}

/// Writes to a writer, as the standard output.
#[derive(Debug, Drop)]
pub struct StdOutput<W> {
    writer: W,
    faults: u64,
}

impl<W> StdOutput<W> {
    ghost use Rattle.zir_outside.specs.Real.{output_writer, output_faults};

    /// Writes to `writer` from here on.
    pub fn new(writer: W) -> StdOutput<W>
        ensures writer { output_writer result ≡ writer }
        ensures faults { output_faults result ≡ 0 }
    {
        StdOutput { writer, faults: 0 }
    }
}

impl<W: Write> Sink for StdOutput<W> {
    ghost use Rattle.zir_outside.specs.Causes.{HasCause};
    ghost use Rattle.zir_outside.specs.Real.{output_writer, output_faults};
    ghost use Rattle.zir_outside.specs.Sinks.{Grew, GrewPart, Tells};

    ghost stands_for = { λ _ _. ⊥ };

    ghost faults = { λ s. s.faults };

    fn put(&mut self, piece: &[u8]) -> Result<(), Failed>
        ensures ok { OnOk result (Grew (λ _. ⊥) (λ _. ⊥) piece.now) }
        ensures failed { OnErr result (GrewPart piece.now (λ _. ⊥) (λ _. ⊥)) }
        ensures untold { Tells (λ _. ⊥) → Tells (λ _. ⊥) }
        ensures cause { HasCause (output_faults self.old) (output_faults self.new) result }
        // The writer took the whole piece.
        ensures written { OnOk result (Appends (W.contents (output_writer self.old)) (W.contents (output_writer self.new)) piece.now) }
        ensures counted { CountsFault (output_faults self.old) (output_faults self.new) (is_err result) }
    {
        write_counted(&mut self.writer, piece, &mut self.faults)
    }
}

/// Writes notes to a writer, as the standard error.
#[derive(Debug, Drop)]
pub struct StdNotes<W> {
    writer: W,
    faults: u64,
}

impl<W> StdNotes<W> {
    ghost use Rattle.zir_outside.specs.Real.{notes_writer, notes_faults};

    /// Writes to `writer` from here on.
    pub fn new(writer: W) -> StdNotes<W>
        ensures writer { notes_writer result ≡ writer }
        ensures faults { notes_faults result ≡ 0 }
    {
        StdNotes { writer, faults: 0 }
    }
}

impl<W: Write> Sink for StdNotes<W> {
    ghost use Rattle.zir_outside.specs.Causes.{HasCause};
    ghost use Rattle.zir_outside.specs.Real.{notes_writer, notes_faults};
    ghost use Rattle.zir_outside.specs.Sinks.{Grew, GrewPart, Tells};

    ghost stands_for = { λ _ _. ⊥ };

    ghost faults = { λ s. s.faults };

    fn put(&mut self, piece: &[u8]) -> Result<(), Failed>
        ensures ok { OnOk result (Grew (λ _. ⊥) (λ _. ⊥) piece.now) }
        ensures failed { OnErr result (GrewPart piece.now (λ _. ⊥) (λ _. ⊥)) }
        ensures untold { Tells (λ _. ⊥) → Tells (λ _. ⊥) }
        ensures cause { HasCause (notes_faults self.old) (notes_faults self.new) result }
        // The writer took the whole piece.
        ensures written { OnOk result (Appends (W.contents (notes_writer self.old)) (W.contents (notes_writer self.new)) piece.now) }
        ensures counted { CountsFault (notes_faults self.old) (notes_faults self.new) (is_err result) }
    {
        write_counted(&mut self.writer, piece, &mut self.faults)
    }
}

/// Writes the whole piece and counts the fault where that fails.
fn write_counted<W: Write>(writer: &mut W, piece: &[u8], faults: &mut u64) -> Result<(), Failed>
    ensures ok { OnOk result (Appends (W.contents writer.old) (W.contents writer.new) piece.now) }
    ensures counted { CountsFault faults.old faults.new (is_err result) }
    ensures later { faults.old ≤ faults.new }
{
    let written = write_whole(writer, piece);
    if written.is_err() {
        *faults = faults.saturating_add(1);
    }
    written
}

/// Writes the whole piece and flushes it. A write of no byte is an error.
fn write_whole<W: Write>(writer: &mut W, piece: &[u8]) -> Result<(), Failed>
    ensures { OnOk result (Appends (W.contents writer.old) (W.contents writer.new) piece.now) }
{
    let mut done = 0;
    while done < piece.len() {
        match writer.write(&piece[done..]) {
            Ok(0) | Err(_) => return Err(Failed),
            Ok(n) => done += n,
        }
    }
    match writer.flush() {
        Ok(()) => Ok(()),
        Err(_) => Err(Failed),
    }
}

/// Loads texts from the files that their names are paths of, and appends to these files.
#[derive(Debug, Drop)]
pub struct FileShelf<R> {
    files: R,
    faults: u64,
}

impl<R> FileShelf<R> {
    ghost use Rattle.zir_outside.specs.Real.{shelf_faults};

    /// Loads from these files and appends to them.
    pub fn new(files: R) -> FileShelf<R>
        ensures { shelf_faults result ≡ 0 }
    {
        FileShelf { files, faults: 0 }
    }
}

impl<R: Files> Shelf for FileShelf<R> {
    ghost use Rattle.zir_outside.specs.Causes.{HasCause, Rose};
    ghost use Rattle.zir_outside.specs.Lengthens.{Lengthens};
    ghost use Rattle.zir_outside.specs.Loads.{Loads, IsAbsent};
    ghost use Rattle.zir_outside.specs.Real.{shelf_faults};

    ghost texts = { λ _. None };

    ghost faults = { λ s. s.faults };

    fn load(&mut self, name: &str, into: &mut Vec<u8>) -> Result<(), LoadError> {
        into.clear();
        let loaded = match fs::open(&self.files, name) {
            Ok(mut file) => read_text(&mut file, into),
            Err(_) => Err(LoadError::Failed),
        };
        if let Err(error) = loaded {
            into.clear();
            if error == LoadError::Failed {
                self.faults = self.faults.saturating_add(1);
            }
        }
        loaded
    }

    fn append(&mut self, name: &str, piece: &[u8]) -> Result<(), Failed>
        ensures lengthens { Lengthens None None name.now piece.now result }
        ensures cause { HasCause (shelf_faults self.old) (shelf_faults self.new) result }
        // Each error is counted.
        ensures counted { CountsFault (shelf_faults self.old) (shelf_faults self.new) (is_err result) }
    {
        let opened = OpenOptions::new()
            .append(true)
            .create(true)
            .open(&self.files, name);
        match opened {
            Ok(mut file) => write_counted(&mut file, piece, &mut self.faults),
            Err(_) => {
                self.faults = self.faults.saturating_add(1);
                Err(Failed)
            }
        }
    }
}

/// Reads a text to its end, but never more than one byte past the longest.
fn read_text<R: Read>(reader: &mut R, into: &mut Vec<u8>) -> Result<(), LoadError>
    requires { vec_len into.old ≡ 0 }
    ensures { OnOk result (length into.new.items ≤ 65536) }
{
    let mut piece = [0; 4096];
    while into.len() <= LONGEST_TEXT {
        let most = piece.len().min(LONGEST_TEXT + 1 - into.len());
        let n = match reader.read(&mut piece[..most]) {
            Ok(n) => n,
            Err(_) => return Err(LoadError::Failed),
        };
        if n == 0 {
            return Ok(());
        }
        into.extend_from_slice(&piece[..n])?;
    }
    Err(LoadError::TooLong)
}

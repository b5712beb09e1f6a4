ghost use Rattle.std.specs.Prelude.{◌≢◌, ◌≤◌, length, IfOk};

use crate::memory::{MemShelf, MemSink, MemSource, Open, SureSource};
use crate::real::{FileShelf, StdInput, StdNotes, StdOutput};
use crate::{Failed, Gate, LoadError, Shelf, Sink, Source};
use std::alloc::{AllocError, Global};
use std::io::{ErrorKind, Read, Write};
use std::test::Fail;
use std::{env, fs, io, process};

fn is_send<T: Send + Drop>(_value: T) {}

fn is_sync<T: Sync + Drop>(_value: T) {}

#[test]
fn objects_cross_threads(rt: HostRuntime) -> Result<(), Fail> {
    let alloc = rt.alloc();
    is_send(MemSource::new(Vec::new(alloc), 1, Vec::new(alloc)));
    is_send(SureSource::new(Vec::new(alloc), 1));
    is_send(MemSink::new(alloc, 0, Vec::new(alloc))?);
    is_send(StdInput::new(rt.stdin()));
    is_send(StdOutput::new(rt.stdout()));
    is_sync(Open);
    Open.pass(1, 1);
    Ok(())
}

/// What four bytes at a time give, with `!` for each failure.
fn drained<S: Source>(alloc: Global, source: &mut S) -> Result<Vec<u8>, AllocError> {
    let mut all = Vec::new(alloc);
    let mut piece = [0; 4];
    for _ in 0..20 {
        match source.read(&mut piece) {
            Ok(0) => break,
            Ok(n) => all.extend_from_slice(&piece[..n])?,
            Err(Failed) => all.push(b'!')?,
        }
    }
    Ok(all)
}

/// One sign for each piece put: `.`, or `!` where it failed.
fn filled<K: Sink>(alloc: Global, sink: &mut K, pieces: &[&str]) -> Result<Vec<u8>, AllocError> {
    let mut signs = Vec::new(alloc);
    for piece in pieces {
        match sink.put(piece.as_bytes()) {
            Ok(()) => signs.push(b'.')?,
            Err(Failed) => signs.push(b'!')?,
        }
    }
    Ok(signs)
}

/// What a load gives, or the name of its error.
fn loaded<H: Shelf>(alloc: Global, shelf: &mut H, name: &str) -> Result<Vec<u8>, AllocError> {
    let mut text = Vec::from_slice(alloc, b"old")?;
    match shelf.load(name, &mut text) {
        Ok(()) => {}
        Err(LoadError::Failed) => text.extend_from_slice(b"failed")?,
        Err(LoadError::TooLong) => text.extend_from_slice(b"too long")?,
        Err(LoadError::Memory) => text.extend_from_slice(b"memory")?,
    }
    Ok(text)
}

/// A shelf with two texts, each with three bytes to spare.
fn shelf_of_two(
    alloc: Global,
    names: (&str, &str),
    sizes: (usize, usize),
    failing: &[u64],
) -> Result<MemShelf, AllocError>
    requires { names.0.now ≢ names.1.now }
{
    let first = (
        String::from_str(alloc, names.0)?,
        vec![in alloc; b'x'; sizes.0]?,
    );
    let second = (
        String::from_str(alloc, names.1)?,
        vec![in alloc; b'y'; sizes.1]?,
    );
    let failing = Vec::from_slice(alloc, failing)?;
    MemShelf::new(alloc, vec![in alloc; first, second]?, 3, failing)
}

/// What a source of eight bytes in memory gives.
fn given(alloc: Global, piece: usize, failing: &[u64]) -> Result<Vec<u8>, AllocError> {
    let bytes = Vec::from_slice(alloc, b"abcdefgh")?;
    let failing = Vec::from_slice(alloc, failing)?;
    let mut source = MemSource::new(bytes, piece.max(1), failing);
    drained(alloc, &mut source)
}

#[test]
fn sources_in_memory(rt: HostRuntime) -> Result<(), Fail> {
    let alloc = rt.alloc();
    let cases: [(usize, &[u64], &[u8]); 4] = [
        (1, &[], b"abcdefgh"),
        (3, &[2], b"abc!defgh"),
        (100, &[1, 2, 4], b"!!abcd!efgh"),
        (2, &[5], b"abcdefgh!"),
    ];
    for (piece, failing, want) in cases {
        assert_eq!(rt;
            given(alloc, piece, failing)?.as_slice(),
            want,
            "in pieces of {piece}"
        );
    }
    Ok(())
}

#[test]
fn a_sure_source_gives_all(rt: HostRuntime) -> Result<(), Fail> {
    let alloc = rt.alloc();
    let mut source = SureSource::new(Vec::from_slice(alloc, b"abcdefgh")?, 3);
    assert_eq!(rt;
        drained(alloc, &mut source)?.as_slice(),
        b"abcdefgh".as_slice()
    );
    Ok(())
}

/// The signs of three pieces put to a sink in memory, and then what it holds.
fn held(alloc: Global, room: usize, failing: &[u64]) -> Result<Vec<u8>, AllocError> {
    let mut sink = MemSink::new(alloc, room, Vec::from_slice(alloc, failing)?)?;
    let mut all = filled(alloc, &mut sink, &["abc", "de", "fg"])?;
    all.extend_from_slice(sink.bytes())?;
    Ok(all)
}

#[test]
fn sinks_in_memory(rt: HostRuntime) -> Result<(), Fail> {
    let alloc = rt.alloc();
    let cases: [(usize, &[u64], &[u8]); 4] = [
        (7, &[], b"...abcdefg"),
        (6, &[], b"..!abcde"),
        (7, &[2], b".!.abcfg"),
        (4, &[3], b".!!abc"),
    ];
    for (room, failing, want) in cases {
        assert_eq!(rt;
            held(alloc, room, failing)?.as_slice(),
            want,
            "in {room} bytes"
        );
    }
    Ok(())
}

#[test]
fn shelves_in_memory(rt: HostRuntime) -> Result<(), Fail> {
    let alloc = rt.alloc();
    let mut shelf = shelf_of_two(alloc, ("p", "pq"), (65_536, 65_537), &[3])?;
    for (name, want) in [("p", 65_536), ("pq", 8), ("p", 6), ("q", 6)] {
        assert_eq!(rt; loaded(alloc, &mut shelf, name)?.len(), want, "{name}");
    }
    assert_eq!(rt; shelf.text("pq").map_or(0, |text| text.len()), 65_537);
    Ok(())
}

#[test]
fn shelves_in_memory_take_pieces(rt: HostRuntime) -> Result<(), Fail> {
    let alloc = rt.alloc();
    let mut shelf = shelf_of_two(alloc, ("p", "q"), (1, 1), &[2])?;
    let cases = [
        ("p", "ab", true),
        ("p", "c", false),
        ("p", "cd", false),
        ("p", "c", true),
        ("r", "abcd", false),
        ("r", "ab", true),
        ("s", "", false),
        ("r", "c", true),
    ];
    for (name, piece, done) in cases {
        let put = shelf.append(name, piece.as_bytes());
        assert_eq!(rt; put.is_ok(), done, "{piece} to {name}");
    }
    for (name, want) in [("p", "xabc"), ("q", "y"), ("r", "abc")] {
        let text = loaded(alloc, &mut shelf, name)?;
        assert_eq!(rt; text.as_slice(), want.as_bytes(), "{name}");
    }
    Ok(())
}

/// Takes two bytes in a write, and none any more once it holds `most`.
#[derive(Drop)]
struct Stingy {
    held: Vec<u8>,
    most: usize,
}

impl Write for Stingy {
    fn write(&mut self, buf: &[u8]) -> io::Result<usize> {
        let n = buf.len().min(2);
        if self.held.len() < self.most {
            self.held.extend_from_slice(&buf[..n])?;
            Ok(n)
        } else {
            Ok(0)
        }
    }

    fn flush(&mut self) -> io::Result<()> {
        Ok(())
    }
}

/// Gives two bytes, then fails once, then gives two more and ends.
#[derive(Drop)]
struct Torn {
    calls: u8,
}

impl Read for Torn {
    fn read(&mut self, buf: &mut [u8]) -> io::Result<usize> {
        self.calls = self.calls.saturating_add(1);
        match (self.calls, buf) {
            (1 | 3, [first, second, ..]) => {
                *first = b'a';
                *second = b'b';
                Ok(2)
            }
            (2, _) => Err(io::Error::from(ErrorKind::Other)),
            _ => Ok(0),
        }
    }
}

#[test]
fn adapters_tell_failures(rt: HostRuntime) -> Result<(), Fail> {
    let alloc = rt.alloc();
    let mut input = StdInput::new(Torn { calls: 0 });
    assert_eq!(rt; drained(alloc, &mut input)?.as_slice(), b"ab!ab".as_slice());

    let held = Vec::new(alloc);
    let mut output = StdOutput::new(Stingy { held, most: 6 });
    let signs = filled(alloc, &mut output, &["abc", "", "def", "g"])?;
    assert_eq!(rt; signs.as_slice(), b"...!".as_slice());
    Ok(())
}

/// A path of a file that no other run uses.
fn own_path(rt: &HostRuntime) -> io::Result<String> {
    let folder = env::temp_dir(rt)?;
    let id = process::id(rt.process());
    Ok(format!(in rt.alloc(); "{}/zir_outside_{id}", folder.display())?)
}

#[test]
fn streams_reach_files(rt: HostRuntime) -> Result<(), Fail> {
    let alloc = rt.alloc();
    let path = own_path(&rt)?;
    let mut output = StdOutput::new(fs::create(&rt, &path)?);
    filled(alloc, &mut output, &["abc", "", "defgh"])?;
    let mut input = StdInput::new(fs::open(&rt, &path)?);
    assert_eq!(rt;
        drained(alloc, &mut input)?.as_slice(),
        b"abcdefgh".as_slice()
    );
    fs::remove_file(&rt, &path)?;
    Ok(())
}

#[test]
fn streams_reach_the_terminal(rt: HostRuntime) -> Result<(), Fail> {
    let alloc = rt.alloc();
    let mut notes = StdNotes::new(rt.stderr());
    assert_eq!(rt; filled(alloc, &mut notes, &["input ended\n"])?.len(), 1);
    let mut output = StdOutput::new(rt.stdout());
    assert_eq!(rt; filled(alloc, &mut output, &["01\n"])?.len(), 1);
    Ok(())
}

#[test]
fn texts_come_from_files(rt: HostRuntime) -> Result<(), Fail> {
    let alloc = rt.alloc();
    let path = own_path(&rt)?;
    let mut shelf = FileShelf::new(&rt);
    for (size, want) in [(3, 3), (65_536, 65_536), (65_537, 8)] {
        fs::write(&rt, &path, vec![in alloc; b'x'; size]?)?;
        assert_eq!(rt; loaded(alloc, &mut shelf, &path)?.len(), want, "{size}");
    }
    fs::remove_file(&rt, &path)?;
    for (name, want) in [(path.as_str(), 6), ("/dev/zero", 8), ("/", 6)] {
        assert_eq!(rt; loaded(alloc, &mut shelf, name)?.len(), want, "{name}");
    }
    Ok(())
}

#[test]
fn pieces_go_to_files(rt: HostRuntime) -> Result<(), Fail> {
    let alloc = rt.alloc();
    let path = own_path(&rt)?;
    let mut shelf = FileShelf::new(&rt);
    for (name, done) in [(path.as_str(), true), (path.as_str(), true), ("/", false)] {
        assert_eq!(rt; shelf.append(name, b"ab").is_ok(), done, "{name}");
    }
    assert_eq!(rt;
        loaded(alloc, &mut shelf, &path)?.as_slice(),
        b"abab".as_slice()
    );
    fs::remove_file(&rt, &path)?;
    Ok(())
}

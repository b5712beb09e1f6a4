ghost use Rattle.std.specs.Prelude.{◌≡◌, ◌≤◌, false};

use crate::{BitReader, BitWriter};
use std::alloc::{AllocError, Global};
use std::test::Fail;
use zir_outside::Failed;
use zir_outside::memory::{MemSink, MemSource};

// Copies so many bits, or as many as there are, and says how many.
fn copy(
    reader: &mut BitReader,
    source: &mut MemSource,
    writer: &mut BitWriter,
    sink: &mut MemSink,
    most: usize,
) -> Result<usize, Failed>
    requires { reader.old.failed ≡ false }
{
    for i in 0..most {
        let Some(bit) = reader.next(source)? else {
            return Ok(i);
        };
        writer.push(bit, sink)?;
    }
    Ok(most)
}

fn source(
    alloc: Global,
    bytes: &[u8],
    piece: usize,
    failing: &[u64],
) -> Result<MemSource, AllocError>
    requires { 1 ≤ piece }
{
    Ok(MemSource::new(
        Vec::from_slice(alloc, bytes)?,
        piece,
        Vec::from_slice(alloc, failing)?,
    ))
}

// The first bits of bytes that come in pieces of this size, written and finished or flushed.
fn copied(
    alloc: Global,
    bytes: &[u8],
    piece: usize,
    most: usize,
    finished: bool,
) -> Result<MemSink, AllocError>
    requires { 1 ≤ piece }
{
    let mut source = source(alloc, bytes, piece, &[])?;
    let mut sink = MemSink::new(alloc, 8192, Vec::new(alloc))?;
    let mut reader = BitReader::open(alloc)?;
    let mut writer = BitWriter::open(alloc)?;
    let _copied = copy(&mut reader, &mut source, &mut writer, &mut sink, most);
    let _put = if finished {
        writer.finish(&mut sink)
    } else {
        writer.flush_whole(&mut sink)
    };
    Ok(sink)
}

#[test]
fn the_same_bits_in_any_pieces(rt: HostRuntime) -> Result<(), Fail> {
    let bytes = [0x01, 0x80, 0xf0, 0x0f, 0x4b];
    let all = 1000;
    assert_eq!(rt;
        *copied(rt.alloc(), &bytes, 1, all, true)?.bytes(),
        *bytes.as_slice()
    );
    assert_eq!(rt;
        *copied(rt.alloc(), &bytes, 2, all, true)?.bytes(),
        *bytes.as_slice()
    );
    assert_eq!(rt;
        *copied(rt.alloc(), &bytes, 4096, all, false)?.bytes(),
        *bytes.as_slice()
    );
    assert_eq!(rt;
        *copied(rt.alloc(), &[0xff, 0xff], 2, 13, true)?.bytes(),
        *[0xff, 0x1f].as_slice()
    );
    assert_eq!(rt;
        *copied(rt.alloc(), &[0xff, 0xff], 1, 13, false)?.bytes(),
        *[0xff].as_slice()
    );
    assert!(rt; copied(rt.alloc(), &[], 1, all, true)?.bytes().is_empty());
    let long = vec![in rt.alloc(); 0xa5; 5000]?;
    assert_eq!(rt;
        *copied(rt.alloc(), &long, 4096, 40_000, true)?.bytes(),
        *long.as_slice()
    );
    Ok(())
}

#[test]
fn a_read_fails_in_mid_stream(rt: HostRuntime) -> Result<(), Fail> {
    let mut source = source(rt.alloc(), &[0x05, 0x02, 0x00], 2, &[2])?;
    let mut sink = MemSink::new(rt.alloc(), 16, Vec::new(rt.alloc()))?;
    let mut reader = BitReader::open(rt.alloc())?;
    let mut writer = BitWriter::open(rt.alloc())?;
    assert_eq!(rt;
        copy(&mut reader, &mut source, &mut writer, &mut sink, 100),
        Err(Failed)
    );
    assert_eq!(rt; writer.flush_whole(&mut sink), Ok(()));
    assert_eq!(rt; *sink.bytes(), *[0x05, 0x02].as_slice());
    Ok(())
}

#[test]
fn the_second_put_fails(rt: HostRuntime) -> Result<(), Fail> {
    let long = vec![in rt.alloc(); 0xff; 5000]?;
    let mut source = source(rt.alloc(), &long, 4096, &[])?;
    let mut sink = MemSink::new(rt.alloc(), 8192, vec![in rt.alloc(); 2]?)?;
    let mut reader = BitReader::open(rt.alloc())?;
    let mut writer = BitWriter::open(rt.alloc())?;
    assert_eq!(rt;
        copy(&mut reader, &mut source, &mut writer, &mut sink, 50_000),
        Ok(40_000)
    );
    assert_eq!(rt; sink.bytes().len(), 4096);
    assert_eq!(rt; writer.finish(&mut sink), Err(Failed));
    assert_eq!(rt; sink.bytes().len(), 4096);
    assert_eq!(rt; writer.finish(&mut sink), Ok(()));
    Ok(())
}

ghost use Rattle.std.specs.Prelude.{◌≡◌, []};

use crate::{Found, Writer, find};
use sqlite_items::Items;
use std::alloc::{AllocError, Global};
use std::test::Fail;
use zir_outside::memory::MemSink;
use zir_tree::format::Format;
use zir_tree::types::{Base, Ty};

fn single(alloc: Global, base: Base) -> Ty
    ensures { result ≡ record { lengths = []; base = base } }
{
    Ty {
        lengths: Items::new(alloc),
        base,
    }
}

#[test]
fn elements_stand_as_the_formats_say(rt: HostRuntime) -> Result<(), Fail> {
    let mut cells = [0; 1];
    let int16 = single(rt.alloc(), Base::Int16);
    let bit = single(rt.alloc(), Base::Bit);
    let found = find(
        Format::Binary,
        &int16,
        &[0x00, 0x80, 0x01],
        0,
        true,
        &mut cells,
    );
    assert_eq!(rt; (found, cells[0]), (Found::Element(16), -32768));
    let found = find(Format::Binary, &bit, &[0x04], 2, false, &mut cells);
    assert_eq!(rt; (found, cells[0]), (Found::Element(1), 1));
    let found = find(Format::Text, &int16, b" -3 ,\n7", 0, true, &mut cells);
    assert_eq!(rt; (found, cells[0]), (Found::Element(40), -3));
    assert_eq!(rt;
        find(Format::Text, &int16, b"7", 0, false, &mut cells),
        Found::More
    );
    assert_eq!(rt;
        find(Format::Text, &int16, b"40000", 0, true, &mut cells),
        Found::Malformed
    );
    assert_eq!(rt;
        find(Format::Text, &int16, b" \n", 0, true, &mut cells),
        Found::End
    );
    Ok(())
}

// What a writer of 16 bits puts of a number, repeated.
fn written(
    alloc: Global,
    format: Format,
    times: usize,
    failing: &[u64],
) -> Result<(MemSink, bool), AllocError> {
    let ty = single(alloc, Base::Int16);
    let mut sink = MemSink::new(alloc, 8192, Vec::from_slice(alloc, failing)?)?;
    let mut writer = Writer::open(alloc, format, &ty)?;
    let element = vec![in alloc; -2; times]?;
    let put = writer.push(&element, &mut sink);
    let done = put.is_ok() && writer.finish(&mut sink).is_ok();
    Ok((sink, done))
}

#[test]
fn numbers_are_put_in_pieces(rt: HostRuntime) -> Result<(), Fail> {
    let (sink, done) = written(rt.alloc(), Format::Binary, 3, &[])?;
    assert!(rt; done);
    assert_eq!(rt;
        *sink.bytes(),
        *[0xfe, 0xff, 0xfe, 0xff, 0xfe, 0xff].as_slice()
    );
    let (sink, done) = written(rt.alloc(), Format::Text, 3, &[])?;
    assert!(rt; done);
    assert_eq!(rt; *sink.bytes(), *b"-2,-2,-2\n".as_slice());
    let (sink, done) = written(rt.alloc(), Format::Text, 0, &[])?;
    assert!(rt; done);
    assert_eq!(rt; *sink.bytes(), *b"".as_slice());
    let (sink, done) = written(rt.alloc(), Format::Binary, 3000, &[2])?;
    assert!(rt; !done);
    assert_eq!(rt; sink.bytes().len(), 4096);
    let (sink, done) = written(rt.alloc(), Format::Binary, 3000, &[])?;
    assert!(rt; done);
    assert_eq!(rt; sink.bytes().len(), 6000);
    Ok(())
}

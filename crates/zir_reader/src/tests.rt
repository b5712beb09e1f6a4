ghost use Rattle.std.specs.Prelude.{◌≡◌, ◌≤◌, ◌∷◌, [], IfOk, length};
ghost use Rattle.zir_outside.specs.Causes.{Rose};
ghost use Rattle.zir_reader.specs.Reading.{element_size};
ghost use Rattle.zir_meaning.specs.Elements.{numbers_in};
ghost use Rattle.zir_samples.specs.Finding.{IsStreamType};

use crate::elements::{ElementSource, Next};
use crate::{Reader, SourceElements};
use sqlite_items::Items;
use std::alloc::{AllocError, Global};
use std::test::Fail;
use zir_outside::Source;
use zir_outside::memory::MemSource;
use zir_tree::format::Format;
use zir_tree::types::{Base, Ty};

fn single(alloc: Global, base: Base) -> Ty
    ensures { result ≡ record { lengths = []; base = base } }
{
    Ty {
        lengths: Items::new(alloc),
        base,
    }
}

fn triple(alloc: Global, base: Base) -> Result<Ty, AllocError>
    ensures { IfOk result (λ ty. ty ≡ record { lengths = 3 ∷ []; base = base }) }
{
    Ok(Ty {
        lengths: Items::from_slice(alloc, &[3])?,
        base,
    })
}

/// The cells of all elements, what was answered twice behind them, and how many reads failed.
#[derive(Debug, PartialEq, Eq, Drop)]
struct Taken {
    cells: Vec<i64>,
    end: Next,
    again: Next,
    failed: usize,
}

fn drain<E: ElementSource>(
    alloc: Global,
    elements: &mut E,
    size: usize,
) -> Result<Taken, AllocError>
    requires { E.size elements.old ≡ size }
{
    let mut element = vec![in alloc; 0; size]?;
    let mut cells = Vec::new(alloc);
    let mut failed = 0;
    let mut end = Next::Failed;
    for _past in 0..50_usize {
        end = elements.next(&mut element);
        match end {
            Next::Element => cells.extend_from_slice(&element)?,
            Next::Failed => failed += 1,
            Next::End | Next::Malformed(_) => break,
        }
    }
    let again = elements.next(&mut element);
    Ok(Taken {
        cells,
        end,
        again,
        failed,
    })
}

/// What is read of bytes that come so many at a time.
#[derive(Clone, Copy)]
struct Case<'a> {
    format: Format,
    bytes: &'a [u8],
    failing: &'a [u64],
}

fn read(alloc: Global, case: Case, ty: &Ty, size: usize, piece: usize) -> Result<Taken, AllocError>
    requires stream { IsStreamType ty.now }
    requires size { numbers_in ty.now ≡ size }
    requires some { 1 ≤ piece }
{
    let bytes = Vec::from_slice(alloc, case.bytes)?;
    let mut source = MemSource::new(bytes, piece, Vec::from_slice(alloc, case.failing)?);
    let mut reader = Reader::open(alloc, case.format, ty)?;
    drain(
        alloc,
        &mut SourceElements::new(&mut reader, &mut source),
        size,
    )
}

fn expected(alloc: Global, cells: &[i64], end: Next, failed: usize) -> Result<Taken, AllocError> {
    Ok(Taken {
        cells: Vec::from_slice(alloc, cells)?,
        end,
        again: end,
        failed,
    })
}

#[test]
fn elements_come_whole_whatever_the_pieces(rt: HostRuntime) -> Result<(), Fail> {
    let alloc = rt.alloc();
    let complex = triple(alloc, Base::Complex16)?;
    let bits = triple(alloc, Base::Bit)?;
    let int8 = single(alloc, Base::Int8);
    for piece in 1..9 {
        let case = Case {
            format: Format::Text,
            bytes: b" 1,-2 , 3,4,5,6\n,7,8,9,10,11,12,13\n",
            failing: &[],
        };
        let wanted = expected(
            alloc,
            &[1, -2, 3, 4, 5, 6, 7, 8, 9, 10, 11, 12],
            Next::End,
            0,
        )?;
        assert_eq!(rt; read(alloc, case, &complex, 6, piece)?, wanted);
        let case = Case {
            format: Format::Binary,
            bytes: &[0b1010_0110, 0b0000_0001],
            failing: &[],
        };
        let wanted = expected(
            alloc,
            &[0, 1, 1, 0, 0, 1, 0, 1, 1, 0, 0, 0, 0, 0, 0],
            Next::End,
            0,
        )?;
        assert_eq!(rt; read(alloc, case, &bits, 3, piece)?, wanted);
        let case = Case {
            format: Format::Binary,
            bytes: &[1, 0xff, 0x80],
            failing: &[],
        };
        let wanted = expected(alloc, &[1, -1, -128], Next::End, 0)?;
        assert_eq!(rt; read(alloc, case, &int8, 1, piece)?, wanted);
    }
    Ok(())
}

#[test]
fn malformed_input_is_told_behind_the_last_element(rt: HostRuntime) -> Result<(), Fail> {
    let alloc = rt.alloc();
    let int16 = single(alloc, Base::Int16);
    let three = triple(alloc, Base::Int16)?;
    for piece in 1..9 {
        let case = Case {
            format: Format::Text,
            bytes: b"1,2, 3,4,40000,6",
            failing: &[],
        };
        let wanted = expected(alloc, &[1, 2, 3, 4], Next::Malformed(9), 0)?;
        assert_eq!(rt; read(alloc, case, &int16, 1, piece)?, wanted);
        let wanted = expected(alloc, &[1, 2, 3], Next::Malformed(7), 0)?;
        assert_eq!(rt; read(alloc, case, &three, 3, piece)?, wanted);
    }
    Ok(())
}

#[test]
fn failed_reads_lose_nothing(rt: HostRuntime) -> Result<(), Fail> {
    let alloc = rt.alloc();
    let three = triple(alloc, Base::Int16)?;
    let case = Case {
        format: Format::Text,
        bytes: b"1,2, 3,4,5,6\n",
        failing: &[1, 3, 4, 7],
    };
    let wanted = expected(alloc, &[1, 2, 3, 4, 5, 6], Next::End, 4)?;
    assert_eq!(rt; read(alloc, case, &three, 3, 2)?, wanted);
    let case = Case {
        format: Format::Binary,
        bytes: &[1, 0, 2, 0, 3, 0, 4, 0],
        failing: &[2, 3],
    };
    let wanted = expected(alloc, &[1, 2, 3], Next::End, 2)?;
    assert_eq!(rt; read(alloc, case, &three, 3, 3)?, wanted);
    Ok(())
}

fn next_of<E: ElementSource>(elements: &mut E, into: &mut [i64]) -> Next
    requires { length into.old ≡ E.size elements.old }
    ensures size { E.size elements.new ≡ E.size elements.old }
    ensures keeps { E.keeps elements.old elements.new }
    ensures cause { result ≡ Next.Failed → Rose (E.faults elements.old) (E.faults elements.new) }
{
    elements.next(into)
}

// A caller learns from what generic code keeps why a read failed.
fn first<S: Source>(reader: &mut Reader, source: &mut S, into: &mut [i64]) -> Next
    requires { length into.old ≡ element_size reader.old }
    ensures size { element_size reader.new ≡ element_size reader.old }
    ensures cause { result ≡ Next.Failed → Rose (S.faults source.old) (S.faults source.new) }
{
    next_of(&mut SourceElements::new(reader, source), into)
}

#[test]
fn a_reader_goes_on_with_its_source(rt: HostRuntime) -> Result<(), Fail> {
    let alloc = rt.alloc();
    let bytes = Vec::from_slice(alloc, &[5, 6])?;
    let mut source = MemSource::new(bytes, 2, Vec::from_slice(alloc, &[1])?);
    let mut reader = Reader::open(alloc, Format::Binary, &single(alloc, Base::Int8))?;
    let mut element = [0; 1];
    assert_eq!(rt; first(&mut reader, &mut source, &mut element), Next::Failed);
    assert_eq!(rt;
        first(&mut reader, &mut source, &mut element),
        Next::Element
    );
    assert_eq!(rt; element[0], 5);
    assert_eq!(rt;
        first(&mut reader, &mut source, &mut element),
        Next::Element
    );
    assert_eq!(rt; element[0], 6);
    assert_eq!(rt; first(&mut reader, &mut source, &mut element), Next::End);
    assert_eq!(rt; source.given(), 2);
    Ok(())
}

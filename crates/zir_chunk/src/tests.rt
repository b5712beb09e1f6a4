ghost use Rattle.std.specs.Prelude.{◌≡◌, ◌≤◌, [], length};
ghost use Rattle.zir_chunk.specs.Contents.{IsSmall};

use crate::Chunk;
use std::test::Fail;
use zir_tree::ends::{EndMark, Stamp};

// How many elements of this size fit.
fn count(chunk: &mut Chunk, element: &[i64]) -> usize
    requires some { 1 ≤ length element.now }
    requires fits { length element.now ≤ 4096 }
{
    chunk.clear(element.len() as u32);
    let stamp = Stamp { taken: 3, ticks: 5 };
    for _ in 0..300 {
        if chunk.room() {
            chunk.push(element, stamp);
        }
    }
    chunk.len()
}

fn crosses_threads<T: Send + Sync>(_value: &T) {}

#[test]
fn holds_so_many_elements(rt: HostRuntime) -> Result<(), Fail> {
    let mut chunk = Chunk::open(rt.alloc())?;
    let cells = [7; 4096];
    assert_eq!(rt; count(&mut chunk, &cells[..1]), 256);
    assert_eq!(rt; count(&mut chunk, &cells[..16]), 256);
    assert_eq!(rt; count(&mut chunk, &cells[..17]), 240);
    assert_eq!(rt; count(&mut chunk, &cells[..2048]), 2);
    assert_eq!(rt; count(&mut chunk, &cells[..2049]), 1);
    assert_eq!(rt; count(&mut chunk, &cells), 1);
    crosses_threads(&chunk);
    Ok(())
}

#[test]
fn gives_back_what_was_put(rt: HostRuntime) -> Result<(), Fail> {
    let mut chunk = Chunk::open(rt.alloc())?;
    chunk.clear(2);
    chunk.push(&[-1, 10], Stamp { taken: 1, ticks: 4 });
    chunk.push(&[2, -20], Stamp { taken: 1, ticks: 9 });
    chunk.seal(Stamp { taken: 2, ticks: 9 });
    chunk.mark(EndMark::Starved, Stamp { taken: 3, ticks: 9 });
    assert_eq!(rt; *chunk.element(1), *[2, -20].as_slice());
    assert_eq!(rt; chunk.stamp(1), Stamp { taken: 1, ticks: 9 });
    assert_eq!(rt; chunk.reached(), Stamp { taken: 2, ticks: 9 });
    assert_eq!(rt;
        chunk.end(),
        Some((EndMark::Starved, Stamp { taken: 3, ticks: 9 }))
    );
    assert!(rt; !chunk.room());
    chunk.clear(1);
    assert!(rt; chunk.is_empty() && chunk.room());
    Ok(())
}

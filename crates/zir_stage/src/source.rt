// Cells that go from one place to another.

ghost use Rattle.std.specs.Prelude.{◌≡◌};
ghost use Rattle.zir_flow.specs.Threads.{cells_from, written};
ghost use Rattle.zir_stage.specs.Sources.{cells_in};

use zir_expr::frame::Frame;

/// The cells of an element: listed, or so many of a frame from an index on.
#[derive(Clone, Copy)]
pub enum Source<'a> {
    Listed(&'a [i64]),
    Held(&'a Frame, usize, u32),
}

/// Writes cells from an index on.
pub fn write(frame: &mut Frame, to: usize, source: Source)
    ensures { written to (cells_in source.entry) frame.old ≡ frame.new }
{
    match source {
        Source::Listed(cells) => write_listed(frame, to, cells),
        Source::Held(other, from, n) => copy(frame, to, other, from, n as usize),
    }
}

/// Writes listed cells, one after the other, from an index on.
fn write_listed(frame: &mut Frame, to: usize, cells: &[i64])
    ensures { written to cells.now frame.old ≡ frame.new }
{
    let mut to = to;
    for cell in cells {
        frame.put(to, *cell);
        to = to.wrapping_add(1);
    }
}

/// Copies so many cells of another frame, from an index on.
pub fn copy(frame: &mut Frame, to: usize, other: &Frame, from: usize, n: usize)
    ensures { written to (cells_from n from other.now) frame.old ≡ frame.new }
{
    let mut to = to;
    let mut from = from;
    for _past in 0..n {
        let cell = other.cell(from);
        frame.put(to, cell);
        to = to.wrapping_add(1);
        from = from.wrapping_add(1);
    }
}

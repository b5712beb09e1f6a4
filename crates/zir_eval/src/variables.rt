// Single variables.

ghost use Rattle.std.specs.Prelude.{◌≡◌, length};
ghost use Rattle.zir_code.specs.Scopes as scopes;
ghost use Rattle.zir_compile.specs.Names.{scope_of};
ghost use Rattle.zir_eval.specs.Cells as cells;
ghost use Rattle.zir_eval.specs.Ends.{Reads, Writes, SpotOf};

use zir_compile::scope::Names;
use zir_expr::frame::{Frame, Spot};

/// Where the variable of this number stands, if it is in scope and has so many cells.
fn spot_of(names: &Names, id: u32, n: usize) -> Option<Spot>
    ensures { SpotOf (scopes.variable (scope_of names.now) id) n result }
{
    match names.variable(id) {
        None => None,
        Some(holder) => {
            if holder.cells as usize == n {
                Some(holder.spot)
            } else {
                None
            }
        }
    }
}

/// Copies the cells from an index on.
fn copy_out(frame: &Frame, at: usize, into: &mut [i64])
    ensures length { length into.new ≡ length into.old }
    ensures cells { cells.AreAt frame.now at into.new }
{
    let mut i = at;
    for cell in into {
        *cell = frame.cell(i);
        i = i.wrapping_add(1);
    }
}

/// Copies cells to those from an index on.
fn copy_in(frame: &mut Frame, at: usize, from: &[i64])
    ensures { frame.new ≡ cells.put_all at from.now frame.old }
{
    let mut i = at;
    for cell in from {
        frame.put(i, *cell);
        i = i.wrapping_add(1);
    }
}

/// Copies the cells of the variable of this number, and answers whether it is in scope and has so many.
pub fn read(names: &Names, id: u32, frame: &Frame, base: usize, into: &mut [i64]) -> bool
    ensures { Reads (scope_of names.now) id base frame.now result into.old into.new }
{
    match spot_of(names, id, into.len()) {
        None => false,
        Some(spot) => {
            copy_out(frame, spot.index(base), into);
            true
        }
    }
}

/// Gives the variable of this number a value with these cells, and answers whether it is in scope and has so many.
pub fn write(names: &Names, id: u32, from: &[i64], frame: &mut Frame, base: usize) -> bool
    ensures { Writes (scope_of names.now) id base from.now frame.old result frame.new }
{
    match spot_of(names, id, from.len()) {
        None => false,
        Some(spot) => {
            copy_in(frame, spot.index(base), from);
            true
        }
    }
}

// The cells of types, counted up to one more than a type may have.

ghost use Rattle.std.specs.Prelude.{◌≡◌, ◌*◌, ◌≤◌};
ghost use Rattle.zir_types.specs.Scope.{capped as capping, base_cells as base_count, array_cells as array_count, cells_in as count, all_cells as whole_count};
ghost use Rattle.zir_types.specs.Scope.{has_cells as having_cells};

use crate::scope::Shape;
use zir_tree::types::{Base, Ty};

/// A number of cells, with 65,537 for every greater number.
fn capped(n: u128) -> u32
    ensures counted { result ≡ capping n }
    ensures bounded { result ≤ 65537 }
{
    if n < 65537 { n as u32 } else { 65537 }
}

/// The cells of a base type.
fn base_cells(shapes: &[Shape], base: Base) -> u32
    ensures { result ≡ base_count shapes.now base }
{
    match base {
        Base::Unit => 0,
        Base::Bit | Base::Bool | Base::Int8 | Base::Int16 | Base::Int32 | Base::Int64 => 1,
        Base::Complex16 | Base::Complex32 => 2,
        Base::Struct(k) => match shapes.get(k as usize) {
            None => 0,
            Some(shape) => shape.cells,
        },
    }
}

/// The cells of so many elements of so many cells.
fn times(length: u64, cells: u32) -> u32
    ensures { result ≡ capping (length * cells) }
{
    capped(u128::from(length) * u128::from(cells))
}

/// The cells of arrays of these lengths over elements of so many cells.
fn array_cells(lengths: &[u64], cells: u32) -> u32
    ensures { result ≡ array_count lengths.now cells }
{
    match lengths {
        [] => cells,
        [length, more @ ..] => {
            let inner = array_cells(more, cells);
            times(*length, inner)
        }
    }
}

/// The cells of a type, with 65,537 for every greater number of an array.
pub fn cells_in(shapes: &[Shape], ty: &Ty) -> u32
    ensures { result ≡ count shapes.now ty.now }
{
    array_cells(ty.lengths.as_slice(), base_cells(shapes, ty.base))
}

/// The cells of some types together.
pub fn all_cells(shapes: &[Shape], types: &[Ty]) -> u32
    ensures { result ≡ whole_count shapes.now types.now }
{
    match types {
        [] => 0,
        [ty, more @ ..] => {
            let first = cells_in(shapes, ty);
            let rest = all_cells(shapes, more);
            capped(u128::from(first) + u128::from(rest))
        }
    }
}

/// Whether a type has cells.
pub fn has_cells(shapes: &[Shape], ty: &Ty) -> bool
    ensures { result ≡ having_cells shapes.now ty.now }
{
    cells_in(shapes, ty) != 0
}

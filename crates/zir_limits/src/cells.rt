// The cells of types.

ghost use Rattle.std.specs.Prelude.{◌≡◌, ◌*◌};
ghost use Rattle.zir_types.specs.Scope.{base_cells as cells_of_base, capped, cells_in, lengths_of, array_cells};
ghost use Rattle.zir_types.specs.Known.{ty_of};

use zir_tree::types::{Base, Dimension, Ty, TypeExpr};
use zir_types::scope::Shape;

/// The cells of a base type.
pub fn base_cells(shapes: &[Shape], base: Base) -> u64
    ensures { result ≡ cells_of_base shapes.now base }
{
    match base {
        Base::Unit => 0,
        Base::Complex16 | Base::Complex32 => 2,
        Base::Struct(k) => match sqlite_items::at(shapes, k as usize) {
            None => 0,
            Some(shape) => u64::from(shape.cells),
        },
        _ => 1,
    }
}

/// The cells of so many elements of so many cells, with 65,537 for every greater number.
pub fn times(count: u64, cells: u64) -> u64
    ensures { result ≡ capped (count * cells) }
{
    count.saturating_mul(cells).min(65537)
}

/// The cells of arrays of these lengths over elements of so many cells, with 65,537 for every greater number.
fn cells_of_arrays(lengths: &[u64], element: u64) -> u64
    ensures { result ≡ array_cells lengths.now element }
{
    let mut cells = element;
    for i in (0..lengths.len()).rev() {
        cells = times(lengths[i], cells);
    }
    cells
}

/// The cells of written arrays over elements of so many cells, with 65,537 for every greater number.
fn cells_of_written(dimensions: &[Dimension], element: u64) -> u64
    ensures { result ≡ array_cells (lengths_of dimensions.now) element }
{
    let mut cells = element;
    for i in (0..dimensions.len()).rev() {
        cells = times(dimensions[i].length, cells);
    }
    cells
}

/// The cells of a type, with 65,537 for every greater number.
pub fn cells(shapes: &[Shape], ty: &Ty) -> u64
    ensures { result ≡ cells_in shapes.now ty.now }
{
    cells_of_arrays(ty.lengths.as_slice(), base_cells(shapes, ty.base))
}

/// The cells of a written type, with 65,537 for every greater number.
pub fn written_cells(shapes: &[Shape], ty: &TypeExpr) -> u64
    ensures { result ≡ cells_in shapes.now (ty_of ty.now) }
{
    cells_of_written(ty.dimensions.as_slice(), base_cells(shapes, ty.base))
}

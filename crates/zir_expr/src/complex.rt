// Operators on cells of complex numbers: the real and the imaginary part.

ghost use Rattle.std.specs.Prelude.{◌≡◌, [], ◌∷◌, ◌+ℤ◌, ◌-ℤ◌, ◌*ℤ◌};
ghost use Rattle.std.specs.Int.{int_wrap};
ghost use mir.Syntax.{w64};
ghost use Rattle.zir_meaning.specs.Operators.{added, multiplied, negated, same, to_complex};
ghost use Rattle.zir_cells.specs.Cells.{cell_of};
ghost use Rattle.zir_expr.specs.Answers.{base_of};
ghost use Rattle.zir_expr.specs.Scalars.{pair_of, complex_operated};

use crate::whole::Whole;

/// A complex number in cells.
#[derive(Clone, Copy, Debug, PartialEq, Eq)]
pub struct Parts {
    pub real: i64,
    pub imaginary: i64,
}

/// The sum, each part wrapped.
pub fn sum(t: Whole, a: Parts, b: Parts) -> Parts
    ensures { added (λ m n. m +ℤ n) (base_of t) (pair_of a) (pair_of b) ≡ pair_of result }
{
    Parts {
        real: t.sum(a.real, b.real),
        imaginary: t.sum(a.imaginary, b.imaginary),
    }
}

/// The difference, each part wrapped.
pub fn difference(t: Whole, a: Parts, b: Parts) -> Parts
    ensures { added (λ m n. m -ℤ n) (base_of t) (pair_of a) (pair_of b) ≡ pair_of result }
{
    Parts {
        real: t.difference(a.real, b.real),
        imaginary: t.difference(a.imaginary, b.imaginary),
    }
}

/// The product, (a + bi)(c + di) = (ac - bd) + (ad + bc)i, each part wrapped. Wrapping to 64 bits on the way changes no lower bit.
pub fn product(t: Whole, a: Parts, b: Parts) -> Parts
    ensures { multiplied (base_of t) (pair_of a) (pair_of b) ≡ pair_of result }
{
    let real = t.difference(
        cut_product(a.real, b.real),
        cut_product(a.imaginary, b.imaginary),
    );
    let imaginary = t.sum(
        cut_product(a.real, b.imaginary),
        cut_product(a.imaginary, b.real),
    );
    Parts { real, imaginary }
}

/// The product of two parts, wrapped to 64 bits.
fn cut_product(a: i64, b: i64) -> i64
    ensures { result ≡ int_wrap w64 (a *ℤ b) }
{
    a.wrapping_mul(b)
}

/// The number with its sign turned, each part wrapped.
pub fn negation(t: Whole, a: Parts) -> Parts
    ensures { negated (base_of t) (pair_of a) ≡ pair_of result }
{
    Parts {
        real: t.negation(a.real),
        imaginary: t.negation(a.imaginary),
    }
}

/// The number with its parts wrapped to another type.
pub fn converted(t: Whole, a: Parts) -> Parts
    ensures { to_complex (base_of t) (pair_of a) ≡ pair_of result }
{
    Parts {
        real: t.wrapped(a.real),
        imaginary: t.wrapped(a.imaginary),
    }
}

/// Whether two complex numbers are the same, as a cell.
pub fn equal(a: Parts, b: Parts) -> i64
    ensures { cell_of (same (pair_of a) (pair_of b)) ≡ result }
{
    i64::from(a.real == b.real && a.imaginary == b.imaginary)
}

/// An operator at complex numbers.
#[derive(Clone, Copy, Debug, PartialEq, Eq)]
pub enum ComplexOperation {
    Add(Whole),
    Subtract(Whole),
    Multiply(Whole),
    /// `-` at the left side; the right one is not read.
    Negate(Whole),
    /// The left side, its parts wrapped to another type.
    Convert(Whole),
}

impl ComplexOperation {
    /// What it makes of two complex numbers.
    pub fn apply(self, a: Parts, b: Parts) -> Parts
        ensures { complex_operated self a b ≡ result }
    {
        match self {
            ComplexOperation::Add(t) => sum(t, a, b),
            ComplexOperation::Subtract(t) => difference(t, a, b),
            ComplexOperation::Multiply(t) => product(t, a, b),
            ComplexOperation::Negate(t) => negation(t, a),
            ComplexOperation::Convert(t) => converted(t, a),
        }
    }
}

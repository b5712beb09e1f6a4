// Operators and conversions whose operands and answers are one cell each.

ghost use Rattle.std.specs.Prelude.{◌≡◌};
ghost use Rattle.zir_expr.specs.Scalars.{changed, operated};

use crate::truth::Bitwise;
use crate::whole::Whole;
use crate::{truth, whole};
use zir_tree::expr::Operator;

/// A prefix or a conversion.
#[derive(Clone, Copy, Debug, PartialEq, Eq)]
pub enum Change {
    /// `-` at a whole type.
    Negate(Whole),
    /// `~` at a whole type.
    Complement,
    /// `not`, and `~` at a bit.
    Not,
    /// A whole number wrapped to another type.
    Wrap(Whole),
    /// The lowest bit of a whole number.
    LowestBit,
}

/// An operator between two sides, at a whole type or at bits and truth values.
#[derive(Clone, Copy, Debug, PartialEq, Eq)]
pub enum Operation {
    Whole(Operator, Whole),
    Truth(Bitwise),
}

impl Change {
    /// What it makes of a cell.
    #[inline(always)]
    pub fn apply(self, n: i64) -> i64
        ensures { result ≡ changed self n }
    {
        match self {
            Change::Negate(t) => t.negation(n),
            Change::Complement => whole::complement(n),
            Change::Not => truth::complement(n),
            Change::Wrap(t) => t.wrapped(n),
            Change::LowestBit => whole::lowest_bit(n),
        }
    }
}

impl Operation {
    /// What it makes of two cells, or the number of a trap.
    #[inline(always)]
    pub fn apply(self, a: i64, b: i64) -> Result<i64, u8>
        ensures { operated self a b ≡ result }
    {
        match self {
            Operation::Whole(operator, t) => t.operated(operator, a, b),
            Operation::Truth(operator) => Ok(operator.operated(a, b)),
        }
    }
}

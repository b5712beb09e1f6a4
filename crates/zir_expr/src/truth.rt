// Operators on cells of bits and truth values.

ghost use Rattle.std.specs.Prelude.{◌≡◌, [], ◌∷◌, Ok};
ghost use Rattle.zir_tree.specs.declared.value.Val.{Bit as BitVal};
ghost use Rattle.zir_tree.specs.declared.types.Base.TheVariants.{Bit};
ghost use Rattle.zir_meaning.specs.Operators.{computed, complemented};
ghost use Rattle.zir_cells.specs.Cells.{cells_of};
ghost use Rattle.zir_expr.specs.Answers.{cell_or_trap, is_set, operator_of};

/// An operator that takes two bits; two truth values are compared as bits are.
#[derive(Clone, Copy, Debug, PartialEq, Eq)]
pub enum Bitwise {
    Or,
    Xor,
    And,
    Equal,
    NotEqual,
}

impl Bitwise {
    /// What it computes on two bits.
    pub fn operated(self, a: i64, b: i64) -> i64
        ensures { cell_or_trap (computed (operator_of self) Bit (BitVal (is_set a)) (BitVal (is_set b))) ≡ Ok result }
    {
        let a = a != 0;
        let b = b != 0;
        match self {
            Bitwise::Or => i64::from(a || b),
            Bitwise::Xor => i64::from(a != b),
            Bitwise::And => i64::from(a && b),
            Bitwise::Equal => i64::from(a == b),
            Bitwise::NotEqual => i64::from(a != b),
        }
    }
}

/// The other bit or truth value.
pub fn complement(a: i64) -> i64
    ensures { cells_of (complemented (BitVal (is_set a))) ≡ result ∷ [] }
{
    i64::from(a == 0)
}

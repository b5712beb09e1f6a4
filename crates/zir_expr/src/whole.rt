// Operators and conversions on cells of whole numbers.

ghost use Rattle.std.specs.Prelude.{◌≡◌, neg_ℤ, ◌+ℤ◌, ◌-ℤ◌, ◌*ℤ◌, ◌<◌, int_div, int_rem, IfSome, [], ◌∷◌};
ghost use Rattle.std.specs.Int.{int_wrap, int_div_euclid};
ghost use mir.Syntax.{w8, w16, w32};
ghost use Rattle.zir_tree.specs.declared.value.Val.{Num};
ghost use Rattle.zir_meaning.specs.Values.{wrap, width_of};
ghost use Rattle.zir_meaning.specs.Operators.{computed, divided, shifted, complemented, to_bit};
ghost use Rattle.zir_expr.specs.Answers.{base_of, cell_or_trap, amount_in};
ghost use Rattle.zir_cells.specs.Cells.{cells_of};

use zir_tree::expr::Operator;

/// A whole type; also the type of the parts of a complex type.
#[derive(Clone, Copy, Debug, PartialEq, Eq)]
pub enum Whole {
    Eight,
    Sixteen,
    ThirtyTwo,
    SixtyFour,
}

/// Trap 1: the right side of a division is 0.
const ZERO_DIVISOR: u8 = 1;

/// Trap 4: the amount of a shift is outside the width.
const WRONG_SHIFT: u8 = 4;

impl Whole {
    /// The bits of a number of this type.
    pub fn width(self) -> u32
        ensures { result ≡ width_of (base_of self) }
    {
        match self {
            Whole::Eight => 8,
            Whole::Sixteen => 16,
            Whole::ThirtyTwo => 32,
            Whole::SixtyFour => 64,
        }
    }

    /// A number wrapped to this type, in two's complement.
    pub fn wrapped(self, n: i64) -> i64
        ensures { result ≡ wrap (base_of self) n }
    {
        match self {
            Whole::Eight => lowest_8(n),
            Whole::Sixteen => lowest_16(n),
            Whole::ThirtyTwo => lowest_32(n),
            Whole::SixtyFour => n,
        }
    }

    /// The sum, wrapped.
    pub fn sum(self, a: i64, b: i64) -> i64
        ensures { result ≡ wrap (base_of self) (a +ℤ b) }
    {
        self.wrapped(a.wrapping_add(b))
    }

    /// The difference, wrapped.
    pub fn difference(self, a: i64, b: i64) -> i64
        ensures { result ≡ wrap (base_of self) (a -ℤ b) }
    {
        self.wrapped(a.wrapping_sub(b))
    }

    /// The product, wrapped.
    pub fn product(self, a: i64, b: i64) -> i64
        ensures { result ≡ wrap (base_of self) (a *ℤ b) }
    {
        self.wrapped(a.wrapping_mul(b))
    }

    /// A number with its sign turned, wrapped.
    pub fn negation(self, a: i64) -> i64
        ensures { result ≡ wrap (base_of self) (neg_ℤ a) }
    {
        self.wrapped(a.wrapping_neg())
    }

    /// The quotient, cut towards zero and wrapped, or trap 1.
    pub fn quotient(self, a: i64, b: i64) -> Result<i64, u8>
        ensures { cell_or_trap (divided int_div (base_of self) a b) ≡ result }
    {
        if b == 0 {
            Err(ZERO_DIVISOR)
        } else {
            Ok(self.wrapped(a.wrapping_div(b)))
        }
    }

    /// The remainder, with the sign of the left side, or trap 1.
    pub fn remainder(self, a: i64, b: i64) -> Result<i64, u8>
        ensures { cell_or_trap (divided int_rem (base_of self) a b) ≡ result }
    {
        if b == 0 {
            Err(ZERO_DIVISOR)
        } else {
            Ok(self.wrapped(a.wrapping_rem(b)))
        }
    }

    /// The left side shifted up, wrapped, or trap 4.
    pub fn shifted_left(self, a: i64, b: i64) -> Result<i64, u8>
        ensures { cell_or_trap (shifted (λ m n. m *ℤ n) (base_of self) a b) ≡ result }
    {
        match self.amount(b) {
            Some(k) => Ok(self.wrapped(a.wrapping_shl(k))),
            None => Err(WRONG_SHIFT),
        }
    }

    /// The left side shifted down with copies of its sign, or trap 4.
    pub fn shifted_right(self, a: i64, b: i64) -> Result<i64, u8>
        ensures { cell_or_trap (shifted int_div_euclid (base_of self) a b) ≡ result }
    {
        match self.amount(b) {
            Some(k) => Ok(self.wrapped(a >> k)),
            None => Err(WRONG_SHIFT),
        }
    }
}

impl Whole {
    /// The amount of a shift, where it is inside the width.
    fn amount(self, b: i64) -> Option<u32>
        ensures is { amount_in (width_of (base_of self)) b ≡ result }
        ensures small { IfSome result (λ k. k < 64) }
    {
        if 0 <= b && b < i64::from(self.width()) {
            Some(b as u32)
        } else {
            None
        }
    }

    /// What an operator computes on two numbers of this type: a cell, or the number of a trap.
    #[inline(always)]
    pub fn operated(self, operator: Operator, a: i64, b: i64) -> Result<i64, u8>
        ensures { cell_or_trap (computed operator (base_of self) (Num a) (Num b)) ≡ result }
    {
        match operator {
            Operator::BitOr => Ok(a | b),
            Operator::BitXor => Ok(a ^ b),
            Operator::BitAnd => Ok(a & b),
            Operator::ShiftLeft => self.shifted_left(a, b),
            Operator::ShiftRight => self.shifted_right(a, b),
            Operator::Add => Ok(self.sum(a, b)),
            Operator::Subtract => Ok(self.difference(a, b)),
            Operator::Multiply => Ok(self.product(a, b)),
            Operator::Divide => self.quotient(a, b),
            Operator::Remainder => self.remainder(a, b),
            Operator::Equal => Ok(i64::from(a == b)),
            Operator::NotEqual => Ok(i64::from(a != b)),
            Operator::Less => Ok(i64::from(a < b)),
            Operator::LessEqual => Ok(i64::from(a <= b)),
            Operator::Greater => Ok(i64::from(a > b)),
            Operator::GreaterEqual => Ok(i64::from(a >= b)),
            Operator::Or => Ok(0),
            Operator::And => Ok(0),
        }
    }
}

/// A number with all bits turned.
pub fn complement(a: i64) -> i64
    ensures { cells_of (complemented (Num a)) ≡ result ∷ [] }
{
    !a
}

/// The lowest bit of a number.
pub fn lowest_bit(a: i64) -> i64
    ensures { cells_of (to_bit (Num a)) ≡ result ∷ [] }
{
    a & 1
}

/// The lowest 8 bits, as a signed number.
fn lowest_8(n: i64) -> i64
    ensures { result ≡ int_wrap w8 n }
{
    let low = (n.cast_unsigned() & 0xff) as u8;
    i64::from(low.cast_signed())
}

/// The lowest 16 bits, as a signed number.
fn lowest_16(n: i64) -> i64
    ensures { result ≡ int_wrap w16 n }
{
    let low = (n.cast_unsigned() & 0xffff) as u16;
    i64::from(low.cast_signed())
}

/// The lowest 32 bits, as a signed number.
fn lowest_32(n: i64) -> i64
    ensures { result ≡ int_wrap w32 n }
{
    let low = (n.cast_unsigned() & 0xffff_ffff) as u32;
    i64::from(low.cast_signed())
}

// Types, prefixes, conversions, operators and numbers, as steps take them.

ghost use Rattle.std.specs.Prelude.{◌≡◌, true};
ghost use Rattle.std.specs.Int.{int_wrap};
ghost use mir.Syntax.{w64};
ghost use Rattle.zir_meaning.specs.Values.{wrap};
ghost use Rattle.zir_shapes.specs.Offsets as offsets;
ghost use Rattle.zir_code.specs.Coding as coding;
ghost use Rattle.zir_code.specs.Types as types;
ghost use Rattle.zir_compile.specs.Deciding.{deciding_value};

use zir_expr::complex::ComplexOperation;
use zir_expr::frame::Spot;
use zir_expr::scalar::{Change, Operation};
use zir_expr::steps::Step;
use zir_expr::truth::Bitwise;
use zir_expr::whole::Whole;
use zir_tree::expr::{Operator, Prefix};
use zir_tree::types::Base;

/// Whether a type is a whole type.
pub fn is_whole(t: Base) -> bool
    ensures { result ≡ offsets.is_whole t }
{
    match t {
        Base::Int8 => true,
        Base::Int16 => true,
        Base::Int32 => true,
        Base::Int64 => true,
        Base::Unit => false,
        Base::Bit => false,
        Base::Bool => false,
        Base::Complex16 => false,
        Base::Complex32 => false,
        Base::Struct(_) => false,
    }
}

/// The width of a whole type, and 64 bits for any other.
fn whole_of(t: Base) -> Whole
    ensures { result ≡ coding.whole_of t }
{
    match t {
        Base::Int8 => Whole::Eight,
        Base::Int16 => Whole::Sixteen,
        Base::Int32 => Whole::ThirtyTwo,
        Base::Int64 => Whole::SixtyFour,
        Base::Unit => Whole::SixtyFour,
        Base::Bit => Whole::SixtyFour,
        Base::Bool => Whole::SixtyFour,
        Base::Complex16 => Whole::SixtyFour,
        Base::Complex32 => Whole::SixtyFour,
        Base::Struct(_) => Whole::SixtyFour,
    }
}

/// An operator on bits and truth values.
fn bitwise_of(operator: Operator) -> Bitwise
    ensures { result ≡ coding.bitwise_of operator }
{
    match operator {
        Operator::BitOr => Bitwise::Or,
        Operator::BitXor => Bitwise::Xor,
        Operator::BitAnd => Bitwise::And,
        Operator::NotEqual => Bitwise::NotEqual,
        _ => Bitwise::Equal,
    }
}

/// An operator whose left side has a type.
pub fn operation_of(operator: Operator, t: Base) -> Operation
    ensures { result ≡ coding.operation_of operator t }
{
    match t {
        Base::Bit => Operation::Truth(bitwise_of(operator)),
        Base::Bool => Operation::Truth(bitwise_of(operator)),
        _ => Operation::Whole(operator, whole_of(t)),
    }
}

/// The truth value of the left side at which an operator leaves its right side out.
pub fn deciding(operator: Operator) -> Option<bool>
    ensures { result ≡ deciding_value operator }
{
    match operator {
        Operator::Or => Some(true),
        Operator::And => Some(false),
        _ => None,
    }
}

/// A prefix of an operand of a type.
fn change_of(prefix: Prefix, t: Base) -> Change
    ensures { result ≡ coding.change_of prefix t }
{
    match prefix {
        Prefix::Minus => Change::Negate(whole_of(t)),
        Prefix::Complement => match t {
            Base::Bit => Change::Not,
            _ => Change::Complement,
        },
        Prefix::Not => Change::Not,
    }
}

/// A conversion to a type.
fn conversion_of(t: Base) -> Change
    ensures { result ≡ coding.conversion_of t }
{
    match t {
        Base::Bit => Change::LowestBit,
        _ => Change::Wrap(whole_of(t)),
    }
}

/// A prefix of a value of a type.
pub fn prefixed(prefix: Prefix, t: Base, x: Spot, d: u32) -> Step
    ensures { result ≡ coding.prefix_code prefix t x d }
{
    let to = Spot::Local(d);
    match t {
        Base::Complex16 => Step::Complex(ComplexOperation::Negate(Whole::Sixteen), to, x, x),
        Base::Complex32 => Step::Complex(ComplexOperation::Negate(Whole::ThirtyTwo), to, x, x),
        _ => Step::Change(change_of(prefix, t), to, x),
    }
}

/// A conversion of a value to a type.
pub fn converted(t: Base, x: Spot, d: u32) -> Step
    ensures { result ≡ coding.conversion_code t x d }
{
    let to = Spot::Local(d);
    match t {
        Base::Complex16 => Step::Complex(ComplexOperation::Convert(Whole::Sixteen), to, x, x),
        Base::Complex32 => Step::Complex(ComplexOperation::Convert(Whole::ThirtyTwo), to, x, x),
        _ => Step::Change(conversion_of(t), to, x),
    }
}

/// The type of what an operator answers whose left side has a type.
pub fn operator_type(operator: Operator, t: Base) -> Base
    ensures { result ≡ types.operator_type operator t }
{
    match operator {
        Operator::Or => Base::Bool,
        Operator::And => Base::Bool,
        Operator::Equal => Base::Bool,
        Operator::NotEqual => Base::Bool,
        Operator::Less => Base::Bool,
        Operator::LessEqual => Base::Bool,
        Operator::Greater => Base::Bool,
        Operator::GreaterEqual => Base::Bool,
        Operator::BitOr => t,
        Operator::BitXor => t,
        Operator::BitAnd => t,
        Operator::ShiftLeft => t,
        Operator::ShiftRight => t,
        Operator::Add => t,
        Operator::Subtract => t,
        Operator::Multiply => t,
        Operator::Divide => t,
        Operator::Remainder => t,
    }
}

/// The cell of a whole number of a type.
pub fn literal(t: Base, n: i128) -> i64
    ensures { offsets.is_whole t ≡ true → result ≡ wrap t n }
{
    whole_of(t).wrapped(lowest_64(n))
}

/// The lowest 64 bits, as a signed number.
fn lowest_64(n: i128) -> i64
    ensures { result ≡ int_wrap w64 n }
{
    let low = (n.cast_unsigned() & 0xffff_ffff_ffff_ffff) as u64;
    low.cast_signed()
}

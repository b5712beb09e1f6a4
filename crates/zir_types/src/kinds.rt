// Types, which of them are of a kind, and the rules of operators and conversions.

ghost use Rattle.std.specs.Prelude.{◌≡◌, IfOk};
ghost use Rattle.zir_types.specs.Kinds.{scalar as scalar_ty, scalar_of as scalar_of_ty, arr, is_whole as whole, is_complex as complex, is_bit as bit};
ghost use Rattle.zir_types.specs.Kinds.{is_bool as boolean, is_struct as structure, half_of as half, same_base as one_base, same_lengths as one_list};
ghost use Rattle.zir_types.specs.Kinds.{same_ty, where_so as if_so, ruled as ruling, prefixes as prefixing, converts as converting};
ghost use Rattle.zir_types.specs.Kinds.{within as fitting, both_whole as whole_sides, both_numbers as number_sides, both_bits as bit_sides};
ghost use Rattle.zir_types.specs.Kinds.{both_comparable as comparable_sides};
ghost use Rattle.zir_types.specs.Expressions.{agree as agreeing, all_same as alike};

use sqlite_items::Items;
use std::alloc::{AllocError, Global};
use zir_tree::expr::{Operator, Prefix};
use zir_tree::types::{Base, Ty};

/// The type of a base that is no array.
pub fn scalar(alloc: Global, base: Base) -> Ty
    ensures { result ≡ scalar_ty base }
{
    Ty {
        lengths: Items::new(alloc),
        base,
    }
}

/// The base of a type that is no array, and else unit, which no operator takes.
pub fn scalar_of(ty: &Ty) -> Base
    ensures { result ≡ scalar_of_ty ty.now }
{
    match ty.lengths.as_slice() {
        [] => ty.base,
        [_, ..] => Base::Unit,
    }
}

/// A copy of a type.
pub fn copy(alloc: Global, ty: &Ty) -> Result<Ty, AllocError>
    ensures { IfOk result (λ t. t ≡ ty.now) }
{
    Ok(Ty {
        lengths: Items::from_slice(alloc, ty.lengths.as_slice())?,
        base: ty.base,
    })
}

/// Whether a whole number.
pub fn is_whole(base: Base) -> bool
    ensures { result ≡ whole base }
{
    matches!(base, Base::Int8 | Base::Int16 | Base::Int32 | Base::Int64)
}

/// Whether a complex number.
pub fn is_complex(base: Base) -> bool
    ensures { result ≡ complex base }
{
    matches!(base, Base::Complex16 | Base::Complex32)
}

/// Whether a bit.
pub fn is_bit(base: Base) -> bool
    ensures { result ≡ bit base }
{
    matches!(base, Base::Bit)
}

/// Whether a truth value.
pub fn is_bool(base: Base) -> bool
    ensures { result ≡ boolean base }
{
    matches!(base, Base::Bool)
}

/// Whether a struct.
pub fn is_struct(base: Base) -> bool
    ensures { result ≡ structure base }
{
    matches!(base, Base::Struct(_))
}

/// The type of the parts of a complex number.
pub fn half_of(base: Base) -> Option<Base>
    ensures { result ≡ half base }
{
    match base {
        Base::Complex16 => Some(Base::Int16),
        Base::Complex32 => Some(Base::Int32),
        _ => None,
    }
}

/// Whether two bases are one.
pub fn same_base(a: Base, b: Base) -> bool
    ensures { result ≡ one_base a b }
{
    match (a, b) {
        (Base::Unit, Base::Unit) => true,
        (Base::Bit, Base::Bit) => true,
        (Base::Bool, Base::Bool) => true,
        (Base::Int8, Base::Int8) => true,
        (Base::Int16, Base::Int16) => true,
        (Base::Int32, Base::Int32) => true,
        (Base::Int64, Base::Int64) => true,
        (Base::Complex16, Base::Complex16) => true,
        (Base::Complex32, Base::Complex32) => true,
        (Base::Struct(k), Base::Struct(l)) => k == l,
        _ => false,
    }
}

/// Whether two lists of array lengths are one.
fn same_lengths(a: &[u64], b: &[u64]) -> bool
    ensures { result ≡ one_list a.now b.now }
{
    match a {
        [] => b.is_empty(),
        [x, a @ ..] => match b {
            [] => false,
            [y, b @ ..] => *x == *y && same_lengths(a, b),
        },
    }
}

/// Whether two types are one.
pub fn same(a: &Ty, b: &Ty) -> bool
    ensures { result ≡ same_ty a.now b.now }
{
    same_lengths(a.lengths.as_slice(), b.lengths.as_slice()) && same_base(a.base, b.base)
}

/// Whether types are those of these parameters, as many as there are.
pub fn agree(params: &[Ty], types: &[Ty]) -> bool
    ensures { result ≡ agreeing params.now types.now }
{
    match params {
        [] => types.is_empty(),
        [p, params @ ..] => match types {
            [] => false,
            [t, types @ ..] => same(p, t) && agree(params, types),
        },
    }
}

/// Whether all types are this one.
pub fn all_same(ty: &Ty, types: &[Ty]) -> bool
    ensures { result ≡ alike ty.now types.now }
{
    match types {
        [] => true,
        [t, types @ ..] => same(ty, t) && all_same(ty, types),
    }
}

/// A base, where a rule holds.
fn where_so(holds: bool, base: Base) -> Option<Base>
    ensures { result ≡ if_so holds base }
{
    if holds { Some(base) } else { None }
}

/// Whether both sides are one whole type.
fn both_whole(a: Base, b: Base) -> bool
    ensures { result ≡ whole_sides a b }
{
    is_whole(a) && same_base(a, b)
}

/// Whether both sides are one whole or complex type.
fn both_numbers(a: Base, b: Base) -> bool
    ensures { result ≡ number_sides a b }
{
    (is_whole(a) || is_complex(a)) && same_base(a, b)
}

/// Whether both sides are bits, or one whole type.
fn both_bits(a: Base, b: Base) -> bool
    ensures { result ≡ bit_sides a b }
{
    (is_bit(a) || is_whole(a)) && same_base(a, b)
}

/// Whether both sides are one type out of bit, bool, whole and complex.
fn both_comparable(a: Base, b: Base) -> bool
    ensures { result ≡ comparable_sides a b }
{
    (is_bit(a) || is_bool(a) || is_whole(a) || is_complex(a)) && same_base(a, b)
}

/// The type of an operator's result over the types of its sides, where its rule holds.
pub fn ruled(op: Operator, a: Base, b: Base) -> Option<Base>
    ensures { result ≡ ruling op a b }
{
    match op {
        Operator::Or | Operator::And => where_so(is_bool(a) && is_bool(b), Base::Bool),
        Operator::BitOr | Operator::BitXor | Operator::BitAnd => where_so(both_bits(a, b), a),
        Operator::Equal | Operator::NotEqual => where_so(both_comparable(a, b), Base::Bool),
        Operator::Less | Operator::LessEqual | Operator::Greater | Operator::GreaterEqual => {
            where_so(both_whole(a, b), Base::Bool)
        }
        Operator::ShiftLeft | Operator::ShiftRight => where_so(is_whole(a) && is_whole(b), a),
        Operator::Add | Operator::Subtract | Operator::Multiply => where_so(both_numbers(a, b), a),
        Operator::Divide | Operator::Remainder => where_so(both_whole(a, b), a),
    }
}

/// Whether a prefix takes this type.
pub fn prefixes(op: Prefix, base: Base) -> bool
    ensures { result ≡ prefixing op base }
{
    match op {
        Prefix::Minus => is_whole(base) || is_complex(base),
        Prefix::Complement => is_bit(base) || is_whole(base),
        Prefix::Not => is_bool(base),
    }
}

/// Whether a conversion of one part takes this type.
pub fn converts(to: Base, from: Base) -> bool
    ensures { result ≡ converting to from }
{
    ((is_whole(to) || is_bit(to)) && (is_whole(from) || is_bit(from)))
        || (is_complex(to) && is_complex(from))
}

/// Whether a whole type can hold this number.
pub fn within(base: Base, n: i128) -> bool
    ensures { result ≡ fitting base n }
{
    match base {
        Base::Int8 => -128 <= n && n <= 127,
        Base::Int16 => -32768 <= n && n <= 32767,
        Base::Int32 => -2147483648 <= n && n <= 2147483647,
        Base::Int64 => -9223372036854775808 <= n && n <= 9223372036854775807,
        _ => false,
    }
}

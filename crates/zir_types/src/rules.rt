// The rules of the forms of expressions.

ghost use Rattle.std.specs.Prelude.{◌≡◌, ◌∷◌, ◌&&◌, not, IfOk};
ghost use Rattle.std.specs.Int.{int_wrapping_neg};
ghost use mir.Syntax.{w128};
ghost use Rattle.zir_types.specs.Walk.{Told};
ghost use Rattle.zir_types.specs.Expressions.{is_literal as literal, joins as joining, signs as signing, number_of as number_in, negates as negating};
ghost use Rattle.zir_types.specs.Expressions.{unasked as nothing_asked, wanted as wanting, lent as lending, literal_type as typed_as};
ghost use Rattle.zir_types.specs.Expressions.{element_asked as element_asking, kept as keeping, asked as asking, int_at as int_walk, variable_at};
ghost use Rattle.zir_types.specs.Expressions.{prefixed as prefix_walk, joined as join_walk, indexed as index_walk, sliced as slice_walk};
ghost use Rattle.zir_types.specs.Expressions.{selected as part_walk, converted as convert_walk, paired as pair_walk, param_asks as param_asking};
ghost use Rattle.zir_types.specs.Expressions.{params_after as params_behind, called as call_walk, gathered as array_walk};
ghost use Rattle.zir_types.specs.Scope.{type_in};

use crate::error::TypeError;
use crate::kinds::{
    agree, all_same, converts, copy, half_of, is_whole, prefixes, ruled, same_base, scalar,
    scalar_of, within,
};
use crate::scope::{Scope, copy_ident};
use crate::typed::{Args, Called, Typed};
use sqlite_items::{Boxed, Items};
use std::alloc::{AllocError, Global};
use zir_tree::expr::{Expr, Operator, Prefix};
use zir_tree::ident::Ident;
use zir_tree::name::Name;
use zir_tree::place::Place;
use zir_tree::types::{Base, Ty};

/// Whether an operator joins two literal expressions to one.
pub fn joins(op: Operator) -> bool
    ensures { result ≡ joining op }
{
    match op {
        Operator::BitOr | Operator::BitXor | Operator::BitAnd => true,
        Operator::Add | Operator::Subtract | Operator::Multiply => true,
        Operator::Divide | Operator::Remainder => true,
        _ => false,
    }
}

/// Whether a prefix makes a literal expression of another.
pub fn signs(op: Prefix) -> bool
    ensures { result ≡ signing op }
{
    matches!(op, Prefix::Minus | Prefix::Complement)
}

/// Whether a prefix before an operand is a literal expression, where the operand is one or not.
pub fn signed(op: Prefix, inner: bool) -> bool
    ensures { result ≡ (signing op && inner) }
{
    signs(op) && inner
}

/// Whether an operator between two sides is a literal expression, where the sides are such or not.
fn joined_literals(op: Operator, left: bool, right: bool) -> bool
    ensures { result ≡ (joining op && (left && right)) }
{
    joins(op) && (left && right)
}

/// Whether a literal expression: an INT, `-` or `~` before one, or two of them joined.
pub fn is_literal(e: &Expr) -> bool
    ensures { result ≡ literal e.now }
{
    match e {
        Expr::Int(_, _, _) => true,
        Expr::Unary(op, _, inner, _) => {
            let inner = is_literal(inner.get());
            signed(*op, inner)
        }
        Expr::Binary(op, _, a, b, _) => {
            let left = is_literal(a.get());
            let right = is_literal(b.get());
            joined_literals(*op, left, right)
        }
        _ => false,
    }
}

/// The number of an INT.
pub fn number_of(e: &Expr) -> Option<i128>
    ensures { result ≡ number_in e.now }
{
    match e {
        Expr::Int(n, _, _) => Some(*n),
        _ => None,
    }
}

/// The number of the INT that a prefix `-` makes one literal with.
pub fn negates(op: Prefix, e: &Expr) -> Option<i128>
    ensures { result ≡ negating op (number_in e.now) }
{
    match op {
        Prefix::Minus => number_of(e),
        Prefix::Complement | Prefix::Not => None,
    }
}

/// A number of a whole type, which must hold it.
pub fn int_at(alloc: Global, base: Base, n: i128, at: Place) -> Result<Typed, TypeError>
    ensures { Told (int_walk base n at) result }
{
    if !within(base, n) {
        return Err(TypeError::Mismatch(at));
    }
    Ok(Typed {
        what: Expr::Int(n, base, at),
        ty: scalar(alloc, base),
    })
}

/// A `-` before an INT is one literal with it.
pub fn minus_int(alloc: Global, base: Base, n: i128, at: Place) -> Result<Typed, TypeError>
    ensures { Told (int_walk base (int_wrapping_neg w128 n) at) result }
{
    int_at(alloc, base, n.wrapping_neg(), at)
}

/// A variable with its type.
pub fn variable(alloc: Global, scope: &Scope, x: &Ident) -> Result<Typed, TypeError>
    ensures { Told (variable_at (type_in scope.now.variables x.now.id) x.now) result }
{
    match scope.variable(x.id) {
        None => Err(TypeError::Mismatch(x.at)),
        Some(ty) => {
            let ty = copy(alloc, ty)?;
            let x = copy_ident(alloc, x)?;
            Ok(Typed {
                what: Expr::Variable(x),
                ty,
            })
        }
    }
}

/// The rule of a prefix.
pub fn prefixed(alloc: Global, op: Prefix, at: Place, t: Typed) -> Result<Typed, TypeError>
    ensures { Told (prefix_walk op at t) result }
{
    let base = scalar_of(&t.ty);
    if !prefixes(op, base) {
        return Err(TypeError::Mismatch(at));
    }
    let what = Boxed::new(alloc, t.what)?;
    Ok(Typed {
        what: Expr::Unary(op, base, what, at),
        ty: scalar(alloc, base),
    })
}

/// The rule of an operator; it carries the type of its left side.
pub fn joined(
    alloc: Global,
    op: Operator,
    at: Place,
    s: Typed,
    t: Typed,
) -> Result<Typed, TypeError>
    ensures { Told (join_walk op at s t) result }
{
    let base = scalar_of(&s.ty);
    match ruled(op, base, scalar_of(&t.ty)) {
        None => Err(TypeError::Mismatch(at)),
        Some(r) => {
            let left = Boxed::new(alloc, s.what)?;
            let right = Boxed::new(alloc, t.what)?;
            Ok(Typed {
                what: Expr::Binary(op, base, left, right, at),
                ty: scalar(alloc, r),
            })
        }
    }
}

/// The rule of an index.
pub fn indexed(alloc: Global, at: Place, s: Typed, t: Typed) -> Result<Typed, TypeError>
    ensures { Told (index_walk at s t) result }
{
    match s.ty.lengths.as_slice() {
        [] => Err(TypeError::Mismatch(at)),
        [_, more @ ..] => {
            if !is_whole(scalar_of(&t.ty)) {
                return Err(TypeError::Mismatch(at));
            }
            let lengths = Items::from_slice(alloc, more)?;
            let base = s.ty.base;
            let array = Boxed::new(alloc, s.what)?;
            let index = Boxed::new(alloc, t.what)?;
            Ok(Typed {
                what: Expr::Index(array, index, at),
                ty: Ty { lengths, base },
            })
        }
    }
}

/// The lengths of a slice of so many elements of what has these lengths.
pub fn slice_lengths(alloc: Global, count: u64, more: &[u64]) -> Result<Items<u64>, AllocError>
    ensures { IfOk result (λ lengths. lengths ≡ count ∷ more.now) }
{
    let mut lengths = Vec::new(alloc);
    lengths.push(count)?;
    lengths.extend_from_slice(more)?;
    Ok(Items::from_vec(lengths))
}

/// The rule of a slice.
pub fn sliced(alloc: Global, count: u64, at: Place, s: Typed, t: Typed) -> Result<Typed, TypeError>
    ensures { Told (slice_walk count at s t) result }
{
    match s.ty.lengths.as_slice() {
        [] => Err(TypeError::Mismatch(at)),
        [_, more @ ..] => {
            if !is_whole(scalar_of(&t.ty)) {
                return Err(TypeError::Mismatch(at));
            }
            let lengths = slice_lengths(alloc, count, more)?;
            let base = s.ty.base;
            let array = Boxed::new(alloc, s.what)?;
            let index = Boxed::new(alloc, t.what)?;
            Ok(Typed {
                what: Expr::Slice(array, index, count, at),
                ty: Ty { lengths, base },
            })
        }
    }
}

/// The rule of a part.
pub fn selected(
    alloc: Global,
    scope: &Scope,
    name: &Name,
    at: Place,
    s: Typed,
) -> Result<Typed, TypeError>
    ensures { Told (part_walk scope.now name.now at s) result }
{
    match scope.part(alloc, &s.ty, name.as_slice())? {
        None => Err(TypeError::Mismatch(at)),
        Some(part) => {
            let name = Name::from_slice(alloc, name.as_slice())?;
            let whole = Boxed::new(alloc, s.what)?;
            Ok(Typed {
                what: Expr::Part(whole, name, part.place, at),
                ty: part.ty,
            })
        }
    }
}

/// The rule of a conversion of one part.
pub fn converted(alloc: Global, to: Base, at: Place, t: Typed) -> Result<Typed, TypeError>
    ensures { Told (convert_walk to at t) result }
{
    if !converts(to, scalar_of(&t.ty)) {
        return Err(TypeError::Mismatch(at));
    }
    let what = Boxed::new(alloc, t.what)?;
    Ok(Typed {
        what: Expr::Convert(to, what, at),
        ty: scalar(alloc, to),
    })
}

/// The rule of a complex number from its two parts.
pub fn paired(alloc: Global, to: Base, at: Place, s: Typed, t: Typed) -> Result<Typed, TypeError>
    ensures { Told (pair_walk to at s t) result }
{
    match half_of(to) {
        None => Err(TypeError::Mismatch(at)),
        Some(half) => {
            if !(same_base(half, scalar_of(&s.ty)) && same_base(half, scalar_of(&t.ty))) {
                return Err(TypeError::Mismatch(at));
            }
            let real = Boxed::new(alloc, s.what)?;
            let imaginary = Boxed::new(alloc, t.what)?;
            Ok(Typed {
                what: Expr::Complex(to, real, imaginary, at),
                ty: scalar(alloc, to),
            })
        }
    }
}

/// The parameters behind the next.
pub fn params_after(params: &[Ty]) -> &[Ty]
    ensures { result.now ≡ params_behind params.now }
{
    match params {
        [] => params,
        [_, more @ ..] => more,
    }
}

/// The rule of a call.
pub fn called(alloc: Global, f: &Ident, c: Called, args: Args) -> Result<Typed, TypeError>
    ensures { Told (call_walk f.now c args) result }
{
    let Args { whats, types } = args;
    if !agree(c.params.as_slice(), types.as_slice()) {
        return Err(TypeError::Mismatch(f.at));
    }
    let f = copy_ident(alloc, f)?;
    Ok(Typed {
        what: Expr::Call(f, c.callee, whats),
        ty: c.result,
    })
}

/// The rule of an array literal.
pub fn gathered(alloc: Global, at: Place, args: Args) -> Result<Typed, TypeError>
    ensures { Told (array_walk at args) result }
{
    let Args { whats, types } = args;
    match types.as_slice() {
        [] => Err(TypeError::Mismatch(at)),
        [ty, more @ ..] => {
            if !all_same(ty, more) {
                return Err(TypeError::Mismatch(at));
            }
            let count = whats.len() as u64;
            let lengths = slice_lengths(alloc, count, ty.lengths.as_slice())?;
            let base = ty.base;
            Ok(Typed {
                what: Expr::Array(whats, at),
                ty: Ty { lengths, base },
            })
        }
    }
}

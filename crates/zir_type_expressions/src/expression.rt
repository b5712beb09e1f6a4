// The types of expressions.

ghost use Rattle.std.specs.Prelude.{◌≡◌, ◌&&◌, None, MatchOption};
ghost use Rattle.zir_types.specs.Expressions.{Alike, InTurn, args_of, expr as walk, no_args};
ghost use Rattle.zir_types.specs.Expressions.{unasked as nothing_asked, lent as lending, joined as join_walk, indexed as index_walk};
ghost use Rattle.zir_types.specs.Expressions.{sliced as slice_walk, paired as pair_walk, selected as part_walk, converted as convert_walk};
ghost use Rattle.zir_types.specs.Expressions.{gathered as array_walk, call as call_walk, unary as prefix_walk, wanted as wanting};
ghost use Rattle.zir_types.specs.Expressions.{negates as negating, number_of as number_in, kept as keeping, signs as signing, is_literal as literal, element_asked as element_asking};
ghost use Rattle.zir_types.specs.Kinds.{scalar as scalar_ty};
ghost use Rattle.zir_types.specs.Scope.{called_in};
ghost use Rattle.zir_types.specs.Walk.{Walk, Told, and_then};
ghost use Rattle.zir_types.specs.declared.typed.Typed.{Typed};
ghost use Rattle.zir_types.specs.Wants.{asked_ty};

use sqlite_items::Items;
use std::alloc::Global;
use zir_tree::expr::{Expr, Operator, Prefix};
use zir_tree::ident::Ident;
use zir_tree::name::Name;
use zir_tree::place::Place;
use zir_tree::types::{Base, Ty};
use zir_types::error::TypeError;
use zir_types::kinds::scalar;
use zir_types::rules::{
    called, converted, gathered, indexed, int_at, is_literal, joined, minus_int, negates, paired,
    params_after, prefixed, selected, sliced, variable,
};
use zir_types::scope::Scope;
use zir_types::typed::{Args, Typed};
use zir_types::wants::{
    Want, asked, element_asked, left_asked, lent, literal_type, operand_asked, param_asks,
    right_first, unasked, wanted_base,
};

/// A value that the text spells, of this type.
fn constant(alloc: Global, what: Expr, base: Base) -> Typed
    ensures { result ≡ record { what = what; ty = scalar_ty base } }
{
    let ty = scalar(alloc, base);
    Typed { what, ty }
}

/// An expression with its type, where this is asked of a literal.
#[cycle(walk)]
pub fn type_expr(alloc: Global, scope: &Scope, want: Want<'_>, e: &Expr) -> Result<Typed, TypeError>
    ensures { Told (walk scope.now (asked_ty want.entry) e.now) result }
{
    match e {
        Expr::Unit(at) => Ok(constant(alloc, Expr::Unit(*at), Base::Unit)),
        Expr::Bit(bit, at) => Ok(constant(alloc, Expr::Bit(*bit, *at), Base::Bit)),
        Expr::Bool(truth, at) => Ok(constant(alloc, Expr::Bool(*truth, *at), Base::Bool)),
        Expr::Int(n, _, at) => int_at(alloc, literal_type(want), *n, *at),
        Expr::Variable(x) => variable(alloc, scope, x),
        Expr::Unary(op, _, inner, at) => type_unary(alloc, scope, want, inner.get(), *op, *at),
        Expr::Binary(op, _, a, b, at) => {
            let left = is_literal(a.get());
            let right = is_literal(b.get());
            if right_first(left, right) {
                let t = type_expr(alloc, scope, unasked(), b.get())?;
                return type_left(alloc, scope, t, a.get(), *op, *at);
            }
            let s = type_expr(alloc, scope, left_asked(left, *op, want), a.get())?;
            let beside = asked(left, right, *op, want, &s);
            type_right(alloc, scope, beside, b.get(), s, *op, *at)
        }
        Expr::Index(a, i, at) => {
            let s = type_expr(alloc, scope, unasked(), a.get())?;
            type_index(alloc, scope, s, i.get(), *at)
        }
        Expr::Slice(a, i, count, at) => {
            let s = type_expr(alloc, scope, unasked(), a.get())?;
            type_slice(alloc, scope, s, i.get(), *count, *at)
        }
        Expr::Part(a, name, _, at) => type_part(alloc, scope, name, a.get(), *at),
        Expr::Call(f, _, es) => type_application(alloc, scope, f, es.as_slice()),
        Expr::Array(parts, at) => type_array(alloc, scope, want, parts.as_slice(), *at),
        Expr::Convert(to, inner, at) => type_convert(alloc, scope, *to, inner.get(), *at),
        Expr::Complex(to, x, y, at) => {
            let s = type_expr(alloc, scope, unasked(), x.get())?;
            type_imaginary(alloc, scope, s, y.get(), *to, *at)
        }
    }
}

/// The literal of a `-` before an INT, where these are one.
fn type_negative(
    alloc: Global,
    want: Want<'_>,
    inner: &Expr,
    op: Prefix,
    at: Place,
) -> Option<Result<Typed, TypeError>>
    ensures { MatchOption result (negating op (number_in inner.now) ≡ None) (λ made. (w : Walk Typed) →
        Told (prefix_walk (negating op (number_in inner.now)) op (asked_ty want.entry) at w) made) }
{
    match negates(op, inner) {
        None => None,
        Some(n) => Some(minus_int(alloc, literal_type(want), n, at)),
    }
}

/// A prefix before an operand.
#[cycle(walk)]
fn type_unary(
    alloc: Global,
    scope: &Scope,
    want: Want<'_>,
    inner: &Expr,
    op: Prefix,
    at: Place,
) -> Result<Typed, TypeError>
    ensures { Told (prefix_walk (negating op (number_in inner.now)) op (asked_ty want.entry) at
        (walk scope.now (keeping (signing op && literal inner.now) (asked_ty want.entry)) inner.now)) result }
{
    match type_negative(alloc, want, inner, op, at) {
        Some(made) => made,
        None => {
            let t = type_expr(alloc, scope, operand_asked(op, want, inner), inner)?;
            prefixed(alloc, op, at, t)
        }
    }
}

/// A literal on the left of a side that is none, which has been typed.
#[cycle(walk)]
fn type_left(
    alloc: Global,
    scope: &Scope,
    t: Typed,
    a: &Expr,
    op: Operator,
    at: Place,
) -> Result<Typed, TypeError>
    ensures { Told (and_then (walk scope.now (lending t) a.now) (λ s. join_walk op at s t)) result }
{
    let s = type_expr(alloc, scope, lent(&t), a)?;
    joined(alloc, op, at, s, t)
}

/// The right side of an operator, where this is asked of it, behind a left side that has been typed.
#[cycle(walk)]
fn type_right(
    alloc: Global,
    scope: &Scope,
    want: Want<'_>,
    b: &Expr,
    s: Typed,
    op: Operator,
    at: Place,
) -> Result<Typed, TypeError>
    ensures { Told (and_then (walk scope.now (asked_ty want.entry) b.now) (join_walk op at s)) result }
{
    let t = type_expr(alloc, scope, want, b)?;
    joined(alloc, op, at, s, t)
}

/// The index of an array that has been typed.
#[cycle(walk)]
fn type_index(
    alloc: Global,
    scope: &Scope,
    s: Typed,
    i: &Expr,
    at: Place,
) -> Result<Typed, TypeError>
    ensures { Told (and_then (walk scope.now nothing_asked i.now) (index_walk at s)) result }
{
    let t = type_expr(alloc, scope, unasked(), i)?;
    indexed(alloc, at, s, t)
}

/// The index of a slice of an array that has been typed.
#[cycle(walk)]
fn type_slice(
    alloc: Global,
    scope: &Scope,
    s: Typed,
    i: &Expr,
    count: u64,
    at: Place,
) -> Result<Typed, TypeError>
    ensures { Told (and_then (walk scope.now nothing_asked i.now) (slice_walk count at s)) result }
{
    let t = type_expr(alloc, scope, unasked(), i)?;
    sliced(alloc, count, at, s, t)
}

/// The imaginary part of a complex number whose real part has been typed.
#[cycle(walk)]
fn type_imaginary(
    alloc: Global,
    scope: &Scope,
    s: Typed,
    y: &Expr,
    to: Base,
    at: Place,
) -> Result<Typed, TypeError>
    ensures { Told (and_then (walk scope.now nothing_asked y.now) (pair_walk to at s)) result }
{
    let t = type_expr(alloc, scope, unasked(), y)?;
    paired(alloc, to, at, s, t)
}

/// A part of a value.
#[cycle(walk)]
fn type_part(
    alloc: Global,
    scope: &Scope,
    name: &Name,
    a: &Expr,
    at: Place,
) -> Result<Typed, TypeError>
    ensures { Told (and_then (walk scope.now nothing_asked a.now) (part_walk scope.now name.now at)) result }
{
    let s = type_expr(alloc, scope, unasked(), a)?;
    selected(alloc, scope, name, at, s)
}

/// A call of a function or a struct.
#[cycle(walk)]
fn type_application(
    alloc: Global,
    scope: &Scope,
    f: &Ident,
    es: &[Expr],
) -> Result<Typed, TypeError>
    ensures { Told (call_walk (called_in scope.now f.now.id) f.now (λ asks. args_of scope.now asks no_args es.now)) result }
{
    match scope.called(alloc, f.id)? {
        None => Err(TypeError::Mismatch(f.at)),
        Some(callee) => {
            let ts = type_args(alloc, scope, callee.params.as_slice(), es)?;
            called(alloc, f, callee, ts)
        }
    }
}

/// An array literal, where this is asked of it.
#[cycle(walk)]
fn type_array(
    alloc: Global,
    scope: &Scope,
    want: Want<'_>,
    parts: &[Expr],
    at: Place,
) -> Result<Typed, TypeError>
    ensures { Told (and_then (args_of scope.now (Alike (element_asking (asked_ty want.entry))) no_args parts.now) (array_walk at)) result }
{
    let ts = type_alike(alloc, scope, element_asked(want), parts)?;
    gathered(alloc, at, ts)
}

/// A conversion of one part.
#[cycle(walk)]
fn type_convert(
    alloc: Global,
    scope: &Scope,
    to: Base,
    inner: &Expr,
    at: Place,
) -> Result<Typed, TypeError>
    ensures { Told (and_then (walk scope.now (wanting (scalar_ty to)) inner.now) (convert_walk to at)) result }
{
    let t = type_expr(alloc, scope, wanted_base(to), inner)?;
    converted(alloc, to, at, t)
}

/// Arguments with their types, each where its parameter's type is wanted.
#[cycle(walk)]
pub fn type_args(
    alloc: Global,
    scope: &Scope,
    params: &[Ty],
    es: &[Expr],
) -> Result<Args, TypeError>
    ensures { Told (args_of scope.now (InTurn params.now) no_args es.now) result }
{
    let mut args = Args {
        whats: Items::new(alloc),
        types: Items::new(alloc),
    };
    let mut rest = params;
    for e in es {
        let t = type_expr(alloc, scope, param_asks(rest), e)?;
        args.whats.push(t.what)?;
        args.types.push(t.ty)?;
        rest = params_after(rest);
    }
    Ok(args)
}

/// The elements of an array literal with their types, where this is asked of each.
#[cycle(walk)]
fn type_alike(alloc: Global, scope: &Scope, want: Want<'_>, es: &[Expr]) -> Result<Args, TypeError>
    ensures { Told (args_of scope.now (Alike (asked_ty want.entry)) no_args es.now) result }
{
    let mut args = Args {
        whats: Items::new(alloc),
        types: Items::new(alloc),
    };
    for e in es {
        let t = type_expr(alloc, scope, want, e)?;
        args.whats.push(t.what)?;
        args.types.push(t.ty)?;
    }
    Ok(args)
}

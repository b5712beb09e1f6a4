// The names of expressions and types, which declare nothing.

ghost use Rattle.std.specs.Prelude.{◌≡◌};
ghost use Rattle.zir_names.specs.Walk.{Told, Fine, and_then};
ghost use Rattle.zir_names.specs.Scope.{resolved};
ghost use Rattle.zir_names.specs.Expressions.{each, maybe, type_of, expr};
ghost use Rattle.zir_names.specs.declared.scope.Need.TheVariants as need;

use crate::error::NameError;
use crate::scope::{Need, Scope};
use sqlite_items::{Boxed, Items};
use std::alloc::Global;
use zir_tree::expr::Expr;
use zir_tree::ident::Ident;
use zir_tree::name::Name;
use zir_tree::types::TypeExpr;

/// The struct that a type names, where it names one.
fn struct_of(alloc: Global, scope: &Scope, name: &Option<Ident>) -> Result<Option<Ident>, NameError>
    ensures { Told (maybe (resolved need.Type scope.now) name.now) result }
{
    match name {
        None => Ok(None),
        Some(x) => {
            let x = scope.resolve(alloc, Need::Type, x)?;
            Ok(Some(x))
        }
    }
}

/// A type with its struct's number.
pub fn resolve_type(alloc: Global, scope: &Scope, ty: &TypeExpr) -> Result<TypeExpr, NameError>
    ensures { Told (type_of scope.now ty.now) result }
{
    let name = struct_of(alloc, scope, &ty.name)?;
    let dimensions = Items::from_slice(alloc, ty.dimensions.as_slice())?;
    let base = ty.base;
    let at = ty.at;
    Ok(TypeExpr {
        dimensions,
        base,
        name,
        at,
    })
}

/// An expression with its names' numbers.
#[cycle(expressions)]
pub fn resolve_expr(alloc: Global, scope: &Scope, e: &Expr) -> Result<Expr, NameError>
    ensures { Told (expr scope.now e.now) result }
{
    match e {
        Expr::Unit(at) => Ok(Expr::Unit(*at)),
        Expr::Bit(bit, at) => Ok(Expr::Bit(*bit, *at)),
        Expr::Bool(truth, at) => Ok(Expr::Bool(*truth, *at)),
        Expr::Int(n, base, at) => Ok(Expr::Int(*n, *base, *at)),
        Expr::Variable(x) => {
            let x = scope.resolve(alloc, Need::Value, x)?;
            Ok(Expr::Variable(x))
        }
        Expr::Unary(op, base, inner, at) => {
            let inner = resolve_boxed(alloc, scope, inner.get())?;
            Ok(Expr::Unary(*op, *base, inner, *at))
        }
        Expr::Binary(op, base, a, b, at) => {
            let a = resolve_boxed(alloc, scope, a.get())?;
            let b = resolve_boxed(alloc, scope, b.get())?;
            Ok(Expr::Binary(*op, *base, a, b, *at))
        }
        Expr::Index(a, i, at) => {
            let a = resolve_boxed(alloc, scope, a.get())?;
            let i = resolve_boxed(alloc, scope, i.get())?;
            Ok(Expr::Index(a, i, *at))
        }
        Expr::Slice(a, i, n, at) => {
            let a = resolve_boxed(alloc, scope, a.get())?;
            let i = resolve_boxed(alloc, scope, i.get())?;
            Ok(Expr::Slice(a, i, *n, *at))
        }
        Expr::Part(inner, field, n, at) => {
            let inner = resolve_boxed(alloc, scope, inner.get())?;
            let field = Name::from_slice(alloc, field.as_slice())?;
            Ok(Expr::Part(inner, field, *n, *at))
        }
        Expr::Call(f, callee, args) => {
            let f = scope.resolve(alloc, Need::Call, f)?;
            let args = resolve_exprs(alloc, scope, args.as_slice())?;
            Ok(Expr::Call(f, *callee, args))
        }
        Expr::Array(parts, at) => {
            let parts = resolve_exprs(alloc, scope, parts.as_slice())?;
            Ok(Expr::Array(parts, *at))
        }
        Expr::Convert(base, inner, at) => {
            let inner = resolve_boxed(alloc, scope, inner.get())?;
            Ok(Expr::Convert(*base, inner, *at))
        }
        Expr::Complex(base, a, b, at) => {
            let a = resolve_boxed(alloc, scope, a.get())?;
            let b = resolve_boxed(alloc, scope, b.get())?;
            Ok(Expr::Complex(*base, a, b, *at))
        }
    }
}

/// An expression in a box of its own.
#[cycle(expressions)]
fn resolve_boxed(alloc: Global, scope: &Scope, e: &Expr) -> Result<Boxed<Expr>, NameError>
    ensures { Told (expr scope.now e.now) result }
{
    let made = resolve_expr(alloc, scope, e)?;
    Ok(Boxed::new(alloc, made)?)
}

/// Expressions one after the other.
#[cycle(expressions)]
pub fn resolve_exprs(alloc: Global, scope: &Scope, es: &[Expr]) -> Result<Items<Expr>, NameError>
    ensures { Told (each (expr scope.now) es.now) result }
{
    let mut made = Items::new(alloc);
    for e in es {
        let e = resolve_expr(alloc, scope, e)?;
        made.push(e)?;
    }
    Ok(made)
}

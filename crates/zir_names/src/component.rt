// The names of components.

ghost use Rattle.std.specs.Prelude.{◌≡◌};
ghost use Rattle.zir_names.specs.Scope.{ToldIn, closed};
ghost use Rattle.zir_names.specs.Statements.{in_turn};
ghost use Rattle.zir_names.specs.Components.{comp, member};

use crate::error::NameError;
use crate::expression::{resolve_expr, resolve_exprs};
use crate::scope::{Kind, Need, Scope};
use crate::statement::{open_index, resolve_body, resolve_var};
use sqlite_items::{Boxed, Items};
use std::alloc::Global;
use zir_tree::comp::{Comp, Member, Turning};
use zir_tree::expr::Expr;
use zir_tree::ident::Ident;
use zir_tree::place::Place;
use zir_tree::stmt::{Body, Var};

/// `emit e`.
fn resolve_emit(alloc: Global, scope: &Scope, e: &Expr, at: Place) -> Result<Comp, NameError>
    ensures { ToldIn (comp scope.now (Comp.Emit e.now at)) result scope.now }
{
    let e = resolve_expr(alloc, scope, e)?;
    Ok(Comp::Emit(e, at))
}

/// `emits e`.
fn resolve_emits(alloc: Global, scope: &Scope, e: &Expr, at: Place) -> Result<Comp, NameError>
    ensures { ToldIn (comp scope.now (Comp.Emits e.now at)) result scope.now }
{
    let e = resolve_expr(alloc, scope, e)?;
    Ok(Comp::Emits(e, at))
}

/// `return e`.
fn resolve_return(alloc: Global, scope: &Scope, e: &Expr, at: Place) -> Result<Comp, NameError>
    ensures { ToldIn (comp scope.now (Comp.Return e.now at)) result scope.now }
{
    let e = resolve_expr(alloc, scope, e)?;
    Ok(Comp::Return(e, at))
}

/// `do { .. }`.
fn resolve_do(alloc: Global, scope: &mut Scope, body: &Body, at: Place) -> Result<Comp, NameError>
    ensures { ToldIn (comp scope.old (Comp.Do body.now at)) result scope.new }
{
    let body = resolve_body(alloc, scope, body)?;
    Ok(Comp::Do(body, at))
}

/// `map f`.
fn resolve_map(
    alloc: Global,
    scope: &Scope,
    f: &Ident,
    n: u32,
    at: Place,
) -> Result<Comp, NameError>
    ensures { ToldIn (comp scope.now (Comp.Map f.now n at)) result scope.now }
{
    let f = scope.resolve(alloc, Need::Mapped, f)?;
    Ok(Comp::Map(f, n, at))
}

/// `filter f`.
fn resolve_filter(
    alloc: Global,
    scope: &Scope,
    f: &Ident,
    n: u32,
    at: Place,
) -> Result<Comp, NameError>
    ensures { ToldIn (comp scope.now (Comp.Filter f.now n at)) result scope.now }
{
    let f = scope.resolve(alloc, Need::Mapped, f)?;
    Ok(Comp::Filter(f, n, at))
}

/// A call of a `fun comp`.
fn resolve_call(
    alloc: Global,
    scope: &Scope,
    f: &Ident,
    n: u32,
    args: &[Expr],
) -> Result<Comp, NameError>
    ensures { ToldIn (comp scope.now (Comp.Call f.now n args.now)) result scope.now }
{
    let f = scope.resolve(alloc, Need::Component, f)?;
    let args = resolve_exprs(alloc, scope, args)?;
    Ok(Comp::Call(f, n, args))
}

/// A component.
#[cycle(components)]
pub fn resolve_comp(alloc: Global, scope: &mut Scope, c: &Comp) -> Result<Comp, NameError>
    ensures { ToldIn (comp scope.old c.now) result scope.new }
{
    match c {
        Comp::Take(at) => Ok(Comp::Take(*at)),
        Comp::Takes(n, at) => Ok(Comp::Takes(*n, *at)),
        Comp::Emit(e, at) => resolve_emit(alloc, scope, e, *at),
        Comp::Emits(e, at) => resolve_emits(alloc, scope, e, *at),
        Comp::Return(e, at) => resolve_return(alloc, scope, e, *at),
        Comp::Do(body, at) => resolve_do(alloc, scope, body, *at),
        Comp::Repeat(inner, at) => resolve_repeat(alloc, scope, inner.get(), *at),
        Comp::While(turning, e, inner, at) => resolve_while(
            alloc,
            scope,
            inner.get(),
            *turning,
            e,
            *at,
        ),
        Comp::Times(e, inner, at) => resolve_times(alloc, scope, inner.get(), e, *at),
        Comp::For(x, a, n, inner, at) => resolve_for(alloc, scope, inner.get(), x, a, n, *at),
        Comp::If(e, inner, other, at) => {
            let e = resolve_expr(alloc, scope, e)?;
            let inner = resolve_part(alloc, scope, inner.get())?;
            let other = resolve_part(alloc, scope, other.get())?;
            Ok(Comp::If(e, inner, other, *at))
        }
        Comp::Map(f, n, at) => resolve_map(alloc, scope, f, *n, *at),
        Comp::Filter(f, n, at) => resolve_filter(alloc, scope, f, *n, *at),
        Comp::Call(f, n, args) => resolve_call(alloc, scope, f, *n, args.as_slice()),
        Comp::Block(members, at) => resolve_block(alloc, scope, members.as_slice(), *at),
        Comp::Pipe(link, left, right, at) => {
            let left = resolve_part(alloc, scope, left.get())?;
            let right = resolve_part(alloc, scope, right.get())?;
            Ok(Comp::Pipe(*link, left, right, *at))
        }
    }
}

/// A component in a box of its own.
#[cycle(components)]
pub fn resolve_part(alloc: Global, scope: &mut Scope, c: &Comp) -> Result<Boxed<Comp>, NameError>
    ensures { ToldIn (comp scope.old c.now) result scope.new }
{
    let made = resolve_comp(alloc, scope, c)?;
    Ok(Boxed::new(alloc, made)?)
}

/// `repeat c`.
#[cycle(components)]
fn resolve_repeat(
    alloc: Global,
    scope: &mut Scope,
    inner: &Comp,
    at: Place,
) -> Result<Comp, NameError>
    ensures { ToldIn (comp scope.old (Comp.Repeat inner.now at)) result scope.new }
{
    let inner = resolve_part(alloc, scope, inner)?;
    Ok(Comp::Repeat(inner, at))
}

/// `while (e) c` and `until (e) c`.
#[cycle(components)]
fn resolve_while(
    alloc: Global,
    scope: &mut Scope,
    inner: &Comp,
    turning: Turning,
    e: &Expr,
    at: Place,
) -> Result<Comp, NameError>
    ensures { ToldIn (comp scope.old (Comp.While turning e.now inner.now at)) result scope.new }
{
    let e = resolve_expr(alloc, scope, e)?;
    let inner = resolve_part(alloc, scope, inner)?;
    Ok(Comp::While(turning, e, inner, at))
}

/// `times (e) c`.
#[cycle(components)]
fn resolve_times(
    alloc: Global,
    scope: &mut Scope,
    inner: &Comp,
    e: &Expr,
    at: Place,
) -> Result<Comp, NameError>
    ensures { ToldIn (comp scope.old (Comp.Times e.now inner.now at)) result scope.new }
{
    let e = resolve_expr(alloc, scope, e)?;
    let inner = resolve_part(alloc, scope, inner)?;
    Ok(Comp::Times(e, inner, at))
}

/// `for x in [a, n] c`, whose index is in scope in its body.
#[cycle(components)]
fn resolve_for(
    alloc: Global,
    scope: &mut Scope,
    inner: &Comp,
    x: &Ident,
    a: &Expr,
    n: &Expr,
    at: Place,
) -> Result<Comp, NameError>
    ensures { ToldIn (comp scope.old (Comp.For x.now a.now n.now inner.now at)) result scope.new }
{
    let a = resolve_expr(alloc, scope, a)?;
    let n = resolve_expr(alloc, scope, n)?;
    let before = scope.len();
    let x = open_index(alloc, scope, x)?;
    let inner = resolve_part(alloc, scope, inner)?;
    scope.leave(before);
    Ok(Comp::For(x, a, n, inner, at))
}

/// A block.
#[cycle(components)]
fn resolve_block(
    alloc: Global,
    scope: &mut Scope,
    ms: &[Member],
    at: Place,
) -> Result<Comp, NameError>
    ensures { ToldIn (comp scope.old (Comp.Block ms.now at)) result scope.new }
{
    let before = scope.len();
    let members = resolve_members(alloc, scope, ms)?;
    scope.leave(before);
    Ok(Comp::Block(members, at))
}

/// A variable as a member.
fn resolve_var_member(alloc: Global, scope: &mut Scope, v: &Var) -> Result<Member, NameError>
    ensures { ToldIn (member scope.old (Member.Var v.now)) result scope.new }
{
    let v = resolve_var(alloc, scope, v)?;
    Ok(Member::Var(v))
}

/// `x <- c`, whose name is in scope behind it.
#[cycle(components)]
fn resolve_bind(alloc: Global, scope: &mut Scope, c: &Comp, x: &Ident) -> Result<Member, NameError>
    ensures { ToldIn (member scope.old (Member.Bind x.now c.now)) result scope.new }
{
    let x = scope.number(alloc, x)?;
    let c = resolve_part(alloc, scope, c)?;
    scope.open(alloc, Kind::Fixed, &x)?;
    let c = c.into_inner();
    Ok(Member::Bind(x, c))
}

/// A member of a block.
#[cycle(components)]
fn resolve_member(alloc: Global, scope: &mut Scope, m: &Member) -> Result<Member, NameError>
    ensures { ToldIn (member scope.old m.now) result scope.new }
{
    match m {
        Member::Bind(x, c) => resolve_bind(alloc, scope, c, x),
        Member::Var(v) => resolve_var_member(alloc, scope, v),
        Member::Run(c) => {
            let c = resolve_comp(alloc, scope, c)?;
            Ok(Member::Run(c))
        }
    }
}

/// Members one after the other.
#[cycle(components)]
fn resolve_members(
    alloc: Global,
    scope: &mut Scope,
    ms: &[Member],
) -> Result<Items<Member>, NameError>
    ensures { ToldIn (in_turn member scope.old ms.now) result scope.new }
{
    let mut made = Items::new(alloc);
    for m in ms {
        let m = resolve_member(alloc, scope, m)?;
        made.push(m)?;
    }
    Ok(made)
}

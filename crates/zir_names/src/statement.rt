// The names of statements.

ghost use Rattle.std.specs.Prelude.{◌≡◌, IfOk, IfErr, OnOk};
ghost use Rattle.zir_names.specs.Walk.{Told, Fine, and_then};
ghost use Rattle.zir_names.specs.Scope.{ToldIn, done, closed, numbered};
ghost use Rattle.zir_names.specs.Expressions.{each, maybe, expr};
ghost use Rattle.zir_names.specs.Statements.{variable as variable_walk, access_of, indexed, stmt, in_turn, returned, body_of};

use crate::error::NameError;
use crate::expression::{resolve_expr, resolve_exprs, resolve_type};
use crate::scope::{Kind, Need, Scope};
use sqlite_items::Items;
use std::alloc::Global;
use zir_tree::expr::Expr;
use zir_tree::ident::Ident;
use zir_tree::name::Name;
use zir_tree::place::Place;
use zir_tree::stmt::{Access, Body, Return, Stmt, Var};

/// An initial value, where there is one.
fn resolve_initial(
    alloc: Global,
    scope: &Scope,
    initial: &Option<Expr>,
) -> Result<Option<Expr>, NameError>
    ensures { Told (maybe (expr scope.now) initial.now) result }
{
    match initial {
        None => Ok(None),
        Some(e) => {
            let e = resolve_expr(alloc, scope, e)?;
            Ok(Some(e))
        }
    }
}

/// A variable, which is in scope behind its declaration.
pub fn resolve_var(alloc: Global, scope: &mut Scope, v: &Var) -> Result<Var, NameError>
    ensures { ToldIn (variable_walk scope.old v.now) result scope.new }
{
    let ty = resolve_type(alloc, scope, &v.ty)?;
    let initial = resolve_initial(alloc, scope, &v.initial)?;
    let name = scope.number(alloc, &v.name)?;
    scope.open(alloc, Kind::Variable, &name)?;
    let at = v.at;
    Ok(Var {
        name,
        ty,
        initial,
        at,
    })
}

/// A step of a path.
fn resolve_access(alloc: Global, scope: &Scope, access: &Access) -> Result<Access, NameError>
    ensures { Told (access_of scope.now access.now) result }
{
    match access {
        Access::Index(i, at) => {
            let i = resolve_expr(alloc, scope, i)?;
            Ok(Access::Index(i, *at))
        }
        Access::Slice(i, n, at) => {
            let i = resolve_expr(alloc, scope, i)?;
            Ok(Access::Slice(i, *n, *at))
        }
        Access::Part(field, n, at) => {
            let field = Name::from_slice(alloc, field.as_slice())?;
            Ok(Access::Part(field, *n, *at))
        }
    }
}

/// A path.
fn resolve_path(alloc: Global, scope: &Scope, path: &[Access]) -> Result<Items<Access>, NameError>
    ensures { Told (each (access_of scope.now) path.now) result }
{
    let mut made = Items::new(alloc);
    for access in path {
        let access = resolve_access(alloc, scope, access)?;
        made.push(access)?;
    }
    Ok(made)
}

/// An index of a loop, which is in scope from here on.
pub fn open_index(alloc: Global, scope: &mut Scope, x: &Ident) -> Result<Ident, NameError>
    ensures made { IfOk result (λ y. y ≡ numbered scope.old x.now) }
    ensures seen { OnOk result (scope.new ≡ indexed scope.old x.now) }
    ensures err { IfErr result (λ e. e ≡ NameError.Memory) }
{
    let x = scope.number(alloc, x)?;
    scope.open(alloc, Kind::Fixed, &x)?;
    Ok(x)
}

/// A variable as a statement.
fn resolve_var_stmt(alloc: Global, scope: &mut Scope, v: &Var) -> Result<Stmt, NameError>
    ensures { ToldIn (stmt scope.old (Stmt.Var v.now)) result scope.new }
{
    let v = resolve_var(alloc, scope, v)?;
    Ok(Stmt::Var(v))
}

/// An assignment.
fn resolve_assign(
    alloc: Global,
    scope: &Scope,
    x: &Ident,
    path: &[Access],
    e: &Expr,
) -> Result<Stmt, NameError>
    ensures { ToldIn (stmt scope.now (Stmt.Assign x.now path.now e.now)) result scope.now }
{
    let x = scope.resolve(alloc, Need::Target, x)?;
    let path = resolve_path(alloc, scope, path)?;
    let e = resolve_expr(alloc, scope, e)?;
    Ok(Stmt::Assign(x, path, e))
}

/// A call.
fn resolve_call(
    alloc: Global,
    scope: &Scope,
    f: &Ident,
    n: u32,
    args: &[Expr],
) -> Result<Stmt, NameError>
    ensures { ToldIn (stmt scope.now (Stmt.Call f.now n args.now)) result scope.now }
{
    let f = scope.resolve(alloc, Need::Statement, f)?;
    let args = resolve_exprs(alloc, scope, args)?;
    Ok(Stmt::Call(f, n, args))
}

/// An `error`, which names nothing.
fn copy_error(alloc: Global, scope: &Scope, text: &Name, at: Place) -> Result<Stmt, NameError>
    ensures { ToldIn (stmt scope.now (Stmt.Error text.now at)) result scope.now }
{
    let _ = scope;
    let text = Name::from_slice(alloc, text.as_slice())?;
    Ok(Stmt::Error(text, at))
}

/// A statement.
#[cycle(statements)]
fn resolve_stmt(alloc: Global, scope: &mut Scope, s: &Stmt) -> Result<Stmt, NameError>
    ensures { ToldIn (stmt scope.old s.now) result scope.new }
{
    match s {
        Stmt::Var(v) => resolve_var_stmt(alloc, scope, v),
        Stmt::Assign(x, path, e) => resolve_assign(alloc, scope, x, path.as_slice(), e),
        Stmt::Call(f, n, args) => resolve_call(alloc, scope, f, *n, args.as_slice()),
        Stmt::Error(text, at) => copy_error(alloc, scope, text, *at),
        Stmt::If(e, body, at) => resolve_if(alloc, scope, body.as_slice(), e, *at),
        Stmt::IfElse(e, body, other, at) => {
            let e = resolve_expr(alloc, scope, e)?;
            let body = resolve_block(alloc, scope, body.as_slice())?;
            let other = resolve_block(alloc, scope, other.as_slice())?;
            Ok(Stmt::IfElse(e, body, other, *at))
        }
        Stmt::While(e, body, at) => resolve_while(alloc, scope, body.as_slice(), e, *at),
        Stmt::For(x, a, n, body, at) => resolve_for(alloc, scope, body.as_slice(), x, a, n, *at),
    }
}

/// `if e then { .. }`.
#[cycle(statements)]
fn resolve_if(
    alloc: Global,
    scope: &mut Scope,
    body: &[Stmt],
    e: &Expr,
    at: Place,
) -> Result<Stmt, NameError>
    ensures { ToldIn (stmt scope.old (Stmt.If e.now body.now at)) result scope.new }
{
    let e = resolve_expr(alloc, scope, e)?;
    let body = resolve_block(alloc, scope, body)?;
    Ok(Stmt::If(e, body, at))
}

/// `while (e) { .. }`.
#[cycle(statements)]
fn resolve_while(
    alloc: Global,
    scope: &mut Scope,
    body: &[Stmt],
    e: &Expr,
    at: Place,
) -> Result<Stmt, NameError>
    ensures { ToldIn (stmt scope.old (Stmt.While e.now body.now at)) result scope.new }
{
    let e = resolve_expr(alloc, scope, e)?;
    let body = resolve_block(alloc, scope, body)?;
    Ok(Stmt::While(e, body, at))
}

/// `for x in [a, n] { .. }`, whose index is in scope in its body.
#[cycle(statements)]
fn resolve_for(
    alloc: Global,
    scope: &mut Scope,
    body: &[Stmt],
    x: &Ident,
    a: &Expr,
    n: &Expr,
    at: Place,
) -> Result<Stmt, NameError>
    ensures { ToldIn (stmt scope.old (Stmt.For x.now a.now n.now body.now at)) result scope.new }
{
    let a = resolve_expr(alloc, scope, a)?;
    let n = resolve_expr(alloc, scope, n)?;
    let before = scope.len();
    let x = open_index(alloc, scope, x)?;
    let body = resolve_stmts(alloc, scope, body)?;
    scope.leave(before);
    Ok(Stmt::For(x, a, n, body, at))
}

/// Statements in braces.
#[cycle(statements)]
fn resolve_block(alloc: Global, scope: &mut Scope, ss: &[Stmt]) -> Result<Items<Stmt>, NameError>
    ensures { ToldIn (closed scope.old (in_turn stmt scope.old ss.now)) result scope.new }
{
    let before = scope.len();
    let made = resolve_stmts(alloc, scope, ss)?;
    scope.leave(before);
    Ok(made)
}

/// Statements one after the other.
#[cycle(statements)]
fn resolve_stmts(alloc: Global, scope: &mut Scope, ss: &[Stmt]) -> Result<Items<Stmt>, NameError>
    ensures { ToldIn (in_turn stmt scope.old ss.now) result scope.new }
{
    let mut made = Items::new(alloc);
    for s in ss {
        let s = resolve_stmt(alloc, scope, s)?;
        made.push(s)?;
    }
    Ok(made)
}

/// A `return`, where there is one.
fn resolve_return(
    alloc: Global,
    scope: &Scope,
    result_: &Option<Return>,
) -> Result<Option<Return>, NameError>
    ensures { Told (maybe (returned scope.now) result_.now) result }
{
    match result_ {
        None => Ok(None),
        Some(r) => {
            let value = resolve_expr(alloc, scope, &r.value)?;
            let at = r.at;
            Ok(Some(Return { value, at }))
        }
    }
}

/// The statements of a body, and what it returns.
pub fn resolve_body(alloc: Global, scope: &mut Scope, body: &Body) -> Result<Body, NameError>
    ensures { ToldIn (body_of scope.old body.now) result scope.new }
{
    let before = scope.len();
    let statements = resolve_stmts(alloc, scope, body.statements.as_slice())?;
    let result = resolve_return(alloc, scope, &body.result)?;
    scope.leave(before);
    Ok(Body { statements, result })
}

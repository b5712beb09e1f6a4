// The types of statements and of what they declare.

ghost use Rattle.std.specs.Prelude.{◌≡◌, ◌++◌, ◌∷◌, [], OnOk};
ghost use Rattle.zir_types.specs.Scope.{declare as declaring};
ghost use Rattle.zir_types.specs.Walk.{Told};
ghost use Rattle.zir_types.specs.Statements.{initial as initial_walk, var as var_walk, path as path_walk, stmt as stmt_walk, stmts_of};
ghost use Rattle.zir_type_bodies.specs.Sequences.{ToldIn, access_step, block};

use crate::rules::{
    assigned, call_step, declared, enter, enter_index, error_step, for_step, if_else_step, if_step,
    index_step, of_type, part_step, root, slice_step, while_step,
};
use sqlite_items::Items;
use std::alloc::{AllocError, Global};
use zir_tree::expr::Expr;
use zir_tree::ident::Ident;
use zir_tree::place::Place;
use zir_tree::stmt::{Access, Stmt, Var};
use zir_tree::types::Ty;
use zir_type_expressions::expression::{type_args, type_expr};
use zir_types::error::TypeError;
use zir_types::scope::{Scope, copy_ident};
use zir_types::typed::{Path, Step, TypedVar};
use zir_types::wants::{unasked, wanted};

/// An initial value, where there is one, for a variable of this type at this place.
fn type_initial(
    alloc: Global,
    scope: &Scope,
    ty: &Ty,
    at: Place,
    initial: &Option<Expr>,
) -> Result<Option<Expr>, TypeError>
    ensures { Told (initial_walk scope.now ty.now at initial.now) result }
{
    match initial {
        None => Ok(None),
        Some(e) => {
            let x = type_expr(alloc, scope, wanted(ty), e)?;
            of_type(ty, at, x)
        }
    }
}

/// The declaration of a variable with its type. It is not in scope yet: what `seen_var` makes of it is.
pub fn type_var(alloc: Global, scope: &Scope, v: &Var) -> Result<TypedVar, TypeError>
    ensures { Told (var_walk scope.now v.now) result }
{
    let written = scope.written(alloc, &v.ty)?;
    let initial = type_initial(alloc, scope, &written.ty, v.at, &v.initial)?;
    let name = copy_ident(alloc, &v.name)?;
    let at = v.at;
    Ok(TypedVar {
        what: Var {
            name,
            ty: written.what,
            initial,
            at,
        },
        ty: written.ty,
    })
}

/// A step of a path.
fn type_access(alloc: Global, scope: &Scope, path: Path, access: &Access) -> Result<Path, TypeError>
    ensures { Told (access_step scope.now path access.now) result }
{
    match access {
        Access::Index(e, at) => {
            let t = type_expr(alloc, scope, unasked(), e)?;
            index_step(alloc, *at, path, t)
        }
        Access::Slice(e, count, at) => {
            let t = type_expr(alloc, scope, unasked(), e)?;
            slice_step(alloc, *count, *at, path, t)
        }
        Access::Part(name, _, at) => part_step(alloc, scope, name, *at, path),
    }
}

/// The steps of a path from its root on.
fn type_path(alloc: Global, scope: &Scope, start: Path, steps: &[Access]) -> Result<Path, TypeError>
    ensures { Told (path_walk scope.now start steps.now) result }
{
    let mut path = start;
    for access in steps {
        path = type_access(alloc, scope, path, access)?;
    }
    Ok(path)
}

/// A variable as a statement.
fn type_declaration(alloc: Global, scope: &Scope, v: &Var) -> Result<Step, TypeError>
    ensures { Told (stmt_walk scope.now (Stmt.Var v.now)) result }
{
    let v = type_var(alloc, scope, v)?;
    declared(alloc, v)
}

/// An assignment.
fn type_assign(
    alloc: Global,
    scope: &Scope,
    x: &Ident,
    steps: &[Access],
    e: &Expr,
) -> Result<Step, TypeError>
    ensures { Told (stmt_walk scope.now (Stmt.Assign x.now steps.now e.now)) result }
{
    let start = root(alloc, scope, x)?;
    let to = type_path(alloc, scope, start, steps)?;
    let t = type_expr(alloc, scope, wanted(&to.ty), e)?;
    assigned(alloc, x, to, t)
}

/// A call statement, whose place among the functions was `n`.
fn type_call(
    alloc: Global,
    scope: &Scope,
    f: &Ident,
    n: u32,
    es: &[Expr],
) -> Result<Step, TypeError>
    ensures { Told (stmt_walk scope.now (Stmt.Call f.now n es.now)) result }
{
    let _ = n;
    match scope.function(f.id)? {
        None => Err(TypeError::Mismatch(f.at)),
        Some(callee) => {
            let args = type_args(alloc, scope, callee.signature.params.as_slice(), es)?;
            call_step(alloc, f, callee, args)
        }
    }
}

/// A statement with its types, and what it brings into scope behind it.
#[cycle(statements)]
pub fn type_stmt(alloc: Global, scope: &mut Scope, s: &Stmt) -> Result<Step, TypeError>
    ensures told { Told (stmt_walk scope.old s.now) result }
    ensures seen { OnOk result (scope.new ≡ scope.old) }
{
    match s {
        Stmt::Var(v) => type_declaration(alloc, scope, v),
        Stmt::Assign(x, steps, e) => type_assign(alloc, scope, x, steps.as_slice(), e),
        Stmt::Call(f, n, es) => type_call(alloc, scope, f, *n, es.as_slice()),
        Stmt::Error(text, at) => {
            let step = error_step(alloc, text, *at)?;
            Ok(step)
        }
        Stmt::If(e, thens, at) => type_if(alloc, scope, thens.as_slice(), e, *at),
        Stmt::IfElse(e, thens, elses, at) => {
            let e = type_expr(alloc, scope, unasked(), e)?;
            let thens = type_block(alloc, scope, thens.as_slice())?;
            let elses = type_block(alloc, scope, elses.as_slice())?;
            if_else_step(alloc, *at, e, thens, elses)
        }
        Stmt::While(e, body, at) => type_while(alloc, scope, body.as_slice(), e, *at),
        Stmt::For(x, a, n, body, at) => type_for(alloc, scope, body.as_slice(), x, a, n, *at),
    }
}

/// `if e then { .. }`.
#[cycle(statements)]
fn type_if(
    alloc: Global,
    scope: &mut Scope,
    thens: &[Stmt],
    e: &Expr,
    at: Place,
) -> Result<Step, TypeError>
    ensures told { Told (stmt_walk scope.old (Stmt.If e.now thens.now at)) result }
    ensures seen { OnOk result (scope.new ≡ scope.old) }
{
    let t = type_expr(alloc, scope, unasked(), e)?;
    let thens = type_block(alloc, scope, thens)?;
    if_step(alloc, at, t, thens)
}

/// `while (e) { .. }`.
#[cycle(statements)]
fn type_while(
    alloc: Global,
    scope: &mut Scope,
    body: &[Stmt],
    e: &Expr,
    at: Place,
) -> Result<Step, TypeError>
    ensures told { Told (stmt_walk scope.old (Stmt.While e.now body.now at)) result }
    ensures seen { OnOk result (scope.new ≡ scope.old) }
{
    let t = type_expr(alloc, scope, unasked(), e)?;
    let body = type_block(alloc, scope, body)?;
    while_step(alloc, at, t, body)
}

/// `for x in [a, n] { .. }`, whose index is in scope in its body.
#[cycle(statements)]
fn type_for(
    alloc: Global,
    scope: &mut Scope,
    body: &[Stmt],
    x: &Ident,
    a: &Expr,
    n: &Expr,
    at: Place,
) -> Result<Step, TypeError>
    ensures told { Told (stmt_walk scope.old (Stmt.For x.now a.now n.now body.now at)) result }
    ensures seen { OnOk result (scope.new ≡ scope.old) }
{
    let first = type_expr(alloc, scope, unasked(), a)?;
    let turns = type_expr(alloc, scope, unasked(), n)?;
    let before = scope.depth();
    enter_index(alloc, scope, x)?;
    let body = type_block(alloc, scope, body)?;
    scope.leave(before);
    for_step(alloc, x, at, first, turns, body)
}

/// Statements in braces, which bring nothing into scope behind them.
#[cycle(statements)]
fn type_block(alloc: Global, scope: &mut Scope, ss: &[Stmt]) -> Result<Items<Stmt>, TypeError>
    ensures told { Told (block scope.old ss.now) result }
    ensures seen { OnOk result (scope.new ≡ scope.old) }
{
    let before = scope.depth();
    let made = type_sequence(alloc, scope, ss)?;
    scope.leave(before);
    Ok(made)
}

/// A statement behind these, and what it brings into scope.
fn keep_step(
    alloc: Global,
    scope: &mut Scope,
    made: &mut Items<Stmt>,
    step: Step,
) -> Result<(), AllocError>
    ensures seen { OnOk result (scope.new ≡ declaring step.declares scope.old) }
    ensures kept { OnOk result (made.new ≡ made.old ++ step.what ∷ []) }
{
    let Step { what, declares } = step;
    enter(alloc, scope, declares.as_slice())?;
    made.push(what)?;
    Ok(())
}

/// Statements one after the other, with what they bring into scope.
#[cycle(statements)]
pub fn type_sequence(
    alloc: Global,
    scope: &mut Scope,
    ss: &[Stmt],
) -> Result<Items<Stmt>, TypeError>
    ensures { ToldIn (stmts_of scope.old [] ss.now) result scope.new }
{
    let mut made = Items::new(alloc);
    for s in ss {
        let step = type_stmt(alloc, scope, s)?;
        keep_step(alloc, scope, &mut made, step)?;
    }
    Ok(made)
}

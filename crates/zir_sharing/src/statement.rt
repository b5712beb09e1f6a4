// What statements touch.

ghost use Rattle.std.specs.Prelude.{◌≡◌, OnOk};
ghost use Rattle.zir_names.specs.Touched.{both, all_of, maybe_of, in_expr, in_var, in_access, in_stmt, in_return, in_body};

use crate::expression::{touch_call, touch_expr, touch_exprs};
use crate::functions::Functions;
use crate::touched::Touched;
use std::alloc::AllocError;
use zir_tree::expr::Expr;
use zir_tree::stmt::{Access, Body, Return, Stmt, Var};

/// What an initial value touches, where there is one.
fn touch_initial(
    functions: &Functions,
    initial: &Option<Expr>,
    touched: &mut Touched,
) -> Result<(), AllocError>
    ensures { OnOk result (touched.new ≡ both (maybe_of (in_expr functions.now) initial.now) touched.old) }
{
    match initial {
        None => Ok(()),
        Some(e) => touch_expr(functions, e, touched),
    }
}

/// What the declaration of a variable touches.
pub fn touch_var(functions: &Functions, v: &Var, touched: &mut Touched) -> Result<(), AllocError>
    ensures { OnOk result (touched.new ≡ both (in_var functions.now v.now) touched.old) }
{
    touched.declare(&v.name)?;
    touch_initial(functions, &v.initial, touched)
}

/// What a step of a path touches.
fn touch_access(
    functions: &Functions,
    access: &Access,
    touched: &mut Touched,
) -> Result<(), AllocError>
    ensures { OnOk result (touched.new ≡ both (in_access functions.now access.now) touched.old) }
{
    match access {
        Access::Index(i, _) => touch_expr(functions, i, touched),
        Access::Slice(i, _, _) => touch_expr(functions, i, touched),
        Access::Part(_, _, _) => Ok(()),
    }
}

/// What a path touches.
fn touch_path(
    functions: &Functions,
    path: &[Access],
    touched: &mut Touched,
) -> Result<(), AllocError>
    ensures { OnOk result (touched.new ≡ both (all_of (in_access functions.now) path.now) touched.old) }
{
    for access in path {
        touch_access(functions, access, touched)?;
    }
    Ok(())
}

/// What a statement touches.
#[cycle(statements)]
fn touch_stmt(functions: &Functions, s: &Stmt, touched: &mut Touched) -> Result<(), AllocError>
    ensures { OnOk result (touched.new ≡ both (in_stmt functions.now s.now) touched.old) }
{
    match s {
        Stmt::Var(v) => touch_var(functions, v, touched),
        Stmt::Assign(x, path, e) => {
            touched.assign(x)?;
            touch_path(functions, path.as_slice(), touched)?;
            touch_expr(functions, e, touched)
        }
        Stmt::Call(f, _, args) => {
            touch_call(functions, f, touched)?;
            touch_exprs(functions, args.as_slice(), touched)
        }
        Stmt::Error(_, _) => Ok(()),
        Stmt::If(e, body, _) => {
            touch_expr(functions, e, touched)?;
            touch_stmts(functions, body.as_slice(), touched)
        }
        Stmt::IfElse(e, body, other, _) => {
            touch_expr(functions, e, touched)?;
            touch_stmts(functions, body.as_slice(), touched)?;
            touch_stmts(functions, other.as_slice(), touched)
        }
        Stmt::While(e, body, _) => {
            touch_expr(functions, e, touched)?;
            touch_stmts(functions, body.as_slice(), touched)
        }
        Stmt::For(_, a, n, body, _) => {
            touch_expr(functions, a, touched)?;
            touch_expr(functions, n, touched)?;
            touch_stmts(functions, body.as_slice(), touched)
        }
    }
}

/// What statements touch.
#[cycle(statements)]
fn touch_stmts(functions: &Functions, ss: &[Stmt], touched: &mut Touched) -> Result<(), AllocError>
    ensures { OnOk result (touched.new ≡ both (all_of (in_stmt functions.now) ss.now) touched.old) }
{
    for s in ss {
        touch_stmt(functions, s, touched)?;
    }
    Ok(())
}

/// What a `return` touches, where there is one.
fn touch_return(
    functions: &Functions,
    result_: &Option<Return>,
    touched: &mut Touched,
) -> Result<(), AllocError>
    ensures { OnOk result (touched.new ≡ both (maybe_of (in_return functions.now) result_.now) touched.old) }
{
    match result_ {
        None => Ok(()),
        Some(r) => touch_expr(functions, &r.value, touched),
    }
}

/// What a body touches.
pub fn touch_body(
    functions: &Functions,
    body: &Body,
    touched: &mut Touched,
) -> Result<(), AllocError>
    ensures { OnOk result (touched.new ≡ both (in_body functions.now body.now) touched.old) }
{
    touch_stmts(functions, body.statements.as_slice(), touched)?;
    touch_return(functions, &body.result, touched)
}

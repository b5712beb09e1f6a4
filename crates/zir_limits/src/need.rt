// The needs of expressions, statements and bodies.

ghost use Rattle.std.specs.Prelude.{◌≡◌, ◌+◌, ◌∷◌, [], max};
ghost use Rattle.zir_types.specs.Needs.{expr_need as need_of_expr, exprs_need as need_of_exprs, call_need as need_of_call, initial_need as need_of_initial};
ghost use Rattle.zir_types.specs.Needs.{path_need as need_of_path, kept_cells as cells_kept, stmt_need as need_of_stmt, return_need as need_of_return};
ghost use Rattle.zir_types.specs.Needs.{body_need as need_of_body, list_sums, sums_need, counted as counting};
ghost use Rattle.zir_limits.specs.Facts.{told, needs_in};

use crate::cells::written_cells;
use crate::facts::Facts;
use zir_tree::expr::{Callee, Expr};
use zir_tree::stmt::{Access, Body, Return, Stmt};

/// A need of two parts together, counted up to one more than a program may have.
pub fn counted(a: u64, b: u64) -> u64
    ensures { result ≡ counting (a + b) }
{
    a.saturating_add(b).min(1048577)
}

/// The greater of two needs.
pub fn greater(a: u64, b: u64) -> u64
    ensures { result ≡ max a b }
{
    if a < b { b } else { a }
}

/// What a call of a function or a struct needs besides its arguments.
fn call_need(facts: &Facts, callee: Callee) -> u64
    ensures { result ≡ need_of_call (needs_in (told facts.now)) callee }
{
    match callee {
        Callee::Function(k) => facts.function_need(k),
        Callee::Struct(_) => 0,
    }
}

/// The need of an expression.
#[cycle(expressions)]
pub fn expr_need(facts: &Facts, e: &Expr) -> u64
    ensures { result ≡ need_of_expr (needs_in (told facts.now)) e.now }
{
    match e {
        Expr::Unit(_) => 0,
        Expr::Bit(_, _) => 0,
        Expr::Bool(_, _) => 0,
        Expr::Int(_, _, _) => 0,
        Expr::Variable(_) => 0,
        Expr::Unary(_, _, a, _) => expr_need(facts, a.get()),
        Expr::Binary(_, _, a, b, _) => {
            let left = expr_need(facts, a.get());
            let right = expr_need(facts, b.get());
            greater(left, right)
        }
        Expr::Index(a, i, _) => {
            let left = expr_need(facts, a.get());
            let right = expr_need(facts, i.get());
            greater(left, right)
        }
        Expr::Slice(a, i, _, _) => {
            let left = expr_need(facts, a.get());
            let right = expr_need(facts, i.get());
            greater(left, right)
        }
        Expr::Part(a, _, _, _) => expr_need(facts, a.get()),
        Expr::Call(_, callee, es) => {
            let arguments = exprs_need(facts, es.as_slice());
            counted(arguments, call_need(facts, *callee))
        }
        Expr::Array(es, _) => exprs_need(facts, es.as_slice()),
        Expr::Convert(_, a, _) => expr_need(facts, a.get()),
        Expr::Complex(_, a, b, _) => {
            let left = expr_need(facts, a.get());
            let right = expr_need(facts, b.get());
            greater(left, right)
        }
    }
}

/// The greatest need of some expressions.
#[cycle(expressions)]
pub fn exprs_need(facts: &Facts, es: &[Expr]) -> u64
    ensures { result ≡ need_of_exprs (needs_in (told facts.now)) es.now }
{
    let mut need = 0;
    for e in es {
        need = greater(expr_need(facts, e), need);
    }
    need
}

/// The need of an initial value.
pub fn initial_need(facts: &Facts, initial: &Option<Expr>) -> u64
    ensures { result ≡ need_of_initial (needs_in (told facts.now)) initial.now }
{
    match initial {
        None => 0,
        Some(e) => expr_need(facts, e),
    }
}

/// The greatest need of the indexes of a path.
fn path_need(facts: &Facts, steps: &[Access]) -> u64
    ensures { result ≡ need_of_path (needs_in (told facts.now)) steps.now }
{
    let mut need = 0;
    for step in steps {
        need = greater(step_need(facts, step), need);
    }
    need
}

/// The need of a step of a path.
fn step_need(facts: &Facts, step: &Access) -> u64
    ensures { result ≡ need_of_path (needs_in (told facts.now)) (step.now ∷ []) }
{
    match step {
        Access::Index(e, _) => expr_need(facts, e),
        Access::Slice(e, _, _) => expr_need(facts, e),
        Access::Part(_, _, _) => 0,
    }
}

/// The cells that a statement keeps for those behind it: those of a `var`.
fn kept_cells(facts: &Facts, s: &Stmt) -> u64
    ensures { result ≡ cells_kept (told facts.now).shapes s.now }
{
    match s {
        Stmt::Var(v) => written_cells(facts.shapes(), &v.ty),
        _ => 0,
    }
}

/// The greatest need of a part of a statement; a `for` keeps its index besides.
#[cycle(statements)]
fn stmt_need(facts: &Facts, s: &Stmt) -> u64
    ensures { result ≡ need_of_stmt (told facts.now).shapes (needs_in (told facts.now)) s.now }
{
    match s {
        Stmt::Var(v) => initial_need(facts, &v.initial),
        Stmt::Assign(_, steps, e) => {
            let path = path_need(facts, steps.as_slice());
            greater(path, expr_need(facts, e))
        }
        Stmt::Call(_, k, es) => {
            let arguments = exprs_need(facts, es.as_slice());
            counted(arguments, facts.function_need(*k))
        }
        Stmt::Error(_, _) => 0,
        Stmt::If(e, ss, _) => {
            let body = block_need(facts, ss.as_slice());
            greater(expr_need(facts, e), body)
        }
        Stmt::IfElse(e, ss, us, _) => {
            let body = block_need(facts, ss.as_slice());
            let other = block_need(facts, us.as_slice());
            greater(expr_need(facts, e), greater(body, other))
        }
        Stmt::While(e, ss, _) => {
            let body = block_need(facts, ss.as_slice());
            greater(expr_need(facts, e), body)
        }
        Stmt::For(_, a, n, ss, _) => {
            let body = block_need(facts, ss.as_slice());
            let turns = greater(expr_need(facts, n), body);
            counted(1, greater(expr_need(facts, a), turns))
        }
    }
}

/// The need of statements in a row and of what is returned behind them: the cells of their `var`s, and the greatest need of a part.
#[cycle(statements)]
fn list_need(facts: &Facts, ss: &[Stmt], returned: &Option<Return>) -> u64
    ensures { result ≡ sums_need (list_sums (told facts.now).shapes (needs_in (told facts.now)) ss.now returned.now) }
{
    let mut cells = 0;
    let mut most = return_need(facts, returned);
    for i in (0..ss.len()).rev() {
        cells = counted(kept_cells(facts, &ss[i]), cells);
        most = greater(stmt_need(facts, &ss[i]), most);
    }
    counted(cells, most)
}

/// The need of statements in braces.
#[cycle(statements)]
fn block_need(facts: &Facts, ss: &[Stmt]) -> u64
    ensures { result ≡ sums_need (list_sums (told facts.now).shapes (needs_in (told facts.now)) ss.now None) }
{
    list_need(facts, ss, &None)
}

/// The need of what a body returns.
fn return_need(facts: &Facts, returned: &Option<Return>) -> u64
    ensures { result ≡ need_of_return (needs_in (told facts.now)) returned.now }
{
    match returned {
        None => 0,
        Some(r) => expr_need(facts, &r.value),
    }
}

/// The need of a body.
pub fn body_need(facts: &Facts, body: &Body) -> u64
    ensures { result ≡ need_of_body (told facts.now).shapes (needs_in (told facts.now)) body.now }
{
    list_need(facts, body.statements.as_slice(), &body.result)
}

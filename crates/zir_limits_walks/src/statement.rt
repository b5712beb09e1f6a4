// What the limits look at in statements.

ghost use Rattle.std.specs.Prelude.{◌≡◌, ◌++◌, [], None, OnOk, IfOk};
ghost use Rattle.zir_types.specs.Known.{seen_in, seen_stmts, body_ty, return_ty};
ghost use Rattle.zir_types.specs.Statements.{with_index};
ghost use Rattle.zir_types.specs.Measures.{in_var, in_stmt, in_list, in_body, seen_stmt};
ghost use Rattle.zir_limits.specs.Facts.{told, sight};
ghost use Rattle.zir_limits.specs.Notes.{noted};

use std::alloc::{AllocError, Global};
use zir_limits::expression::{note_expr, note_exprs, note_initial, note_path, note_type};
use zir_limits::facts::Facts;
use zir_limits::known::{ty_of, type_of};
use zir_limits::notes::{Notes, Target};
use zir_limits::scope::Scope;
use zir_tree::ident::Ident;
use zir_tree::stmt::{Body, Return, Stmt, Var};
use zir_tree::types::{Base, Ty};
use zir_types::kinds::scalar;

/// The declaration of a variable.
pub fn note_var(
    alloc: Global,
    facts: &Facts,
    scope: &Scope,
    notes: &mut Notes,
    v: &Var,
) -> Result<(), AllocError>
    ensures { OnOk result (notes.new ≡ noted (in_var (sight (told facts.now) scope.now) v.now) notes.old) }
{
    note_type(facts, notes, &v.ty);
    note_initial(alloc, facts, scope, notes, &v.initial)
}

/// A variable comes into scope behind its declaration.
pub fn declare_var(alloc: Global, scope: &mut Scope, v: &Var) -> Result<(), AllocError>
    ensures { OnOk result (scope.new ≡ scope.old ++ seen_in v.now) }
{
    let ty = ty_of(alloc, &v.ty)?;
    scope.declare(v.name.id, ty)
}

/// A statement, which is in scope behind it where it is a `var`.
#[cycle(statements)]
fn note_stmt(
    alloc: Global,
    facts: &Facts,
    scope: &mut Scope,
    notes: &mut Notes,
    s: &Stmt,
) -> Result<(), AllocError>
    ensures noted { OnOk result (notes.new ≡ noted (in_stmt (sight (told facts.now) scope.old) s.now) notes.old) }
    ensures seen { OnOk result (scope.new ≡ scope.old ++ seen_stmt s.now) }
{
    match s {
        Stmt::Var(v) => {
            note_var(alloc, facts, scope, notes, v)?;
            declare_var(alloc, scope, v)
        }
        Stmt::Assign(_, steps, e) => {
            note_path(alloc, facts, scope, notes, steps.as_slice())?;
            note_expr(alloc, facts, scope, notes, e)
        }
        Stmt::Call(f, k, es) => {
            notes.call(Target::Function(*k), f.at)?;
            note_exprs(alloc, facts, scope, notes, es.as_slice())
        }
        Stmt::Error(_, _) => Ok(()),
        Stmt::If(e, ss, _) => {
            note_expr(alloc, facts, scope, notes, e)?;
            note_block(alloc, facts, scope, notes, ss.as_slice())
        }
        Stmt::IfElse(e, ss, us, _) => {
            note_expr(alloc, facts, scope, notes, e)?;
            note_block(alloc, facts, scope, notes, ss.as_slice())?;
            note_block(alloc, facts, scope, notes, us.as_slice())
        }
        Stmt::While(e, ss, _) => {
            note_expr(alloc, facts, scope, notes, e)?;
            note_block(alloc, facts, scope, notes, ss.as_slice())
        }
        Stmt::For(x, a, n, ss, _) => {
            note_expr(alloc, facts, scope, notes, a)?;
            note_expr(alloc, facts, scope, notes, n)?;
            note_loop(alloc, facts, scope, notes, x, ss.as_slice())
        }
    }
}

/// Statements in braces, behind which nothing of theirs is in scope.
#[cycle(statements)]
fn note_block(
    alloc: Global,
    facts: &Facts,
    scope: &mut Scope,
    notes: &mut Notes,
    ss: &[Stmt],
) -> Result<(), AllocError>
    ensures noted { OnOk result (notes.new ≡ noted (in_list (sight (told facts.now) scope.old) ss.now None) notes.old) }
    ensures left { OnOk result (scope.new ≡ scope.old) }
{
    let before = scope.len();
    note_stmts(alloc, facts, scope, notes, ss)?;
    scope.leave(before);
    Ok(())
}

/// The body of a `for`, in which its index is in scope.
#[cycle(statements)]
fn note_loop(
    alloc: Global,
    facts: &Facts,
    scope: &mut Scope,
    notes: &mut Notes,
    x: &Ident,
    ss: &[Stmt],
) -> Result<(), AllocError>
    ensures noted { OnOk result (notes.new
        ≡ noted (in_list (with_index x.now (sight (told facts.now) scope.old)) ss.now None) notes.old) }
    ensures left { OnOk result (scope.new ≡ scope.old) }
{
    let before = scope.len();
    scope.declare(x.id, scalar(alloc, Base::Int32))?;
    note_stmts(alloc, facts, scope, notes, ss)?;
    scope.leave(before);
    Ok(())
}

/// Statements one after the other, which are in scope behind them.
#[cycle(statements)]
fn note_stmts(
    alloc: Global,
    facts: &Facts,
    scope: &mut Scope,
    notes: &mut Notes,
    ss: &[Stmt],
) -> Result<(), AllocError>
    ensures noted { OnOk result (notes.new ≡ noted (in_list (sight (told facts.now) scope.old) ss.now None) notes.old) }
    ensures seen { OnOk result (scope.new ≡ scope.old ++ seen_stmts ss.now) }
{
    for s in ss {
        note_stmt(alloc, facts, scope, notes, s)?;
    }
    Ok(())
}

/// What a body returns, with its type.
fn note_return(
    alloc: Global,
    facts: &Facts,
    scope: &Scope,
    notes: &mut Notes,
    returned: &Option<Return>,
) -> Result<Ty, AllocError>
    ensures noted { OnOk result (notes.new
        ≡ noted (in_list (sight (told facts.now) scope.now) [] returned.now) notes.old) }
    ensures gives { IfOk result (λ t. t ≡ return_ty (sight (told facts.now) scope.now) returned.now) }
{
    match returned {
        None => Ok(scalar(alloc, Base::Unit)),
        Some(r) => {
            note_expr(alloc, facts, scope, notes, &r.value)?;
            type_of(alloc, facts, scope, &r.value)
        }
    }
}

/// A body, with the type of its value.
pub fn note_body(
    alloc: Global,
    facts: &Facts,
    scope: &mut Scope,
    notes: &mut Notes,
    body: &Body,
) -> Result<Ty, AllocError>
    ensures noted { OnOk result (notes.new ≡ noted (in_body (sight (told facts.now) scope.old) body.now) notes.old) }
    ensures gives { IfOk result (λ t. t ≡ body_ty (sight (told facts.now) scope.old) body.now) }
    ensures left { OnOk result (scope.new ≡ scope.old) }
{
    let before = scope.len();
    note_stmts(alloc, facts, scope, notes, body.statements.as_slice())?;
    let ty = note_return(alloc, facts, scope, notes, &body.result)?;
    scope.leave(before);
    Ok(ty)
}

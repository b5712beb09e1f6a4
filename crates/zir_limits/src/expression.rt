// What the limits look at in expressions.

ghost use Rattle.std.specs.Prelude.{◌≡◌, ◌*◌, ◌∷◌, [], IfOk, OnOk};
ghost use Rattle.zir_types.specs.Known.{type_of as type_known};
ghost use Rattle.zir_types.specs.Scope.{capped, cells_in};
ghost use Rattle.zir_types.specs.Measures.{Spans, Holds, in_expr, in_exprs, in_callee, in_initial, in_path, in_type};
ghost use Rattle.zir_limits.specs.Facts.{told, sight};
ghost use Rattle.zir_limits.specs.Lists.{array_ty};
ghost use Rattle.zir_limits.specs.Notes.{noted};

use crate::cells::{cells, times, written_cells};
use crate::facts::Facts;
use crate::known::type_of;
use crate::notes::{Notes, Target};
use crate::scope::Scope;
use std::alloc::{AllocError, Global};
use zir_tree::expr::{Callee, Expr};
use zir_tree::place::Place;
use zir_tree::stmt::Access;
use zir_tree::types::TypeExpr;

/// A written type.
pub fn note_type(facts: &Facts, notes: &mut Notes, ty: &TypeExpr)
    ensures { notes.new ≡ noted (in_type (sight (told facts.now) []) ty.now) notes.old }
{
    notes.holds(written_cells(facts.shapes(), ty), ty.at);
    notes.dimensions(ty.dimensions.as_slice());
}

/// What a call calls.
fn note_callee(notes: &mut Notes, callee: Callee, at: Place) -> Result<(), AllocError>
    ensures { OnOk result (notes.new ≡ noted (in_callee callee at) notes.old) }
{
    match callee {
        Callee::Function(k) => notes.call(Target::Function(k), at),
        Callee::Struct(_) => Ok(()),
    }
}

/// The cells of the type of a typed expression.
fn expr_cells(alloc: Global, facts: &Facts, scope: &Scope, e: &Expr) -> Result<u64, AllocError>
    ensures { IfOk result (λ n.
        n ≡ cells_in (told facts.now).shapes (type_known (sight (told facts.now) scope.now) e.now)) }
{
    let ty = type_of(alloc, facts, scope, e)?;
    Ok(cells(facts.shapes(), &ty))
}

/// The length and the cells of an array of so many elements of so many cells. The array's cells are the result.
fn note_literal(notes: &mut Notes, count: u64, element: u64, at: Place) -> u64
    ensures noted { notes.new ≡ noted (Spans count at ∷ Holds (capped (count * element)) at ∷ []) notes.old }
    ensures cells { result ≡ capped (count * element) }
{
    let cells = times(count, element);
    notes.spans(count, at);
    notes.holds(cells, at);
    cells
}

/// An expression.
#[cycle(expressions)]
pub fn note_expr(
    alloc: Global,
    facts: &Facts,
    scope: &Scope,
    notes: &mut Notes,
    e: &Expr,
) -> Result<(), AllocError>
    ensures { OnOk result (notes.new ≡ noted (in_expr (sight (told facts.now) scope.now) e.now) notes.old) }
{
    match e {
        Expr::Unit(_) => Ok(()),
        Expr::Bit(_, _) => Ok(()),
        Expr::Bool(_, _) => Ok(()),
        Expr::Int(_, _, _) => Ok(()),
        Expr::Variable(_) => Ok(()),
        Expr::Unary(_, _, a, _) => note_expr(alloc, facts, scope, notes, a.get()),
        Expr::Binary(_, _, a, b, _) => {
            note_expr(alloc, facts, scope, notes, a.get())?;
            note_expr(alloc, facts, scope, notes, b.get())
        }
        Expr::Index(a, i, _) => {
            note_expr(alloc, facts, scope, notes, a.get())?;
            note_expr(alloc, facts, scope, notes, i.get())
        }
        Expr::Slice(a, i, count, at) => {
            notes.spans(*count, *at);
            note_expr(alloc, facts, scope, notes, a.get())?;
            note_expr(alloc, facts, scope, notes, i.get())
        }
        Expr::Part(a, _, _, _) => note_expr(alloc, facts, scope, notes, a.get()),
        Expr::Call(f, callee, es) => {
            note_callee(notes, *callee, f.at)?;
            note_exprs(alloc, facts, scope, notes, es.as_slice())
        }
        Expr::Array(es, at) => {
            note_array(alloc, facts, scope, notes, es.as_slice(), *at)?;
            Ok(())
        }
        Expr::Convert(_, a, _) => note_expr(alloc, facts, scope, notes, a.get()),
        Expr::Complex(_, a, b, _) => {
            note_expr(alloc, facts, scope, notes, a.get())?;
            note_expr(alloc, facts, scope, notes, b.get())
        }
    }
}

/// An array of these expressions, which are noted first, and the cells of its type.
#[cycle(expressions)]
fn note_array(
    alloc: Global,
    facts: &Facts,
    scope: &Scope,
    notes: &mut Notes,
    es: &[Expr],
    at: Place,
) -> Result<u64, AllocError>
    ensures noted { OnOk result (
        notes.new ≡ noted (in_expr (sight (told facts.now) scope.now) (Expr.Array es.now at)) notes.old) }
    ensures cells { IfOk result (λ n.
        n ≡ cells_in (told facts.now).shapes (array_ty (sight (told facts.now) scope.now) es.now)) }
{
    match es {
        [] => Ok(note_literal(notes, 0, 0, at)),
        [first, more @ ..] => {
            let count = es.len() as u64;
            let element = note_element(alloc, facts, scope, notes, first)?;
            note_exprs(alloc, facts, scope, notes, more)?;
            Ok(note_literal(notes, count, element, at))
        }
    }
}

/// An expression, and the cells of its type.
#[cycle(expressions)]
fn note_element(
    alloc: Global,
    facts: &Facts,
    scope: &Scope,
    notes: &mut Notes,
    e: &Expr,
) -> Result<u64, AllocError>
    ensures noted { OnOk result (notes.new ≡ noted (in_expr (sight (told facts.now) scope.now) e.now) notes.old) }
    ensures cells { IfOk result (λ n.
        n ≡ cells_in (told facts.now).shapes (type_known (sight (told facts.now) scope.now) e.now)) }
{
    match e {
        Expr::Array(es, at) => note_array(alloc, facts, scope, notes, es.as_slice(), *at),
        _ => {
            note_expr(alloc, facts, scope, notes, e)?;
            expr_cells(alloc, facts, scope, e)
        }
    }
}

/// Expressions one after the other.
#[cycle(expressions)]
pub fn note_exprs(
    alloc: Global,
    facts: &Facts,
    scope: &Scope,
    notes: &mut Notes,
    es: &[Expr],
) -> Result<(), AllocError>
    ensures { OnOk result (notes.new ≡ noted (in_exprs (sight (told facts.now) scope.now) es.now) notes.old) }
{
    for e in es {
        note_expr(alloc, facts, scope, notes, e)?;
    }
    Ok(())
}

/// An initial value.
pub fn note_initial(
    alloc: Global,
    facts: &Facts,
    scope: &Scope,
    notes: &mut Notes,
    initial: &Option<Expr>,
) -> Result<(), AllocError>
    ensures { OnOk result (notes.new ≡ noted (in_initial (sight (told facts.now) scope.now) initial.now) notes.old) }
{
    match initial {
        None => Ok(()),
        Some(e) => note_expr(alloc, facts, scope, notes, e),
    }
}

/// A step of a path.
fn note_access(
    alloc: Global,
    facts: &Facts,
    scope: &Scope,
    notes: &mut Notes,
    step: &Access,
) -> Result<(), AllocError>
    ensures { OnOk result (notes.new ≡ noted (in_path (sight (told facts.now) scope.now) (step.now ∷ [])) notes.old) }
{
    match step {
        Access::Index(e, _) => note_expr(alloc, facts, scope, notes, e),
        Access::Slice(e, count, at) => {
            notes.spans(*count, *at);
            note_expr(alloc, facts, scope, notes, e)
        }
        Access::Part(_, _, _) => Ok(()),
    }
}

/// The path of an assignment.
pub fn note_path(
    alloc: Global,
    facts: &Facts,
    scope: &Scope,
    notes: &mut Notes,
    steps: &[Access],
) -> Result<(), AllocError>
    ensures { OnOk result (notes.new ≡ noted (in_path (sight (told facts.now) scope.now) steps.now) notes.old) }
{
    for step in steps {
        note_access(alloc, facts, scope, notes, step)?;
    }
    Ok(())
}

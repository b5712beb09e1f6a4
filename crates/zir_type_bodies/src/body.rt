// The types of the bodies of functions and of `do`, and of parameters.

ghost use Rattle.std.specs.Prelude.{◌≡◌, None, Some, IfOk, OnOk};
ghost use Rattle.std.specs.Option.{option_copied};
ghost use Rattle.zir_types.specs.Walk.{Told};
ghost use Rattle.zir_types.specs.Kinds.{scalar as scalar_ty};
ghost use Rattle.zir_types.specs.Statements.{body_of, do_end as do_end_walk, do_body as do_walk, returned as return_walk, no_result as no_result_walk};
ghost use Rattle.zir_types.specs.Statements.{some_result as some_result_walk, fun_end as fun_end_walk, fun_body as fun_walk, no_heading};
ghost use Rattle.zir_types.specs.Statements.{one_more_param, heading as heading_walk};

use crate::statement::type_sequence;
use sqlite_items::Items;
use std::alloc::{AllocError, Global};
use zir_tree::ident::Ident;
use zir_tree::place::Place;
use zir_tree::stmt::{Body, Return, Stmt};
use zir_tree::types::{Base, Field, Ty};
use zir_type_expressions::expression::type_expr;
use zir_types::error::TypeError;
use zir_types::kinds::{copy, same, scalar};
use zir_types::scope::{Scope, Seen, copy_ident};
use zir_types::typed::{Heading, Typed, TypedBody, Written};
use zir_types::wants::{unasked, wanted};

/// A body without `return`, whose value is unit.
fn no_return(alloc: Global, statements: Items<Stmt>) -> TypedBody
    ensures { result ≡ body_of statements None (scalar_ty (Base.Unit)) }
{
    TypedBody {
        what: Body {
            statements,
            result: None,
        },
        ty: scalar(alloc, Base::Unit),
    }
}

/// A body that returns this expression, at the place of its `return`.
fn returning(statements: Items<Stmt>, at: Place, x: Typed) -> TypedBody
    ensures { result ≡ body_of statements (Some (record { value = x.what; at = at })) x.ty }
{
    TypedBody {
        what: Body {
            statements,
            result: Some(Return { value: x.what, at }),
        },
        ty: x.ty,
    }
}

/// The end of a `do`: its value is that of its `return`, or unit.
fn do_end(
    alloc: Global,
    scope: &Scope,
    statements: Items<Stmt>,
    end: &Option<Return>,
) -> Result<TypedBody, TypeError>
    ensures { Told (do_end_walk (record { done = statements; scope = scope.now }) end.now) result }
{
    match end {
        None => Ok(no_return(alloc, statements)),
        Some(r) => {
            let x = type_expr(alloc, scope, unasked(), &r.value)?;
            Ok(returning(statements, r.at, x))
        }
    }
}

/// The body of a `do` with its types.
pub fn type_do_body(alloc: Global, scope: &mut Scope, body: &Body) -> Result<TypedBody, TypeError>
    ensures told { Told (do_walk scope.old body.now) result }
    ensures seen { OnOk result (scope.new ≡ scope.old) }
{
    let before = scope.depth();
    let statements = type_sequence(alloc, scope, body.statements.as_slice())?;
    let made = do_end(alloc, scope, statements, &body.result)?;
    scope.leave(before);
    Ok(made)
}

/// What a function returns must have its type.
fn returned(statements: Items<Stmt>, ty: &Ty, at: Place, x: Typed) -> Result<TypedBody, TypeError>
    ensures { Told (return_walk statements ty.now at x) result }
{
    if !same(ty, &x.ty) {
        return Err(TypeError::Mismatch(at));
    }
    Ok(returning(statements, at, x))
}

/// The result of a function without a type, which stands at this place.
fn no_result(
    alloc: Global,
    scope: &Scope,
    statements: Items<Stmt>,
    at: Place,
    end: &Option<Return>,
) -> Result<TypedBody, TypeError>
    ensures { Told (no_result_walk (record { done = statements; scope = scope.now }) at end.now) result }
{
    match end {
        None => Ok(no_return(alloc, statements)),
        Some(r) => {
            let _ = type_expr(alloc, scope, unasked(), &r.value)?;
            Err(TypeError::Mismatch(at))
        }
    }
}

/// The result of a function of this type, which stands at this place.
fn some_result(
    alloc: Global,
    scope: &Scope,
    statements: Items<Stmt>,
    ty: &Ty,
    at: Place,
    end: &Option<Return>,
) -> Result<TypedBody, TypeError>
    ensures { Told (some_result_walk (record { done = statements; scope = scope.now }) ty.now at end.now) result }
{
    match end {
        None => Err(TypeError::Mismatch(at)),
        Some(r) => {
            let x = type_expr(alloc, scope, wanted(ty), &r.value)?;
            returned(statements, ty, r.at, x)
        }
    }
}

/// The end of a function's body: a function with a type returns a value of it, and one without a type returns nothing.
fn fun_end(
    alloc: Global,
    scope: &Scope,
    statements: Items<Stmt>,
    ty: Option<&Ty>,
    at: Place,
    end: &Option<Return>,
) -> Result<TypedBody, TypeError>
    ensures { Told (fun_end_walk (option_copied ty.entry) at end.now (record { done = statements; scope = scope.now })) result }
{
    match ty {
        None => no_result(alloc, scope, statements, at, end),
        Some(ty) => some_result(alloc, scope, statements, ty, at, end),
    }
}

/// The body with its types of a function of this result, unit where there is none, that stands at this place.
pub fn type_fun_body(
    alloc: Global,
    scope: &mut Scope,
    ty: Option<&Ty>,
    at: Place,
    body: &Body,
) -> Result<TypedBody, TypeError>
    ensures told { Told (fun_walk scope.old (option_copied ty.entry) at body.now) result }
    ensures seen { OnOk result (scope.new ≡ scope.old) }
{
    let before = scope.depth();
    let statements = type_sequence(alloc, scope, body.statements.as_slice())?;
    let made = fun_end(alloc, scope, statements, ty, at, &body.result)?;
    scope.leave(before);
    Ok(made)
}

/// One more parameter behind these.
fn with_param(
    alloc: Global,
    before: Heading,
    x: &Ident,
    written: Written,
) -> Result<Heading, AllocError>
    ensures { IfOk result (λ made. made ≡ one_more_param before x.now written) }
{
    let Heading {
        mut fields,
        mut types,
        mut seen,
    } = before;
    let ty = copy(alloc, &written.ty)?;
    seen.push(Seen { id: x.id, ty })?;
    let name = copy_ident(alloc, x)?;
    fields.push(Field {
        name,
        ty: written.what,
    })?;
    types.push(written.ty)?;
    Ok(Heading {
        fields,
        types,
        seen,
    })
}

/// Parameters, or the fields of a struct, with their types and what they bring into scope.
pub fn type_heading(alloc: Global, scope: &Scope, fields: &[Field]) -> Result<Heading, TypeError>
    ensures { Told (heading_walk scope.now.shapes no_heading fields.now) result }
{
    let mut made = Heading {
        fields: Items::new(alloc),
        types: Items::new(alloc),
        seen: Items::new(alloc),
    };
    for field in fields {
        let written = scope.written(alloc, &field.ty)?;
        made = with_param(alloc, made, &field.name, written)?;
    }
    Ok(made)
}

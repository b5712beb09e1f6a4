// The rules of the forms of statements.

ghost use Rattle.std.specs.Prelude.{◌≡◌, ◌&&◌, IfOk, OnOk};
ghost use Rattle.zir_types.specs.Walk.{Told};
ghost use Rattle.zir_types.specs.Found.{placed_function};
ghost use Rattle.zir_types.specs.Scope.{type_in, part_in, declare as declaring};
ghost use Rattle.zir_types.specs.Statements.{of_type as type_walk, seen_var as seen_of, root as root_walk, index_step as index_walk};
ghost use Rattle.zir_types.specs.Statements.{slice_step as slice_walk, part_step as part_walk, assigned as assign_walk, call_step as call_walk};
ghost use Rattle.zir_types.specs.Statements.{longer as longer_of, plain_step as plain_of};
ghost use Rattle.zir_types.specs.Kinds.{same_ty, scalar as scalar_ty};
ghost use Rattle.zir_types.specs.Statements.{declared as var_walk, is_condition as conditional, is_count as counting, if_step as if_walk};
ghost use Rattle.zir_types.specs.Statements.{if_else_step as if_else_walk, while_step as while_walk, for_step as for_walk, with_index};

use sqlite_items::Items;
use std::alloc::{AllocError, Global};
use zir_tree::expr::Expr;
use zir_tree::ident::Ident;
use zir_tree::name::Name;
use zir_tree::place::Place;
use zir_tree::stmt::{Access, Stmt};
use zir_tree::types::{Base, Ty};
use zir_types::error::TypeError;
use zir_types::kinds::{agree, copy, is_whole, same, same_base, scalar, scalar_of};
use zir_types::rules::slice_lengths;
use zir_types::scope::{FoundFunction, Scope, Seen, copy_ident};
use zir_types::typed::{Args, Path, Step, Typed, TypedVar};

/// Whether a type is this base.
fn is_scalar(ty: &Ty, base: Base) -> bool
    ensures { result ≡ same_ty ty.now (scalar_ty base) }
{
    match ty.lengths.as_slice() {
        [] => same_base(ty.base, base),
        [_, ..] => false,
    }
}

/// Whether an expression is a truth value.
pub fn is_condition(t: &Typed) -> bool
    ensures { result ≡ conditional t.now }
{
    is_scalar(&t.ty, Base::Bool)
}

/// Whether an expression is an int32, as a bound and a count are.
pub fn is_count(t: &Typed) -> bool
    ensures { result ≡ counting t.now }
{
    is_scalar(&t.ty, Base::Int32)
}

/// An initial value must have the type of its variable, which stands at this place.
pub fn of_type(ty: &Ty, at: Place, x: Typed) -> Result<Option<Expr>, TypeError>
    ensures { Told (type_walk ty.now at x) result }
{
    if !same(ty, &x.ty) {
        return Err(TypeError::Mismatch(at));
    }
    Ok(Some(x.what))
}

/// What a variable brings into scope.
pub fn seen_var(alloc: Global, v: &TypedVar) -> Result<Items<Seen>, AllocError>
    ensures { IfOk result (λ seen. seen ≡ seen_of v.now) }
{
    let mut seen = Items::new(alloc);
    let ty = copy(alloc, &v.ty)?;
    seen.push(Seen {
        id: v.what.name.id,
        ty,
    })?;
    Ok(seen)
}

/// A statement that declares a variable.
pub fn declared(alloc: Global, v: TypedVar) -> Result<Step, TypeError>
    ensures { Told (var_walk v) result }
{
    let declares = seen_var(alloc, &v)?;
    Ok(Step {
        what: Stmt::Var(v.what),
        declares,
    })
}

/// The variable where a path begins.
pub fn root(alloc: Global, scope: &Scope, x: &Ident) -> Result<Path, TypeError>
    ensures { Told (root_walk (type_in scope.now.variables x.now.id) x.now) result }
{
    match scope.variable(x.id) {
        None => Err(TypeError::Mismatch(x.at)),
        Some(ty) => {
            let ty = copy(alloc, ty)?;
            Ok(Path {
                steps: Items::new(alloc),
                ty,
            })
        }
    }
}

/// A path with one more step, to what has this type.
fn longer(path: Path, step: Access, ty: Ty) -> Result<Path, AllocError>
    ensures { IfOk result (λ made. made ≡ longer_of path step ty) }
{
    let mut steps = path.steps;
    steps.push(step)?;
    Ok(Path { steps, ty })
}

/// A step to an element of an array, by a whole index.
pub fn index_step(alloc: Global, at: Place, path: Path, t: Typed) -> Result<Path, TypeError>
    ensures { Told (index_walk at path t) result }
{
    match path.ty.lengths.as_slice() {
        [] => Err(TypeError::Mismatch(at)),
        [_, more @ ..] => {
            if !is_whole(scalar_of(&t.ty)) {
                return Err(TypeError::Mismatch(at));
            }
            let lengths = Items::from_slice(alloc, more)?;
            let base = path.ty.base;
            let made = longer(path, Access::Index(t.what, at), Ty { lengths, base })?;
            Ok(made)
        }
    }
}

/// A step to a slice of so many elements of an array, from a whole index on.
pub fn slice_step(
    alloc: Global,
    count: u64,
    at: Place,
    path: Path,
    t: Typed,
) -> Result<Path, TypeError>
    ensures { Told (slice_walk count at path t) result }
{
    match path.ty.lengths.as_slice() {
        [] => Err(TypeError::Mismatch(at)),
        [_, more @ ..] => {
            if !is_whole(scalar_of(&t.ty)) {
                return Err(TypeError::Mismatch(at));
            }
            let lengths = slice_lengths(alloc, count, more)?;
            let base = path.ty.base;
            let made = longer(path, Access::Slice(t.what, count, at), Ty { lengths, base })?;
            Ok(made)
        }
    }
}

/// A step to a part, with its place.
pub fn part_step(
    alloc: Global,
    scope: &Scope,
    name: &Name,
    at: Place,
    path: Path,
) -> Result<Path, TypeError>
    ensures { Told (part_walk (part_in scope.now.shapes path.ty name.now) name.now at path) result }
{
    match scope.part(alloc, &path.ty, name.as_slice())? {
        None => Err(TypeError::Mismatch(at)),
        Some(part) => {
            let name = Name::from_slice(alloc, name.as_slice())?;
            let made = longer(path, Access::Part(name, part.place, at), part.ty)?;
            Ok(made)
        }
    }
}

/// A statement that brings nothing into scope.
fn plain_step(alloc: Global, what: Stmt) -> Step
    ensures { result ≡ plain_of what }
{
    Step {
        what,
        declares: Items::new(alloc),
    }
}

/// What is assigned must have the type of what the path leads to.
pub fn assigned(alloc: Global, x: &Ident, to: Path, t: Typed) -> Result<Step, TypeError>
    ensures { Told (assign_walk x.now to t) result }
{
    if !same(&to.ty, &t.ty) {
        return Err(TypeError::Mismatch(x.at));
    }
    let x = copy_ident(alloc, x)?;
    Ok(plain_step(alloc, Stmt::Assign(x, to.steps, t.what)))
}

/// The rule of a call statement: its arguments agree, and the function has no value.
pub fn call_step(
    alloc: Global,
    f: &Ident,
    callee: FoundFunction<'_>,
    args: Args,
) -> Result<Step, TypeError>
    ensures { Told (call_walk f.now (placed_function callee.entry) args) result }
{
    let Args { whats, types } = args;
    let signature = callee.signature;
    if !(agree(signature.params.as_slice(), types.as_slice())
        && is_scalar(&signature.result, Base::Unit))
    {
        return Err(TypeError::Mismatch(f.at));
    }
    let f = copy_ident(alloc, f)?;
    Ok(plain_step(alloc, Stmt::Call(f, callee.place, whats)))
}

/// An `error`, which has no parts.
pub fn error_step(alloc: Global, text: &Name, at: Place) -> Result<Step, AllocError>
    ensures { IfOk result (λ step. step ≡ plain_of (Stmt.Error text.now at)) }
{
    let text = Name::from_slice(alloc, text.as_slice())?;
    Ok(plain_step(alloc, Stmt::Error(text, at)))
}

/// The rule of `if` without `else`.
pub fn if_step(alloc: Global, at: Place, t: Typed, thens: Items<Stmt>) -> Result<Step, TypeError>
    ensures { Told (if_walk at t thens) result }
{
    if !is_condition(&t) {
        return Err(TypeError::Mismatch(at));
    }
    Ok(plain_step(alloc, Stmt::If(t.what, thens, at)))
}

/// The rule of `if` with `else`.
pub fn if_else_step(
    alloc: Global,
    at: Place,
    t: Typed,
    thens: Items<Stmt>,
    elses: Items<Stmt>,
) -> Result<Step, TypeError>
    ensures { Told (if_else_walk at t thens elses) result }
{
    if !is_condition(&t) {
        return Err(TypeError::Mismatch(at));
    }
    Ok(plain_step(alloc, Stmt::IfElse(t.what, thens, elses, at)))
}

/// The rule of `while`.
pub fn while_step(alloc: Global, at: Place, t: Typed, body: Items<Stmt>) -> Result<Step, TypeError>
    ensures { Told (while_walk at t body) result }
{
    if !is_condition(&t) {
        return Err(TypeError::Mismatch(at));
    }
    Ok(plain_step(alloc, Stmt::While(t.what, body, at)))
}

/// The rule of `for`.
pub fn for_step(
    alloc: Global,
    x: &Ident,
    at: Place,
    first: Typed,
    turns: Typed,
    body: Items<Stmt>,
) -> Result<Step, TypeError>
    ensures { Told (for_walk x.now at first turns body) result }
{
    if !(is_count(&first) && is_count(&turns)) {
        return Err(TypeError::Mismatch(at));
    }
    let x = copy_ident(alloc, x)?;
    Ok(plain_step(alloc, Stmt::For(x, first.what, turns.what, body, at)))
}

/// The index of a loop comes into scope.
pub fn enter_index(alloc: Global, scope: &mut Scope, x: &Ident) -> Result<(), AllocError>
    ensures { OnOk result (scope.new ≡ with_index x.now scope.old) }
{
    scope.declare(Seen {
        id: x.id,
        ty: scalar(alloc, Base::Int32),
    })
}

/// More variables come into scope.
pub fn enter(alloc: Global, scope: &mut Scope, seen: &[Seen]) -> Result<(), AllocError>
    ensures { OnOk result (scope.new ≡ declaring seen.now scope.old) }
{
    for v in seen {
        let ty = copy(alloc, &v.ty)?;
        scope.declare(Seen { id: v.id, ty })?;
    }
    Ok(())
}

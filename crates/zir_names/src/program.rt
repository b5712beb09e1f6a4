// The names of declarations and programs.

ghost use Rattle.std.specs.Prelude.{◌≡◌, [], OnOk, IfOk};
ghost use Rattle.zir_names.specs.Walk.{Told, Walk, and_then};
ghost use Rattle.zir_names.specs.Scope.{ToldIn};
ghost use Rattle.zir_names.specs.Expressions.{maybe, type_of};
ghost use Rattle.zir_names.specs.Statements.{in_turn};
ghost use Rattle.zir_names.specs.Programs.{fields as fields_walk, params as params_walk, entered, struct_of, function_of, comp_function_of, decl_of, finished, names};

use crate::component::{resolve_comp, resolve_part};
use crate::error::NameError;
use crate::expression::resolve_type;
use crate::scope::{Kind, Scope};
use crate::statement::{resolve_body, resolve_var};
use sqlite_items::Items;
use std::alloc::{AllocError, Global};
use zir_tree::comp::Comp;
use zir_tree::ident::Ident;
use zir_tree::name::Name;
use zir_tree::place::Place;
use zir_tree::program::{CompFunction, Decl, Function, Prog, Struct};
use zir_tree::stmt::Var;
use zir_tree::types::{Field, TypeExpr};

/// A program whose names are resolved: each declaration has a number, from 1 on in the order of the text, and each use the
/// number of the declaration that it means.
#[derive(Debug, Drop)]
pub struct Named {
    pub program: Prog,
}

/// A name that gets no number.
fn copy_ident(alloc: Global, x: &Ident) -> Result<Ident, AllocError>
    ensures { IfOk result (λ y. y ≡ x.now) }
{
    let name = Name::from_slice(alloc, x.name.as_slice())?;
    Ok(Ident {
        name,
        id: x.id,
        at: x.at,
    })
}

/// The fields of a struct.
fn resolve_fields(alloc: Global, scope: &Scope, fields: &[Field]) -> Result<Items<Field>, NameError>
    ensures { Told (fields_walk scope.now [] fields.now) result }
{
    let mut made = Items::new(alloc);
    let mut before = Scope::new(alloc);
    for field in fields {
        before.check_new(&field.name)?;
        let ty = resolve_type(alloc, scope, &field.ty)?;
        let name = copy_ident(alloc, &field.name)?;
        before.open(alloc, Kind::Fixed, &field.name)?;
        made.push(Field { name, ty })?;
    }
    Ok(made)
}

/// The parameters of a function, which are numbered and not in scope yet.
fn resolve_params(
    alloc: Global,
    scope: &mut Scope,
    params: &[Field],
) -> Result<Items<Field>, NameError>
    ensures { ToldIn (params_walk scope.old [] params.now) result scope.new }
{
    let mut made = Items::new(alloc);
    let mut before = Scope::new(alloc);
    for param in params {
        before.check_new(&param.name)?;
        let ty = resolve_type(alloc, scope, &param.ty)?;
        let name = scope.number(alloc, &param.name)?;
        before.open(alloc, Kind::Fixed, &param.name)?;
        made.push(Field { name, ty })?;
    }
    Ok(made)
}

/// Parameters come into scope.
fn enter_params(alloc: Global, scope: &mut Scope, params: &[Field]) -> Result<(), AllocError>
    ensures { OnOk result (scope.new ≡ entered params.now scope.old) }
{
    for param in params {
        scope.open(alloc, Kind::Fixed, &param.name)?;
    }
    Ok(())
}

/// The type of a result, where there is one.
fn resolve_result(
    alloc: Global,
    scope: &Scope,
    ty: &Option<TypeExpr>,
) -> Result<Option<TypeExpr>, NameError>
    ensures { Told (maybe (type_of scope.now) ty.now) result }
{
    match ty {
        None => Ok(None),
        Some(ty) => {
            let ty = resolve_type(alloc, scope, ty)?;
            Ok(Some(ty))
        }
    }
}

/// A variable at the top.
fn resolve_top_var(alloc: Global, scope: &mut Scope, v: &Var) -> Result<Decl, NameError>
    ensures { ToldIn (decl_of scope.old (Decl.Var v.now)) result scope.new }
{
    scope.check_new(&v.name)?;
    let v = resolve_var(alloc, scope, v)?;
    Ok(Decl::Var(v))
}

/// A struct.
fn resolve_struct(alloc: Global, scope: &mut Scope, s: &Struct) -> Result<Decl, NameError>
    ensures { ToldIn (struct_of scope.old s.now) result scope.new }
{
    scope.check_new(&s.name)?;
    let before = scope.len();
    let name = scope.number(alloc, &s.name)?;
    scope.open(alloc, Kind::Own, &name)?;
    let fields = resolve_fields(alloc, scope, s.fields.as_slice())?;
    scope.leave(before);
    scope.open(alloc, Kind::Structure, &name)?;
    let at = s.at;
    Ok(Decl::Struct(Struct { name, fields, at }))
}

/// A function.
fn resolve_function(alloc: Global, scope: &mut Scope, f: &Function) -> Result<Decl, NameError>
    ensures { ToldIn (function_of scope.old f.now) result scope.new }
{
    scope.check_new(&f.name)?;
    let before = scope.len();
    let name = scope.number(alloc, &f.name)?;
    let params = resolve_params(alloc, scope, f.params.as_slice())?;
    let result = resolve_result(alloc, scope, &f.result)?;
    scope.open(alloc, Kind::Own, &name)?;
    enter_params(alloc, scope, params.as_slice())?;
    let body = resolve_body(alloc, scope, &f.body)?;
    scope.leave(before);
    scope.open(alloc, Kind::Function(f.params.len()), &name)?;
    let at = f.at;
    Ok(Decl::Function(Function {
        name,
        params,
        result,
        body,
        at,
    }))
}

/// A `fun comp`.
fn resolve_comp_function(
    alloc: Global,
    scope: &mut Scope,
    f: &CompFunction,
) -> Result<Decl, NameError>
    ensures { ToldIn (comp_function_of scope.old f.now) result scope.new }
{
    scope.check_new(&f.name)?;
    let before = scope.len();
    let name = scope.number(alloc, &f.name)?;
    let params = resolve_params(alloc, scope, f.params.as_slice())?;
    scope.open(alloc, Kind::Own, &name)?;
    enter_params(alloc, scope, params.as_slice())?;
    let body = resolve_part(alloc, scope, &f.body)?;
    scope.leave(before);
    scope.open(alloc, Kind::Component, &name)?;
    let at = f.at;
    let body = body.into_inner();
    Ok(Decl::Comp(CompFunction {
        name,
        params,
        body,
        at,
    }))
}

/// A declaration at the top.
fn resolve_decl(alloc: Global, scope: &mut Scope, d: &Decl) -> Result<Decl, NameError>
    ensures { ToldIn (decl_of scope.old d.now) result scope.new }
{
    match d {
        Decl::Var(v) => resolve_top_var(alloc, scope, v),
        Decl::Struct(s) => resolve_struct(alloc, scope, s),
        Decl::Function(f) => resolve_function(alloc, scope, f),
        Decl::Comp(f) => resolve_comp_function(alloc, scope, f),
    }
}

/// Declarations one after the other.
fn resolve_decls(alloc: Global, scope: &mut Scope, ds: &[Decl]) -> Result<Items<Decl>, NameError>
    ensures { ToldIn (in_turn decl_of scope.old ds.now) result scope.new }
{
    let mut made = Items::new(alloc);
    for d in ds {
        let d = resolve_decl(alloc, scope, d)?;
        made.push(d)?;
    }
    Ok(made)
}

/// A program whose parts are resolved, or why the type that it writes is refused.
fn finish(
    declarations: Items<Decl>,
    input: TypeExpr,
    main: Comp,
    output: Result<TypeExpr, NameError>,
    at: Place,
) -> Result<Named, NameError>
    ensures { (walk : Walk TypeExpr) → Told walk output → Told (and_then walk (λ o. finished declarations input main o at)) result }
{
    match output {
        Ok(output) => Ok(Named {
            program: Prog {
                declarations,
                input,
                main,
                output,
                at,
            },
        }),
        Err(error) => {
            drop(declarations);
            drop(input);
            drop(main);
            Err(error)
        }
    }
}

/// The program with its names resolved. A refusal is the first in the order of the text: `Unknown` where no declaration of
/// the kind that a place needs is in scope, `Twice` at the second of two declarations with one name, `Recursive` where a
/// body names its own function or struct. `Memory` comes where memory runs out.
pub fn resolve(alloc: Global, p: &Prog) -> Result<Named, NameError>
    ensures { Told (names p.now) result }
{
    let mut scope = Scope::new(alloc);
    let declarations = resolve_decls(alloc, &mut scope, p.declarations.as_slice())?;
    let input = resolve_type(alloc, &scope, &p.input)?;
    let main = resolve_comp(alloc, &mut scope, &p.main)?;
    let output = resolve_type(alloc, &scope, &p.output);
    finish(declarations, input, main, output, p.at)
}

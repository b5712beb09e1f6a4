// The instances of `fun comp`s.

ghost use Rattle.std.specs.Prelude.{◌≡◌, ◌+◌, ◌<◌, List, option_map, nat_le, length, IfOk, IsFalse, MatchResult};
ghost use Rattle.zir_tree.specs.declared.expr.Expr.{Expr};
ghost use Rattle.zir_tree.specs.declared.program.Instance.{Instance};
ghost use Rattle.zir_types.specs.Scope.{Visible};
ghost use Rattle.zir_types.specs.Walk.{Told, check};
ghost use Rattle.zir_types.specs.Expressions.{agree as agreeing};
ghost use Rattle.zir_types.specs.Components.{Makers, instance_from, made_anew, recalled as recall_walk};
ghost use Rattle.zir_types.specs.Programs.{maker};
ghost use Rattle.zir_type_components.specs.Answers.{ToldOf};
ghost use Rattle.zir_type_components.specs.Calls.{placed_instance, is_instance_of};

use crate::comps::PreparedComp;
use sqlite_items::Items;
use std::alloc::{AllocError, Global};
use zir_tree::comp::Comp;
use zir_tree::expr::Expr;
use zir_tree::ident::Ident;
use zir_tree::place::Place;
use zir_tree::program::Instance;
use zir_tree::types::{Field, Ty, TypeExpr};
use zir_types::error::TypeError;
use zir_types::kinds::{agree, copy, same};
use zir_types::scope::{Seen, copy_ident, copy_name, number};
use zir_types::typed::{Args, TypedComp};

/// An instance that is found, and its place.
#[derive(Clone, Copy)]
pub struct FoundInstance<'a> {
    pub place: usize,
    pub instance: &'a Instance,
}

/// The expressions of arguments that have the types of these parameters.
pub fn agreed(params: &[Ty], at: Place, args: Args) -> Result<Items<Expr>, TypeError>
    ensures { Told (check (agreeing params.now args.types) (TypeError.Mismatch at) args.whats) result }
{
    let Args { whats, types } = args;
    if !agree(params, types.as_slice()) {
        return Err(TypeError::Mismatch(at));
    }
    Ok(whats)
}

/// Whether 256 instances are typed or begun.
pub fn is_full(around: usize, instances: &[Instance]) -> bool
    ensures full { result ≡ nat_le 256 (around + length instances.now) }
    ensures room { IsFalse result → around < 256 }
{
    around >= 256 || instances.len() >= 256 - around
}

/// Whether an instance is that of this declaration at this input type.
fn is_of(instance: &Instance, id: u32, input: &Ty) -> bool
    ensures { result ≡ is_instance_of instance.now id input.now }
{
    instance.declaration == id && same(&instance.input, input)
}

/// The instance of a declaration at an input type.
pub fn find_instance<'a>(
    instances: &'a [Instance],
    id: u32,
    input: &Ty,
) -> Option<FoundInstance<'a>>
    ensures { option_map placed_instance result ≡ instance_from 0 instances.now id input.now }
{
    for place in 0..instances.len() {
        let instance = &instances[place];
        if is_of(instance, id, input) {
            return Some(FoundInstance { place, instance });
        }
    }
    None
}

/// A copy of a type, where there is one.
pub fn copy_option(alloc: Global, ty: &Option<Ty>) -> Result<Option<Ty>, AllocError>
    ensures { IfOk result (λ t. t ≡ ty.now) }
{
    match ty {
        None => Ok(None),
        Some(ty) => {
            let ty = copy(alloc, ty)?;
            Ok(Some(ty))
        }
    }
}

/// A copy of a written type.
fn copy_type(alloc: Global, ty: &TypeExpr) -> Result<TypeExpr, AllocError>
    ensures { IfOk result (λ t. t ≡ ty.now) }
{
    let dimensions = Items::from_slice(alloc, ty.dimensions.as_slice())?;
    let name = copy_name(alloc, &ty.name)?;
    Ok(TypeExpr {
        dimensions,
        base: ty.base,
        name,
        at: ty.at,
    })
}

/// Copies of parameters.
fn copy_fields(alloc: Global, fields: &[Field]) -> Result<Items<Field>, AllocError>
    ensures { IfOk result (λ copies. copies ≡ fields.now) }
{
    let mut copies = Items::new(alloc);
    for field in fields {
        let name = copy_ident(alloc, &field.name)?;
        let ty = copy_type(alloc, &field.ty)?;
        copies.push(Field { name, ty })?;
    }
    Ok(copies)
}

/// Copies of variables in scope.
pub fn copy_seen(alloc: Global, seen: &[Seen]) -> Result<Vec<Seen>, AllocError>
    ensures { IfOk result (λ copies. copies.items ≡ seen.now) }
{
    let mut copies = Vec::new(alloc);
    for variable in seen {
        let ty = copy(alloc, &variable.ty)?;
        let id = variable.id;
        copies.push(Seen { id, ty })?;
    }
    Ok(copies)
}

/// A call of the instance at a place, which emits this and has this value.
fn called(
    alloc: Global,
    f: &Ident,
    place: usize,
    args: Items<Expr>,
    emits: &Option<Ty>,
    value: &Option<Ty>,
) -> Result<TypedComp, TypeError>
    ensures { MatchResult result
        (λ made. made ≡ record { what = Comp.Call f.now place args; emits = emits.now; value = value.now })
        (λ e. e ≡ TypeError.Memory) }
{
    let emits = copy_option(alloc, emits)?;
    let value = copy_option(alloc, value)?;
    let name = copy_ident(alloc, f)?;
    let place = number(place)?;
    Ok(TypedComp {
        what: Comp::Call(name, place, args),
        emits,
        value,
    })
}

/// A call of an instance that is typed already.
pub fn recalled(
    alloc: Global,
    f: &Ident,
    found: FoundInstance<'_>,
    args: Items<Expr>,
) -> Result<TypedComp, TypeError>
    ensures { (is : List Instance) → ToldOf (recall_walk (placed_instance found.entry) f.now args is) result is }
{
    let known = found.instance;
    called(alloc, f, found.place, args, &known.emits, &known.value)
}

/// The instance of a declaration at an input type, with the body that was typed for it.
fn make_instance(declaration: u32, input: Ty, params: Items<Field>, r: TypedComp) -> Instance
    ensures { result ≡ record {
      declaration = declaration;
      input = input;
      params = params;
      body = r.what;
      emits = r.emits;
      value = r.value;
    } }
{
    Instance {
        declaration,
        input,
        params,
        body: r.what,
        emits: r.emits,
        value: r.value,
    }
}

/// A call of an instance that was typed for it, which comes last.
pub fn kept(
    alloc: Global,
    f: &Ident,
    args: Items<Expr>,
    comp: &PreparedComp<'_>,
    input: &Ty,
    r: TypedComp,
    instances: &mut Items<Instance>,
) -> Result<TypedComp, TypeError>
    ensures { (tops : Visible) → (before : Makers) →
        ToldOf (made_anew (maker tops before comp.now) f.now input.now args
        (record { what = r; instances = instances.old })) result instances.new }
{
    let call = called(alloc, f, instances.len(), args, &r.emits, &r.value)?;
    let input = copy(alloc, input)?;
    let params = copy_fields(alloc, comp.head().fields.as_slice())?;
    instances.push(make_instance(comp.id(), input, params, r))?;
    Ok(call)
}

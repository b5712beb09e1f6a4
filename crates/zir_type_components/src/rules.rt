// The rules of the forms of components.

ghost use Rattle.std.specs.Prelude.{◌≡◌, ◌&&◌, ◌++◌, List, None, Some, IfOk};
ghost use Rattle.zir_tree.specs.declared.program.Instance.{Instance};
ghost use Rattle.zir_types.specs.Walk.{Told, Fine};
ghost use Rattle.zir_types.specs.Kinds.{arr, scalar as scalar_ty, same_ty};
ghost use Rattle.zir_types.specs.Found.{placed_function};
ghost use Rattle.zir_types.specs.Statements.{is_condition as conditional, is_count as counting};
ghost use Rattle.zir_types.specs.Components.{Reached, reached, emit_of, emits_of, return_of, do_of, repeat_of, while_of, times_of, for_of, if_of, pipe_of};
ghost use Rattle.zir_types.specs.Components.{map_of, filter_of, block_of, same_option as alike, emitted as emission, agreed as agreeing, first_of as first};
ghost use Rattle.zir_types.specs.Components.{takes_one as takes_alone, link_type, may_stand as standing, unit_value, place_of as place_in};
ghost use Rattle.zir_types.specs.Components.{no_members as none_yet, with_var as var_behind, with_comp as comp_behind};
ghost use Rattle.zir_type_components.specs.Answers.{ToldOf, loop_check};
ghost use Rattle.zir_type_components.specs.Parts.{typed_of, part_at, both_have};
ghost use Rattle.zir_type_components.specs.Blocks.{gathered_at};

use sqlite_items::{Boxed, Items};
use std::alloc::{AllocError, Global};
use zir_tree::comp::{Comp, Link, Member, Turning};
use zir_tree::ident::Ident;
use zir_tree::place::Place;
use zir_tree::types::{Base, Ty};
use zir_type_bodies::rules::{is_condition, is_count};
use zir_types::cells::has_cells;
use zir_types::error::TypeError;
use zir_types::kinds::{all_same, copy, same, scalar};
use zir_types::rules::slice_lengths;
use zir_types::scope::{FoundFunction, Shape, copy_ident};
use zir_types::typed::{Typed, TypedBody, TypedComp, TypedVar};

/// The members of a block so far: what they emit, and the value of the last one.
#[derive(Debug, Drop)]
pub struct Gathered {
    pub what: Items<Member>,
    pub emits: Items<Ty>,
    pub value: Option<Ty>,
}

/// A component in memory of its own, with what it emits and its value.
#[derive(Drop)]
pub struct Part {
    pub what: Boxed<Comp>,
    pub emits: Option<Ty>,
    pub value: Option<Ty>,
}

/// A component is moved into memory of its own.
pub fn boxed(alloc: Global, r: TypedComp) -> Result<Part, AllocError>
    ensures { IfOk result (λ part. typed_of part ≡ r) }
{
    let TypedComp { what, emits, value } = r;
    let what = Boxed::new(alloc, what)?;
    Ok(Part { what, emits, value })
}

/// The component that a part is.
pub fn unboxed(part: Part) -> TypedComp
    ensures { result ≡ typed_of part }
{
    let Part { what, emits, value } = part;
    TypedComp {
        what: what.into_inner(),
        emits,
        value,
    }
}

/// The value type of a computer of unit.
fn unit(alloc: Global) -> Option<Ty>
    ensures { result ≡ unit_value }
{
    Some(scalar(alloc, Base::Unit))
}

/// The rule of `take`.
pub fn taken(alloc: Global, input: &Ty, at: Place) -> Result<TypedComp, TypeError>
    ensures { (is : List Instance) → ToldOf (Fine (reached (Comp.Take at) None (Some input.now) is)) result is }
{
    let value = copy(alloc, input)?;
    Ok(TypedComp {
        what: Comp::Take(at),
        emits: None,
        value: Some(value),
    })
}

/// The rule of `takes`.
pub fn taken_together(
    alloc: Global,
    count: u64,
    input: &Ty,
    at: Place,
) -> Result<TypedComp, TypeError>
    ensures { (is : List Instance) →
        ToldOf (Fine (reached (Comp.Takes count at) None (Some (arr count input.now)) is)) result is }
{
    let lengths = slice_lengths(alloc, count, input.lengths.as_slice())?;
    let base = input.base;
    Ok(TypedComp {
        what: Comp::Takes(count, at),
        emits: None,
        value: Some(Ty { lengths, base }),
    })
}

/// The rule of `emit`: the type has cells.
pub fn emitted(alloc: Global, shapes: &[Shape], at: Place, t: Typed) -> Result<TypedComp, TypeError>
    ensures { (is : List Instance) → ToldOf (emit_of shapes.now at is t) result is }
{
    if !has_cells(shapes, &t.ty) {
        return Err(TypeError::NotStreamType(at));
    }
    Ok(TypedComp {
        what: Comp::Emit(t.what, at),
        emits: Some(t.ty),
        value: unit(alloc),
    })
}

/// The rule of `emits`: an array, whose elements have cells.
pub fn emitted_each(
    alloc: Global,
    shapes: &[Shape],
    at: Place,
    t: Typed,
) -> Result<TypedComp, TypeError>
    ensures { (is : List Instance) → ToldOf (emits_of shapes.now at is t) result is }
{
    match t.ty.lengths.as_slice() {
        [] => Err(TypeError::Mismatch(at)),
        [_, more @ ..] => {
            let lengths = Items::from_slice(alloc, more)?;
            let base = t.ty.base;
            let element = Ty { lengths, base };
            if !has_cells(shapes, &element) {
                return Err(TypeError::NotStreamType(at));
            }
            Ok(TypedComp {
                what: Comp::Emits(t.what, at),
                emits: Some(element),
                value: unit(alloc),
            })
        }
    }
}

/// The value of `return` is its expression.
pub fn returned(at: Place, t: Typed) -> Result<TypedComp, TypeError>
    ensures { (is : List Instance) → ToldOf (return_of at is t) result is }
{
    Ok(TypedComp {
        what: Comp::Return(t.what, at),
        emits: None,
        value: Some(t.ty),
    })
}

/// The value of `do` is that of its body.
pub fn done(at: Place, body: TypedBody) -> Result<TypedComp, TypeError>
    ensures { (is : List Instance) → ToldOf (do_of at is body) result is }
{
    Ok(TypedComp {
        what: Comp::Do(body.what, at),
        emits: None,
        value: Some(body.ty),
    })
}

/// Whether two parts have one kind and one value type.
fn same_option(a: &Option<Ty>, b: &Option<Ty>) -> bool
    ensures { result ≡ alike a.now b.now }
{
    match a {
        None => b.is_none(),
        Some(s) => match b {
            None => false,
            Some(t) => same(s, t),
        },
    }
}

/// Whether a value type is that of a computer of unit.
fn is_unit(alloc: Global, value: &Option<Ty>) -> bool
    ensures { result ≡ alike value.now unit_value }
{
    same_option(value, &unit(alloc))
}

/// The rule of `repeat`, which has no value.
pub fn repeated(alloc: Global, at: Place, r: Part) -> Result<TypedComp, TypeError>
    ensures { (is : List Instance) → ToldOf (repeat_of at (part_at r is)) result is }
{
    if !is_unit(alloc, &r.value) {
        return Err(TypeError::NotUnit(at));
    }
    Ok(TypedComp {
        what: Comp::Repeat(r.what, at),
        emits: r.emits,
        value: None,
    })
}

/// The rule of a loop whose condition or bounds have their type or not: its body is a computer of unit.
fn check_loop(alloc: Global, holds: bool, at: Place, value: &Option<Ty>) -> Result<(), TypeError>
    ensures { Told (loop_check holds at value.now) result }
{
    if !holds {
        return Err(TypeError::Mismatch(at));
    }
    if !is_unit(alloc, value) {
        return Err(TypeError::NotUnit(at));
    }
    Ok(())
}

/// The rule of `while` and `until`.
pub fn turned(
    alloc: Global,
    turning: Turning,
    at: Place,
    t: Typed,
    r: Part,
) -> Result<TypedComp, TypeError>
    ensures { (is : List Instance) → ToldOf (while_of turning at t (part_at r is)) result is }
{
    check_loop(alloc, is_condition(&t), at, &r.value)?;
    Ok(TypedComp {
        what: Comp::While(turning, t.what, r.what, at),
        emits: r.emits,
        value: unit(alloc),
    })
}

/// The rule of `times`.
pub fn counted(alloc: Global, at: Place, t: Typed, r: Part) -> Result<TypedComp, TypeError>
    ensures { (is : List Instance) → ToldOf (times_of at t (part_at r is)) result is }
{
    check_loop(alloc, is_count(&t), at, &r.value)?;
    Ok(TypedComp {
        what: Comp::Times(t.what, r.what, at),
        emits: r.emits,
        value: unit(alloc),
    })
}

/// Whether both bounds of a `for` are int32.
fn are_counts(a: &Typed, n: &Typed) -> bool
    ensures { result ≡ (counting a.now && counting n.now) }
{
    let first = is_count(a);
    let turns = is_count(n);
    first && turns
}

/// The rule of `for`.
pub fn iterated(
    alloc: Global,
    x: &Ident,
    at: Place,
    a: Typed,
    n: Typed,
    r: Part,
) -> Result<TypedComp, TypeError>
    ensures { (is : List Instance) → ToldOf (for_of x.now at a n (part_at r is)) result is }
{
    check_loop(alloc, are_counts(&a, &n), at, &r.value)?;
    let x = copy_ident(alloc, x)?;
    Ok(TypedComp {
        what: Comp::For(x, a.what, n.what, r.what, at),
        emits: r.emits,
        value: unit(alloc),
    })
}

/// Whether what two parts emit agrees.
fn emit_alike(a: &Option<Ty>, b: &Option<Ty>) -> bool
    ensures { result ≡ agreeing (emission a.now ++ emission b.now) }
{
    match a {
        None => true,
        Some(s) => match b {
            None => true,
            Some(t) => same(s, t),
        },
    }
}

/// The first of two types, where there is one.
fn first_present(a: Option<Ty>, b: Option<Ty>) -> Option<Ty>
    ensures { result ≡ first (emission a ++ emission b) }
{
    match a {
        None => b,
        Some(s) => Some(s),
    }
}

/// Whether an `if` has a truth value, and its branches one kind, one value type, and agree in what they emit.
fn fits_if(t: &Typed, r: &Part, s: &Part) -> bool
    ensures { result ≡ (conditional t.now
        && (alike r.now.value s.now.value && agreeing (emission r.now.emits ++ emission s.now.emits))) }
{
    let condition = is_condition(t);
    let kinds = same_option(&r.value, &s.value);
    let emits = emit_alike(&r.emits, &s.emits);
    condition && (kinds && emits)
}

/// The rule of `if`.
pub fn chosen(at: Place, t: Typed, r: Part, s: Part) -> Result<TypedComp, TypeError>
    ensures { (js is : List Instance) → ToldOf (if_of at t (part_at r js) (part_at s is)) result is }
{
    if !fits_if(&t, &r, &s) {
        return Err(TypeError::Mismatch(at));
    }
    Ok(TypedComp {
        what: Comp::If(t.what, r.what, s.what, at),
        emits: first_present(r.emits, s.emits),
        value: r.value,
    })
}

/// The type that the right side of a link reads.
pub fn linked(alloc: Global, emits: &Option<Ty>) -> Result<Ty, AllocError>
    ensures { IfOk result (λ ty. ty ≡ link_type emits.now) }
{
    match emits {
        None => Ok(scalar(alloc, Base::Bit)),
        Some(ty) => copy(alloc, ty),
    }
}

/// Whether both sides of a link are computers.
fn are_computers(first: &Option<Ty>, second: &Option<Ty>) -> bool
    ensures { result ≡ both_have first.now second.now }
{
    first.is_some() && second.is_some()
}

/// The rule of a link: two computers are one too many.
pub fn piped(link: Link, at: Place, r: Part, s: Part) -> Result<TypedComp, TypeError>
    ensures { (js is : List Instance) → ToldOf (pipe_of link at (part_at r js) (part_at s is)) result is }
{
    if are_computers(&r.value, &s.value) {
        return Err(TypeError::TwoComputers(at));
    }
    Ok(TypedComp {
        what: Comp::Pipe(link, r.what, s.what, at),
        emits: s.emits,
        value: first_present(r.value, s.value),
    })
}

/// Whether a function takes this type alone.
fn takes_one(params: &[Ty], input: &Ty) -> bool
    ensures { result ≡ takes_alone params.now input.now }
{
    match params {
        [ty] => same(ty, input),
        _ => false,
    }
}

/// Whether a type is unit.
fn is_unit_type(alloc: Global, ty: &Ty) -> bool
    ensures { result ≡ same_ty ty.now (scalar_ty Base.Unit) }
{
    same(ty, &scalar(alloc, Base::Unit))
}

/// Whether a type is bool.
fn is_bool_type(alloc: Global, ty: &Ty) -> bool
    ensures { result ≡ same_ty ty.now (scalar_ty Base.Bool) }
{
    same(ty, &scalar(alloc, Base::Bool))
}

/// The rule of `map`: a function from the input type to a type that is not unit.
pub fn mapped(
    alloc: Global,
    found: FoundFunction<'_>,
    f: &Ident,
    at: Place,
    input: &Ty,
) -> Result<TypedComp, TypeError>
    ensures { (is : List Instance) →
        ToldOf (map_of (Some (placed_function found.entry)) f.now at input.now is) result is }
{
    let signature = found.signature;
    let takes = takes_one(signature.params.as_slice(), input);
    let empty = is_unit_type(alloc, &signature.result);
    if !takes || empty {
        return Err(TypeError::Mismatch(at));
    }
    let f = copy_ident(alloc, f)?;
    let ty = copy(alloc, &signature.result)?;
    Ok(TypedComp {
        what: Comp::Map(f, found.place, at),
        emits: Some(ty),
        value: None,
    })
}

/// The rule of `filter`: a function from the input type to bool.
pub fn filtered(
    alloc: Global,
    found: FoundFunction<'_>,
    f: &Ident,
    at: Place,
    input: &Ty,
) -> Result<TypedComp, TypeError>
    ensures { (is : List Instance) →
        ToldOf (filter_of (Some (placed_function found.entry)) f.now at input.now is) result is }
{
    let signature = found.signature;
    let takes = takes_one(signature.params.as_slice(), input);
    let tests = is_bool_type(alloc, &signature.result);
    if !takes || !tests {
        return Err(TypeError::Mismatch(at));
    }
    let f = copy_ident(alloc, f)?;
    let ty = copy(alloc, input)?;
    Ok(TypedComp {
        what: Comp::Filter(f, found.place, at),
        emits: Some(ty),
        value: None,
    })
}

/// The place of a component.
pub fn place_of(c: &Comp) -> Place
    ensures { result ≡ place_in c.now }
{
    match c {
        Comp::Take(at) | Comp::Takes(_, at) => *at,
        Comp::Emit(_, at) | Comp::Emits(_, at) | Comp::Return(_, at) => *at,
        Comp::Do(_, at) => *at,
        Comp::Repeat(_, at) | Comp::Times(_, _, at) => *at,
        Comp::While(_, _, _, at) => *at,
        Comp::For(_, _, _, _, at) => *at,
        Comp::If(_, _, _, at) => *at,
        Comp::Map(_, _, at) | Comp::Filter(_, _, at) => *at,
        Comp::Call(f, _, _) => f.at,
        Comp::Block(_, at) => *at,
        Comp::Pipe(_, _, _, at) => *at,
    }
}

/// Whether a component may stand among members: before the last it is a computer.
pub fn may_stand(last: bool, value: &Option<Ty>) -> bool
    ensures { result ≡ standing last value.now }
{
    last || value.is_some()
}

/// Whether all types are one.
fn agreed(types: &[Ty]) -> bool
    ensures { result ≡ agreeing types.now }
{
    match types {
        [] => true,
        [ty, more @ ..] => all_same(ty, more),
    }
}

/// The first type, where there is one.
fn first_of(alloc: Global, types: &[Ty]) -> Result<Option<Ty>, AllocError>
    ensures { IfOk result (λ ty. ty ≡ first types.now) }
{
    match types {
        [] => Ok(None),
        [ty, ..] => {
            let ty = copy(alloc, ty)?;
            Ok(Some(ty))
        }
    }
}

/// The rule of a block: what its members emit agrees.
pub fn blocked(alloc: Global, at: Place, members: Gathered) -> Result<TypedComp, TypeError>
    ensures { (is : List Instance) → ToldOf (block_of at (gathered_at members is)) result is }
{
    if !agreed(members.emits.as_slice()) {
        return Err(TypeError::Mismatch(at));
    }
    let emits = first_of(alloc, members.emits.as_slice())?;
    Ok(TypedComp {
        what: Comp::Block(members.what, at),
        emits,
        value: members.value,
    })
}

/// Before the first member.
pub fn no_members(alloc: Global) -> Gathered
    ensures { (is : List Instance) → gathered_at result is ≡ none_yet is }
{
    Gathered {
        what: Items::new(alloc),
        emits: Items::new(alloc),
        value: unit(alloc),
    }
}

/// A variable behind these members, whose block then has unit.
pub fn with_var(alloc: Global, before: Gathered, v: TypedVar) -> Result<Gathered, AllocError>
    ensures { (is : List Instance) →
        IfOk result (λ made. gathered_at made is ≡ var_behind (gathered_at before is) v) }
{
    let Gathered {
        mut what,
        emits,
        value: _,
    } = before;
    what.push(Member::Var(v.what))?;
    Ok(Gathered {
        what,
        emits,
        value: unit(alloc),
    })
}

/// A component behind these members, as this member, with what it emits and its value.
pub fn with_comp(
    before: Gathered,
    m: Member,
    emits: Option<Ty>,
    value: Option<Ty>,
) -> Result<Gathered, AllocError>
    ensures { (r : Reached) → r.what.emits ≡ emits → r.what.value ≡ value → (js : List Instance) →
        IfOk result (λ made. gathered_at made r.instances ≡ comp_behind (gathered_at before js) m r) }
{
    let Gathered {
        mut what,
        emits: mut types,
        value: _,
    } = before;
    what.push(m)?;
    if let Some(ty) = emits {
        types.push(ty)?;
    }
    Ok(Gathered {
        what,
        emits: types,
        value,
    })
}

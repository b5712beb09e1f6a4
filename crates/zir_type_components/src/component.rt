// The walk of components, with the instances that they reach.

ghost use Rattle.std.specs.Prelude.{◌≤◌, ◌<◌, ◌+◌, ℕ, List, drop, length};
ghost use Rattle.zir_tree.specs.declared.program.Instance.{Instance};
ghost use Rattle.zir_types.specs.Walk.{and_then};
ghost use Rattle.zir_types.specs.Scope.{Visible, declare as declaring, function_from};
ghost use Rattle.zir_types.specs.Expressions.{expr as expr_walk, unasked as nothing_asked};
ghost use Rattle.zir_types.specs.Statements.{var as var_walk, do_body, with_index};
ghost use Rattle.zir_types.specs.Components.{comp, emit_of, emits_of, return_of, do_of, map_of, filter_of, no_members as none_yet};
ghost use Rattle.zir_types.specs.Programs.{makers};
ghost use Rattle.zir_type_components.specs.Answers.{ToldOf, ToldIn, up_to};
ghost use Rattle.zir_type_components.specs.Parts.{ToldPart};
ghost use Rattle.zir_type_components.specs.Calls.{makers_at, walk_at};
ghost use Rattle.zir_type_components.specs.Blocks.{ToldName, ToldStep, ToldMembers, name_in, gathered_at};
ghost use Rattle.zir_type_components.specs.Blocks.{member as member_walk, members_of, bind_of, run_of, var_of};

use crate::comps::{Found, Site};
use crate::instances::{agreed, copy_seen, find_instance, is_full, kept, recalled};
use crate::rules::{
    Gathered, Part, blocked, boxed, chosen, counted, done, emitted, emitted_each, filtered,
    iterated, linked, mapped, may_stand, no_members, piped, place_of, repeated, returned, taken,
    taken_together, turned, unboxed, with_comp, with_var,
};
use sqlite_items::Items;
use std::alloc::Global;
use zir_tree::comp::{Comp, Member, Turning};
use zir_tree::expr::Expr;
use zir_tree::ident::Ident;
use zir_tree::place::Place;
use zir_tree::program::Instance;
use zir_tree::stmt::{Body, Var};
use zir_tree::types::Ty;
use zir_type_bodies::body::type_do_body;
use zir_type_bodies::rules::{enter, enter_index, seen_var};
use zir_type_bodies::statement::type_var;
use zir_type_expressions::expression::{type_args, type_expr};
use zir_types::error::TypeError;
use zir_types::kinds::copy;
use zir_types::scope::{Scope, Seen, copy_ident};
use zir_types::typed::TypedComp;
use zir_types::wants::unasked;

/// `emit e`.
fn type_emit(alloc: Global, scope: &Scope, e: &Expr, at: Place) -> Result<TypedComp, TypeError>
    ensures { (is : List Instance) →
        ToldOf (and_then (expr_walk scope.now nothing_asked e.now) (emit_of scope.now.shapes at is)) result is }
{
    let t = type_expr(alloc, scope, unasked(), e)?;
    emitted(alloc, scope.shapes(), at, t)
}

/// `emits e`.
fn type_emits(alloc: Global, scope: &Scope, e: &Expr, at: Place) -> Result<TypedComp, TypeError>
    ensures { (is : List Instance) →
        ToldOf (and_then (expr_walk scope.now nothing_asked e.now) (emits_of scope.now.shapes at is)) result is }
{
    let t = type_expr(alloc, scope, unasked(), e)?;
    emitted_each(alloc, scope.shapes(), at, t)
}

/// `return e`.
fn type_return(alloc: Global, scope: &Scope, e: &Expr, at: Place) -> Result<TypedComp, TypeError>
    ensures { (is : List Instance) →
        ToldOf (and_then (expr_walk scope.now nothing_asked e.now) (return_of at is)) result is }
{
    let t = type_expr(alloc, scope, unasked(), e)?;
    returned(at, t)
}

/// `do { .. }`.
fn type_do(alloc: Global, scope: &mut Scope, body: &Body, at: Place) -> Result<TypedComp, TypeError>
    ensures { (is : List Instance) →
        ToldIn (and_then (do_body scope.old body.now) (do_of at is)) result is scope.old scope.new }
{
    let body = type_do_body(alloc, scope, body)?;
    done(at, body)
}

/// `map f`.
fn type_map(
    alloc: Global,
    scope: &Scope,
    input: &Ty,
    f: &Ident,
    at: Place,
) -> Result<TypedComp, TypeError>
    ensures { (is : List Instance) →
        ToldOf (map_of (function_from 0 scope.now.functions f.now.id) f.now at input.now is) result is }
{
    match scope.function(f.id)? {
        None => Err(TypeError::Mismatch(at)),
        Some(found) => mapped(alloc, found, f, at, input),
    }
}

/// `filter f`.
fn type_filter(
    alloc: Global,
    scope: &Scope,
    input: &Ty,
    f: &Ident,
    at: Place,
) -> Result<TypedComp, TypeError>
    ensures { (is : List Instance) →
        ToldOf (filter_of (function_from 0 scope.now.functions f.now.id) f.now at input.now is) result is }
{
    match scope.function(f.id)? {
        None => Err(TypeError::Mismatch(at)),
        Some(found) => filtered(alloc, found, f, at, input),
    }
}

/// A component at its input type: the component with its types, or the first refusal. The instances that it reaches
/// come behind those so far.
#[cycle(components)]
pub fn type_comp(
    alloc: Global,
    scope: &mut Scope,
    site: Site<'_>,
    input: &Ty,
    c: &Comp,
    instances: &mut Items<Instance>,
) -> Result<TypedComp, TypeError>
    requires { site.depth ≤ length scope.old.variables }
    ensures { ToldIn (walk_at site.entry scope.old input.now c.now instances.old)
        result instances.new scope.old scope.new }
{
    match c {
        Comp::Take(at) => taken(alloc, input, *at),
        Comp::Takes(n, at) => taken_together(alloc, *n, input, *at),
        Comp::Emit(e, at) => type_emit(alloc, scope, e, *at),
        Comp::Emits(e, at) => type_emits(alloc, scope, e, *at),
        Comp::Return(e, at) => type_return(alloc, scope, e, *at),
        Comp::Do(body, at) => type_do(alloc, scope, body, *at),
        Comp::Repeat(inner, at) => {
            let r = type_part(alloc, scope, site, input, inner.get(), instances)?;
            repeated(alloc, *at, r)
        }
        Comp::While(turning, e, inner, at) => type_while(
            alloc,
            scope,
            site,
            input,
            inner.get(),
            *turning,
            e,
            *at,
            instances,
        ),
        Comp::Times(e, inner, at) => {
            type_times(alloc, scope, site, input, inner.get(), e, *at, instances)
        }
        Comp::For(x, a, n, inner, at) => {
            type_for(
                alloc,
                scope,
                site,
                input,
                inner.get(),
                x,
                a,
                n,
                *at,
                instances,
            )
        }
        Comp::If(e, inner, other, at) => type_if(
            alloc,
            scope,
            site,
            input,
            inner.get(),
            other.get(),
            e,
            *at,
            instances,
        ),
        Comp::Map(f, _, at) => type_map(alloc, scope, input, f, *at),
        Comp::Filter(f, _, at) => type_filter(alloc, scope, input, f, *at),
        Comp::Call(f, _, args) => type_call(
            alloc,
            scope,
            site,
            input,
            f,
            args.as_slice(),
            instances,
        ),
        Comp::Block(ms, at) => type_block(alloc, scope, site, input, ms.as_slice(), *at, instances),
        Comp::Pipe(link, left, right, at) => {
            let r = type_part(alloc, scope, site, input, left.get(), instances)?;
            let between = linked(alloc, &r.emits)?;
            let s = type_part(alloc, scope, site, &between, right.get(), instances)?;
            piped(*link, *at, r, s)
        }
    }
}

/// A component as a part of another, in memory of its own.
#[cycle(components)]
fn type_part(
    alloc: Global,
    scope: &mut Scope,
    site: Site<'_>,
    input: &Ty,
    c: &Comp,
    instances: &mut Items<Instance>,
) -> Result<Part, TypeError>
    requires { site.depth ≤ length scope.old.variables }
    ensures { ToldPart (walk_at site.entry scope.old input.now c.now instances.old)
        result instances.new scope.old scope.new }
{
    let r = type_comp(alloc, scope, site, input, c, instances)?;
    let part = boxed(alloc, r)?;
    Ok(part)
}

/// `while (e) c` and `until (e) c`.
#[cycle(components)]
fn type_while(
    alloc: Global,
    scope: &mut Scope,
    site: Site<'_>,
    input: &Ty,
    inner: &Comp,
    turning: Turning,
    e: &Expr,
    at: Place,
    instances: &mut Items<Instance>,
) -> Result<TypedComp, TypeError>
    requires { site.depth ≤ length scope.old.variables }
    ensures { ToldIn (walk_at site.entry scope.old input.now (Comp.While turning e.now inner.now at) instances.old)
        result instances.new scope.old scope.new }
{
    let t = type_expr(alloc, scope, unasked(), e)?;
    let r = type_part(alloc, scope, site, input, inner, instances)?;
    turned(alloc, turning, at, t, r)
}

/// `times (e) c`.
#[cycle(components)]
fn type_times(
    alloc: Global,
    scope: &mut Scope,
    site: Site<'_>,
    input: &Ty,
    inner: &Comp,
    e: &Expr,
    at: Place,
    instances: &mut Items<Instance>,
) -> Result<TypedComp, TypeError>
    requires { site.depth ≤ length scope.old.variables }
    ensures { ToldIn (walk_at site.entry scope.old input.now (Comp.Times e.now inner.now at) instances.old)
        result instances.new scope.old scope.new }
{
    let t = type_expr(alloc, scope, unasked(), e)?;
    let r = type_part(alloc, scope, site, input, inner, instances)?;
    counted(alloc, at, t, r)
}

/// `for x in [a, n] c`.
#[cycle(components)]
fn type_for(
    alloc: Global,
    scope: &mut Scope,
    site: Site<'_>,
    input: &Ty,
    inner: &Comp,
    x: &Ident,
    a: &Expr,
    n: &Expr,
    at: Place,
    instances: &mut Items<Instance>,
) -> Result<TypedComp, TypeError>
    requires { site.depth ≤ length scope.old.variables }
    ensures { ToldIn (walk_at site.entry scope.old input.now (Comp.For x.now a.now n.now inner.now at) instances.old)
        result instances.new scope.old scope.new }
{
    let first = type_expr(alloc, scope, unasked(), a)?;
    let turns = type_expr(alloc, scope, unasked(), n)?;
    let r = type_indexed(alloc, scope, site, input, inner, x, instances)?;
    iterated(alloc, x, at, first, turns, r)
}

/// The body of a `for`, in which its index is in scope.
#[cycle(components)]
fn type_indexed(
    alloc: Global,
    scope: &mut Scope,
    site: Site<'_>,
    input: &Ty,
    inner: &Comp,
    x: &Ident,
    instances: &mut Items<Instance>,
) -> Result<Part, TypeError>
    requires { site.depth ≤ length scope.old.variables }
    ensures { ToldPart
        (comp (makers_at site.entry scope.old) (with_index x.now scope.old) site.entry.around input.now
        inner.now instances.old)
        result instances.new scope.old scope.new }
{
    let before = scope.depth();
    enter_index(alloc, scope, x)?;
    let r = type_comp(alloc, scope, site, input, inner, instances)?;
    scope.leave(before);
    let part = boxed(alloc, r)?;
    Ok(part)
}

/// `if e then a else b`.
#[cycle(components)]
fn type_if(
    alloc: Global,
    scope: &mut Scope,
    site: Site<'_>,
    input: &Ty,
    inner: &Comp,
    other: &Comp,
    e: &Expr,
    at: Place,
    instances: &mut Items<Instance>,
) -> Result<TypedComp, TypeError>
    requires { site.depth ≤ length scope.old.variables }
    ensures { ToldIn (walk_at site.entry scope.old input.now (Comp.If e.now inner.now other.now at) instances.old)
        result instances.new scope.old scope.new }
{
    let t = type_expr(alloc, scope, unasked(), e)?;
    let r = type_part(alloc, scope, site, input, inner, instances)?;
    let s = type_part(alloc, scope, site, input, other, instances)?;
    chosen(at, t, r, s)
}

/// A call of a `fun comp`: of an instance that is typed already, or of one that is typed for it.
#[cycle(components)]
fn type_call(
    alloc: Global,
    scope: &mut Scope,
    site: Site<'_>,
    input: &Ty,
    f: &Ident,
    args: &[Expr],
    instances: &mut Items<Instance>,
) -> Result<TypedComp, TypeError>
    requires { site.depth ≤ length scope.old.variables }
    ensures { (n : ℕ) →
        ToldIn (walk_at site.entry scope.old input.now (Comp.Call f.now n args.now) instances.old)
        result instances.new scope.old scope.new }
{
    let Some(found) = site.comps.find(site.from, f.id) else {
        return Err(TypeError::Mismatch(f.at));
    };
    let typed = type_args(alloc, scope, found.comp.head().types.as_slice(), args)?;
    let made = agreed(found.comp.head().types.as_slice(), f.at, typed)?;
    if let Some(known) = find_instance(instances.as_slice(), found.comp.id(), input) {
        return recalled(alloc, f, known, made);
    }
    if is_full(site.around, instances.as_slice()) {
        return Err(TypeError::Instances(f.at));
    }
    site.comps.check_room(found.comp, instances.as_slice())?;
    let r = type_body(alloc, scope, site, input, found, instances)?;
    kept(alloc, f, made, found.comp, input, r, instances)
}

/// The body of a `fun comp`, which sees the whole top and its parameters.
#[cycle(components)]
fn type_body(
    alloc: Global,
    scope: &mut Scope,
    site: Site<'_>,
    input: &Ty,
    found: Found<'_>,
    instances: &mut Items<Instance>,
) -> Result<TypedComp, TypeError>
    requires inside { site.depth ≤ length scope.old.variables }
    requires room { site.around < 256 }
    ensures { let tops = up_to site.entry.depth scope.old in
        ToldIn (comp (makers tops (drop found.entry.next site.entry.comps.now))
        (declaring found.entry.comp.now.head.seen tops) (site.entry.around + 1) input.now
        found.entry.comp.now.body instances.old) result instances.new scope.old scope.new }
{
    let locals = scope.detach(site.depth)?;
    let params = copy_seen(alloc, found.comp.head().seen.as_slice())?;
    scope.attach(params)?;
    let inner = Site {
        comps: site.comps,
        from: found.next,
        around: site.around + 1,
        depth: site.depth,
    };
    let r = type_part(alloc, scope, inner, input, found.comp.body(), instances)?;
    scope.leave(site.depth);
    scope.attach(locals)?;
    Ok(unboxed(r))
}

/// A block.
#[cycle(components)]
fn type_block(
    alloc: Global,
    scope: &mut Scope,
    site: Site<'_>,
    input: &Ty,
    ms: &[Member],
    at: Place,
    instances: &mut Items<Instance>,
) -> Result<TypedComp, TypeError>
    requires { site.depth ≤ length scope.old.variables }
    ensures { ToldIn (walk_at site.entry scope.old input.now (Comp.Block ms.now at) instances.old)
        result instances.new scope.old scope.new }
{
    let before = scope.depth();
    let members = type_members(alloc, scope, site, input, ms, instances)?;
    scope.leave(before);
    blocked(alloc, at, members)
}

/// Members one after the other.
#[cycle(components)]
fn type_members(
    alloc: Global,
    scope: &mut Scope,
    site: Site<'_>,
    input: &Ty,
    ms: &[Member],
    instances: &mut Items<Instance>,
) -> Result<Gathered, TypeError>
    requires { site.depth ≤ length scope.old.variables }
    ensures { ToldMembers
        (members_of (makers_at site.entry scope.old) scope.old site.entry.around input.now
        (none_yet instances.old) ms.now)
        result instances.new scope.old scope.new }
{
    let mut members = no_members(alloc);
    let mut rest = ms;
    while let [m, more @ ..] = rest {
        let last = more.is_empty();
        members = type_member(alloc, scope, site, input, m, last, members, instances)?;
        rest = more;
    }
    Ok(members)
}

/// A member of a block, behind those before it.
#[cycle(components)]
fn type_member(
    alloc: Global,
    scope: &mut Scope,
    site: Site<'_>,
    input: &Ty,
    m: &Member,
    last: bool,
    before: Gathered,
    instances: &mut Items<Instance>,
) -> Result<Gathered, TypeError>
    requires { site.depth ≤ length scope.old.variables }
    ensures { ToldStep
        (member_walk (makers_at site.entry scope.old) scope.old site.entry.around input.now last
        (gathered_at before instances.old) m.now)
        result instances.new scope.old scope.new }
{
    match m {
        Member::Bind(x, c) => {
            let r = type_comp(alloc, scope, site, input, c, instances)?;
            bound(alloc, scope, x, place_of(c), before, r)
        }
        Member::Var(v) => declared(alloc, scope, v, before),
        Member::Run(c) => {
            let r = type_comp(alloc, scope, site, input, c, instances)?;
            ran(last, place_of(c), before, r)
        }
    }
}

/// The name of a component with this value, which comes into scope.
fn named(
    alloc: Global,
    scope: &mut Scope,
    x: &Ident,
    at: Place,
    value: &Option<Ty>,
) -> Result<Ident, TypeError>
    ensures { ToldName (name_in value.now scope.old x.now at) x.now result scope.new }
{
    match value {
        None => Err(TypeError::NotComputer(at)),
        Some(value) => {
            let ty = copy(alloc, value)?;
            scope.declare(Seen { id: x.id, ty })?;
            let x = copy_ident(alloc, x)?;
            Ok(x)
        }
    }
}

/// A bound name, which is in scope behind its component.
fn bound(
    alloc: Global,
    scope: &mut Scope,
    x: &Ident,
    at: Place,
    before: Gathered,
    r: TypedComp,
) -> Result<Gathered, TypeError>
    ensures { (js is : List Instance) →
        ToldStep (bind_of scope.old x.now at (gathered_at before js) (record { what = r; instances = is }))
        result is scope.old scope.new }
{
    let TypedComp { what, emits, value } = r;
    let x = named(alloc, scope, x, at, &value)?;
    let made = with_comp(before, Member::Bind(x, what), emits, value)?;
    Ok(made)
}

/// A variable as a member, which is in scope behind its declaration.
fn declared(
    alloc: Global,
    scope: &mut Scope,
    v: &Var,
    before: Gathered,
) -> Result<Gathered, TypeError>
    ensures { (is : List Instance) →
        ToldStep (and_then (var_walk scope.old v.now) (var_of scope.old (gathered_at before is)))
        result is scope.old scope.new }
{
    let v = type_var(alloc, scope, v)?;
    let seen = seen_var(alloc, &v)?;
    enter(alloc, scope, seen.as_slice())?;
    let made = with_var(alloc, before, v)?;
    Ok(made)
}

/// A component as a member, which is a computer before the last one.
fn ran(last: bool, at: Place, before: Gathered, r: TypedComp) -> Result<Gathered, TypeError>
    ensures { (g : Visible) → (js is : List Instance) →
        ToldStep (run_of g last at (gathered_at before js) (record { what = r; instances = is })) result is g g }
{
    let stands = may_stand(last, &r.value);
    let TypedComp { what, emits, value } = r;
    let made = with_comp(before, Member::Run(what), emits, value)?;
    if stands {
        Ok(made)
    } else {
        Err(TypeError::NotComputer(at))
    }
}

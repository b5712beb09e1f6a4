// What the limits look at in components, with the components' types and needs.

ghost use Rattle.std.specs.Prelude.{◌≡◌, ◌++◌, ◌∷◌, [], min, Some, slice_get, OnOk, IfOk};
ghost use Rattle.zir_types.specs.Known.{first_some as first_in, or_unit as known_or_unit};
ghost use Rattle.zir_types.specs.Components.{link_type as type_of_link};
ghost use Rattle.zir_types.specs.Measures.{links as links_in, in_link, in_expr};
ghost use Rattle.zir_limits_walks.specs.Components.{Walks, Steps, Leads, Joins, walked, either, piped};
ghost use Rattle.std.specs.Prelude.{List};
ghost use Rattle.zir_tree.specs.declared.comp.Turning.{Turning};
ghost use Rattle.zir_tree.specs.declared.ident.Ident.{Ident};
ghost use Rattle.zir_tree.specs.declared.place.Place.{Place};
ghost use Rattle.zir_tree.specs.declared.types.Ty.{Ty};
ghost use Rattle.zir_types.specs.declared.scope.Seen.{Seen};
ghost use Rattle.zir_limits.specs.Facts.{CoreFacts, told, sight};
ghost use Rattle.zir_limits.specs.declared.notes.Notes.{Notes};
ghost use Rattle.zir_limits.specs.Notes.{noted};

use crate::found::{Members, Walked};
use crate::statement::{declare_var, note_body, note_var};
use std::alloc::{AllocError, Global};
use zir_limits::cells::{cells, written_cells};
use zir_limits::expression::{note_expr, note_exprs};
use zir_limits::facts::Facts;
use zir_limits::known::{array_of, copy_or_unit, element_of, function_type, type_of};
use zir_limits::need::{body_need, counted, expr_need, greater, initial_need};
use zir_limits::notes::{Notes, Target};
use zir_limits::scope::Scope;
use zir_tree::comp::{Comp, Link, Member};
use zir_tree::expr::Expr;
use zir_tree::ident::Ident;
use zir_tree::place::Place;
use zir_tree::stmt::{Body, Var};
use zir_tree::types::{Base, Ty};
use zir_types::kinds::{copy, scalar};

/// The type that the right side of a link reads, where the left side emits this.
fn link_type(alloc: Global, emits: Option<Ty>) -> Ty
    ensures { result ≡ type_of_link emits }
{
    match emits {
        None => scalar(alloc, Base::Bit),
        Some(ty) => ty,
    }
}

/// The first of two types.
fn first_some(first: Option<Ty>, second: Option<Ty>) -> Option<Ty>
    ensures { result ≡ first_in first second }
{
    match first {
        None => second,
        Some(ty) => Some(ty),
    }
}

/// A copy of a type, where there is one.
fn copy_some(alloc: Global, ty: &Option<Ty>) -> Result<Option<Ty>, AllocError>
    ensures { IfOk result (λ copied. copied ≡ ty.now) }
{
    match ty {
        None => Ok(None),
        Some(ty) => {
            let ty = copy(alloc, ty)?;
            Ok(Some(ty))
        }
    }
}

/// How many `|>>>|` a chain has, with 17 for every greater number.
fn links(c: &Comp) -> u64
    ensures { result ≡ min (links_in c.now) 17 }
{
    match c {
        Comp::Pipe(link, left, _, _) => match link {
            Link::Serial => 0,
            Link::Parallel => (links(left.get()) + 1).min(17),
        },
        _ => 0,
    }
}

/// `take`.
fn walk_take(alloc: Global, a: &Ty) -> Result<Walked, AllocError>
    ensures { (f : CoreFacts) (vs : List Seen) (n : Notes) (at : Place) →
        Walks f vs a.now (Comp.Take at) n n vs result }
{
    let ty = copy(alloc, a)?;
    Ok(Walked {
        emits: None,
        value: Some(ty),
        need: 1,
    })
}

/// `takes n`.
fn walk_takes(
    alloc: Global,
    facts: &Facts,
    notes: &mut Notes,
    a: &Ty,
    count: u64,
    at: Place,
) -> Result<Walked, AllocError>
    ensures { (vs : List Seen) → Walks (told facts.now) vs a.now (Comp.Takes count at) notes.old notes.new vs result }
{
    let element = copy(alloc, a)?;
    let ty = array_of(alloc, count, element)?;
    notes.spans(count, at);
    notes.holds(cells(facts.shapes(), &ty), at);
    Ok(Walked {
        emits: None,
        value: Some(ty),
        need: 1,
    })
}

/// `emit e`.
fn walk_emit(
    alloc: Global,
    facts: &Facts,
    scope: &Scope,
    notes: &mut Notes,
    e: &Expr,
    at: Place,
) -> Result<Walked, AllocError>
    ensures { (a : Ty) → Walks (told facts.now) scope.now a (Comp.Emit e.now at) notes.old notes.new scope.now result }
{
    note_expr(alloc, facts, scope, notes, e)?;
    let ty = type_of(alloc, facts, scope, e)?;
    notes.sends(cells(facts.shapes(), &ty), at);
    Ok(Walked {
        emits: Some(ty),
        value: Some(scalar(alloc, Base::Unit)),
        need: counted(1, expr_need(facts, e)),
    })
}

/// `emits e`.
fn walk_emits(
    alloc: Global,
    facts: &Facts,
    scope: &Scope,
    notes: &mut Notes,
    e: &Expr,
    at: Place,
) -> Result<Walked, AllocError>
    ensures { (a : Ty) → Walks (told facts.now) scope.now a (Comp.Emits e.now at) notes.old notes.new scope.now result }
{
    note_expr(alloc, facts, scope, notes, e)?;
    let whole = type_of(alloc, facts, scope, e)?;
    let ty = element_of(alloc, &whole)?;
    notes.sends(cells(facts.shapes(), &ty), at);
    Ok(Walked {
        emits: Some(ty),
        value: Some(scalar(alloc, Base::Unit)),
        need: counted(1, expr_need(facts, e)),
    })
}

/// `return e`.
fn walk_return(
    alloc: Global,
    facts: &Facts,
    scope: &Scope,
    notes: &mut Notes,
    e: &Expr,
) -> Result<Walked, AllocError>
    ensures { (a : Ty) (at : Place) →
        Walks (told facts.now) scope.now a (Comp.Return e.now at) notes.old notes.new scope.now result }
{
    note_expr(alloc, facts, scope, notes, e)?;
    let ty = type_of(alloc, facts, scope, e)?;
    Ok(Walked {
        emits: None,
        value: Some(ty),
        need: counted(1, expr_need(facts, e)),
    })
}

/// `do { .. }`.
fn walk_do(
    alloc: Global,
    facts: &Facts,
    scope: &mut Scope,
    notes: &mut Notes,
    body: &Body,
) -> Result<Walked, AllocError>
    ensures { (a : Ty) (at : Place) →
        Walks (told facts.now) scope.old a (Comp.Do body.now at) notes.old notes.new scope.new result }
{
    let ty = note_body(alloc, facts, scope, notes, body)?;
    Ok(Walked {
        emits: None,
        value: Some(ty),
        need: counted(1, body_need(facts, body)),
    })
}

/// `map f`.
fn walk_map(
    alloc: Global,
    facts: &Facts,
    notes: &mut Notes,
    k: u32,
    at: Place,
) -> Result<Walked, AllocError>
    ensures { (vs : List Seen) (a : Ty) (f : Ident) →
        Walks (told facts.now) vs a (Comp.Map f k at) notes.old notes.new vs result }
{
    notes.call(Target::Function(k), at)?;
    let ty = function_type(alloc, facts, k)?;
    notes.sends(cells(facts.shapes(), &ty), at);
    Ok(Walked {
        emits: Some(ty),
        value: None,
        need: counted(1, facts.function_need(k)),
    })
}

/// `filter f`.
fn walk_filter(
    alloc: Global,
    facts: &Facts,
    notes: &mut Notes,
    a: &Ty,
    k: u32,
    at: Place,
) -> Result<Walked, AllocError>
    ensures { (vs : List Seen) (f : Ident) →
        Walks (told facts.now) vs a.now (Comp.Filter f k at) notes.old notes.new vs result }
{
    notes.call(Target::Function(k), at)?;
    let ty = copy(alloc, a)?;
    notes.sends(cells(facts.shapes(), &ty), at);
    Ok(Walked {
        emits: Some(ty),
        value: None,
        need: counted(1, facts.function_need(k)),
    })
}

/// A call of a `fun comp`.
fn walk_call(
    alloc: Global,
    facts: &Facts,
    scope: &Scope,
    notes: &mut Notes,
    f: &Ident,
    k: u32,
    es: &[Expr],
) -> Result<Walked, AllocError>
    ensures { (a : Ty) →
        Walks (told facts.now) scope.now a (Comp.Call f.now k es.now) notes.old notes.new scope.now result }
{
    notes.call(Target::Instance(k), f.at)?;
    note_exprs(alloc, facts, scope, notes, es)?;
    let need = facts.instance_need(k);
    match sqlite_items::at(facts.instances(), k as usize) {
        None => Ok(Walked {
            emits: None,
            value: None,
            need,
        }),
        Some(instance) => {
            let emits = copy_some(alloc, &instance.emits)?;
            let value = copy_some(alloc, &instance.value)?;
            Ok(Walked { emits, value, need })
        }
    }
}

/// A component at its input type.
#[cycle(components)]
pub fn walk_comp(
    alloc: Global,
    facts: &Facts,
    scope: &mut Scope,
    notes: &mut Notes,
    a: &Ty,
    c: &Comp,
) -> Result<Walked, AllocError>
    ensures { Walks (told facts.now) scope.old a.now c.now notes.old notes.new scope.new result }
{
    match c {
        Comp::Take(_) => walk_take(alloc, a),
        Comp::Takes(count, at) => walk_takes(alloc, facts, notes, a, *count, *at),
        Comp::Emit(e, at) => walk_emit(alloc, facts, scope, notes, e, *at),
        Comp::Emits(e, at) => walk_emits(alloc, facts, scope, notes, e, *at),
        Comp::Return(e, _) => walk_return(alloc, facts, scope, notes, e),
        Comp::Do(body, _) => walk_do(alloc, facts, scope, notes, body),
        Comp::Repeat(inner, _) => walk_repeat(alloc, facts, scope, notes, a, inner.get()),
        Comp::While(_, e, inner, _) => walk_while(alloc, facts, scope, notes, a, inner.get(), e),
        Comp::Times(e, inner, _) => walk_times(alloc, facts, scope, notes, a, inner.get(), e),
        Comp::For(x, e, n, inner, _) => {
            walk_for(alloc, facts, scope, notes, a, inner.get(), x, e, n)
        }
        Comp::If(e, inner, other, _) => {
            let first = walk_then(alloc, facts, scope, notes, a, inner.get(), e)?;
            walk_else(alloc, facts, scope, notes, a, other.get(), e, first)
        }
        Comp::Map(_, k, at) => walk_map(alloc, facts, notes, *k, *at),
        Comp::Filter(_, k, at) => walk_filter(alloc, facts, notes, a, *k, *at),
        Comp::Call(f, k, es) => walk_call(alloc, facts, scope, notes, f, *k, es.as_slice()),
        Comp::Block(ms, _) => walk_block(alloc, facts, scope, notes, a, ms.as_slice()),
        Comp::Pipe(link, left, right, at) => {
            let led = walk_left(alloc, facts, scope, notes, a, left.get(), *link, *at)?;
            walk_right(alloc, facts, scope, notes, right.get(), led)
        }
    }
}

/// `repeat c`.
#[cycle(components)]
fn walk_repeat(
    alloc: Global,
    facts: &Facts,
    scope: &mut Scope,
    notes: &mut Notes,
    a: &Ty,
    inner: &Comp,
) -> Result<Walked, AllocError>
    ensures { (at : Place) →
        Walks (told facts.now) scope.old a.now (Comp.Repeat inner.now at) notes.old notes.new scope.new result }
{
    let inner = walk_comp(alloc, facts, scope, notes, a, inner)?;
    Ok(Walked {
        emits: inner.emits,
        value: None,
        need: counted(inner.need, 3),
    })
}

/// `while (e) c` and `until (e) c`.
#[cycle(components)]
fn walk_while(
    alloc: Global,
    facts: &Facts,
    scope: &mut Scope,
    notes: &mut Notes,
    a: &Ty,
    inner: &Comp,
    e: &Expr,
) -> Result<Walked, AllocError>
    ensures { (turning : Turning) (at : Place) →
        Walks (told facts.now) scope.old a.now (Comp.While turning e.now inner.now at) notes.old notes.new scope.new result }
{
    note_expr(alloc, facts, scope, notes, e)?;
    let inner = walk_comp(alloc, facts, scope, notes, a, inner)?;
    Ok(Walked {
        emits: inner.emits,
        value: Some(scalar(alloc, Base::Unit)),
        need: counted(inner.need, 3),
    })
}

/// `times (e) c`.
#[cycle(components)]
fn walk_times(
    alloc: Global,
    facts: &Facts,
    scope: &mut Scope,
    notes: &mut Notes,
    a: &Ty,
    inner: &Comp,
    e: &Expr,
) -> Result<Walked, AllocError>
    ensures { (at : Place) →
        Walks (told facts.now) scope.old a.now (Comp.Times e.now inner.now at) notes.old notes.new scope.new result }
{
    note_expr(alloc, facts, scope, notes, e)?;
    let inner = walk_comp(alloc, facts, scope, notes, a, inner)?;
    Ok(Walked {
        emits: inner.emits,
        value: Some(scalar(alloc, Base::Unit)),
        need: counted(inner.need, 3),
    })
}

/// `for x in [e, n] c`, whose index is in scope in its body.
#[cycle(components)]
fn walk_for(
    alloc: Global,
    facts: &Facts,
    scope: &mut Scope,
    notes: &mut Notes,
    a: &Ty,
    inner: &Comp,
    x: &Ident,
    e: &Expr,
    n: &Expr,
) -> Result<Walked, AllocError>
    ensures { (at : Place) →
        Walks (told facts.now) scope.old a.now (Comp.For x.now e.now n.now inner.now at) notes.old notes.new scope.new result }
{
    note_expr(alloc, facts, scope, notes, e)?;
    note_expr(alloc, facts, scope, notes, n)?;
    let before = scope.len();
    scope.declare(x.id, scalar(alloc, Base::Int32))?;
    let inner = walk_comp(alloc, facts, scope, notes, a, inner)?;
    scope.leave(before);
    Ok(Walked {
        emits: inner.emits,
        value: Some(scalar(alloc, Base::Unit)),
        need: counted(inner.need, 3),
    })
}

/// `if e then c`, the first part of an `if`.
#[cycle(components)]
fn walk_then(
    alloc: Global,
    facts: &Facts,
    scope: &mut Scope,
    notes: &mut Notes,
    a: &Ty,
    inner: &Comp,
    e: &Expr,
) -> Result<Walked, AllocError>
    ensures { Leads (told facts.now) scope.old a.now (in_expr (sight (told facts.now) scope.old) e.now) inner.now
        notes.old notes.new scope.new result }
{
    note_expr(alloc, facts, scope, notes, e)?;
    walk_comp(alloc, facts, scope, notes, a, inner)
}

/// `else d`, behind the first part of an `if`.
#[cycle(components)]
fn walk_else(
    alloc: Global,
    facts: &Facts,
    scope: &mut Scope,
    notes: &mut Notes,
    a: &Ty,
    other: &Comp,
    e: &Expr,
    first: Walked,
) -> Result<Walked, AllocError>
    ensures { Joins (either (told facts.now) e.now first (walked (told facts.now) scope.old a.now other.now))
        (told facts.now) scope.old a.now other.now notes.old notes.new scope.new result }
{
    let other = walk_comp(alloc, facts, scope, notes, a, other)?;
    Ok(Walked {
        emits: first_some(first.emits, other.emits),
        value: first.value,
        need: greater(expr_need(facts, e), greater(first.need, other.need)),
    })
}

/// The number of a `|>>>|` behind this left side.
fn note_link(notes: &mut Notes, link: Link, left: &Comp, at: Place)
    ensures { notes.new ≡ noted (in_link link (links_in left.now) at) notes.old }
{
    match link {
        Link::Serial => {}
        Link::Parallel => notes.splits(links(left) + 1, at),
    }
}

/// The left side of `c >>> d` and `c |>>>| d`.
#[cycle(components)]
fn walk_left(
    alloc: Global,
    facts: &Facts,
    scope: &mut Scope,
    notes: &mut Notes,
    a: &Ty,
    left: &Comp,
    link: Link,
    at: Place,
) -> Result<Walked, AllocError>
    ensures { Leads (told facts.now) scope.old a.now (in_link link (links_in left.now) at) left.now
        notes.old notes.new scope.new result }
{
    note_link(notes, link, left, at);
    walk_comp(alloc, facts, scope, notes, a, left)
}

/// The right side, which reads what the left side emits.
#[cycle(components)]
fn walk_right(
    alloc: Global,
    facts: &Facts,
    scope: &mut Scope,
    notes: &mut Notes,
    right: &Comp,
    first: Walked,
) -> Result<Walked, AllocError>
    ensures { Joins (piped first (walked (told facts.now) scope.old (type_of_link first.emits) right.now))
        (told facts.now) scope.old (type_of_link first.emits) right.now notes.old notes.new scope.new result }
{
    let between = link_type(alloc, first.emits);
    let right = walk_comp(alloc, facts, scope, notes, &between, right)?;
    let both = first.need.saturating_add(right.need);
    Ok(Walked {
        emits: right.emits,
        value: first_some(first.value, right.value),
        need: counted(both, 2),
    })
}

/// A block.
#[cycle(components)]
fn walk_block(
    alloc: Global,
    facts: &Facts,
    scope: &mut Scope,
    notes: &mut Notes,
    a: &Ty,
    ms: &[Member],
) -> Result<Walked, AllocError>
    ensures { (at : Place) →
        Walks (told facts.now) scope.old a.now (Comp.Block ms.now at) notes.old notes.new scope.new result }
{
    let before = scope.len();
    let mut so_far = Members {
        emits: None,
        value: Some(scalar(alloc, Base::Unit)),
        cells: 0,
        most: 0,
    };
    for m in ms {
        so_far = walk_member(alloc, facts, scope, notes, a, so_far, m)?;
    }
    scope.leave(before);
    Ok(Walked {
        emits: so_far.emits,
        value: so_far.value,
        need: counted(so_far.cells, so_far.most),
    })
}

/// A member of a block, behind those before it.
#[cycle(components)]
fn walk_member(
    alloc: Global,
    facts: &Facts,
    scope: &mut Scope,
    notes: &mut Notes,
    a: &Ty,
    so_far: Members,
    m: &Member,
) -> Result<Members, AllocError>
    ensures { Steps (told facts.now) scope.old a.now so_far m.now notes.old notes.new scope.new result }
{
    match m {
        Member::Bind(x, c) => walk_bind(alloc, facts, scope, notes, a, so_far, x, c),
        Member::Var(v) => walk_var(alloc, facts, scope, notes, so_far, v),
        Member::Run(c) => walk_run(alloc, facts, scope, notes, a, so_far, c),
    }
}

/// `x <- c`, whose name is in scope behind it.
#[cycle(components)]
fn walk_bind(
    alloc: Global,
    facts: &Facts,
    scope: &mut Scope,
    notes: &mut Notes,
    a: &Ty,
    so_far: Members,
    x: &Ident,
    c: &Comp,
) -> Result<Members, AllocError>
    ensures { Steps (told facts.now) scope.old a.now so_far (Member.Bind x.now c.now)
        notes.old notes.new scope.new result }
{
    let walked = walk_comp(alloc, facts, scope, notes, a, c)?;
    let ty = copy_or_unit(alloc, &walked.value)?;
    let held = cells(facts.shapes(), &ty);
    scope.declare(x.id, ty)?;
    Ok(Members {
        emits: first_some(so_far.emits, walked.emits),
        value: walked.value,
        cells: counted(so_far.cells, held),
        most: greater(so_far.most, walked.need),
    })
}

/// A variable, which is in scope behind it.
fn walk_var(
    alloc: Global,
    facts: &Facts,
    scope: &mut Scope,
    notes: &mut Notes,
    so_far: Members,
    v: &Var,
) -> Result<Members, AllocError>
    ensures { (a : Ty) →
        Steps (told facts.now) scope.old a so_far (Member.Var v.now) notes.old notes.new scope.new result }
{
    note_var(alloc, facts, scope, notes, v)?;
    declare_var(alloc, scope, v)?;
    Ok(Members {
        emits: so_far.emits,
        value: Some(scalar(alloc, Base::Unit)),
        cells: counted(so_far.cells, written_cells(facts.shapes(), &v.ty)),
        most: greater(so_far.most, initial_need(facts, &v.initial)),
    })
}

/// A component as a member.
#[cycle(components)]
fn walk_run(
    alloc: Global,
    facts: &Facts,
    scope: &mut Scope,
    notes: &mut Notes,
    a: &Ty,
    so_far: Members,
    c: &Comp,
) -> Result<Members, AllocError>
    ensures { Steps (told facts.now) scope.old a.now so_far (Member.Run c.now) notes.old notes.new scope.new result }
{
    let walked = walk_comp(alloc, facts, scope, notes, a, c)?;
    Ok(Members {
        emits: first_some(so_far.emits, walked.emits),
        value: walked.value,
        cells: so_far.cells,
        most: greater(so_far.most, walked.need),
    })
}

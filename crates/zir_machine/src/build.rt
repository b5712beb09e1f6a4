// Makes the nodes of a component.

ghost use Rattle.std.specs.Prelude.{◌≡◌, IfOk, map};
ghost use Rattle.zir_machine.specs.Understood.{members_of};
ghost use Rattle.zir_machine.specs.Nodes.{comp_of, held};

use crate::node::{Link, Loop, Node, Part};
use crate::progress::{Base, Focus, Progress, Span, Waits};
use sqlite_items::Boxed;
use std::alloc::{AllocError, Global};
use zir_bit_tree::tree::{Comp, Expr, Member};
use zir_tree::ident::Ident;
use zir_tree::name::Name;

/// A copy of a name.
fn copy_ident(alloc: Global, ident: &Ident) -> Result<Ident, AllocError>
    ensures { IfOk result (λ copy. copy ≡ ident.now) }
{
    Ok(Ident {
        name: Name::from_slice(alloc, ident.name.as_slice())?,
        id: ident.id,
        at: ident.at,
    })
}

/// A copy of a name, where there is one.
fn copy_bound(alloc: Global, bound: &Option<Ident>) -> Result<Option<Ident>, AllocError>
    ensures { IfOk result (λ copy. copy ≡ bound.now) }
{
    match bound {
        None => Ok(None),
        Some(ident) => {
            let copy = copy_ident(alloc, ident)?;
            Ok(Some(copy))
        }
    }
}

/// A copy of an expression.
#[cycle(copying)]
fn copy_expr(alloc: Global, e: &Expr) -> Result<Expr, AllocError>
    ensures { IfOk result (λ copy. copy ≡ e.now) }
{
    match e {
        Expr::Unit(at) => Ok(Expr::Unit(*at)),
        Expr::Bit(b, at) => Ok(Expr::Bit(*b, *at)),
        Expr::Variable(ident) => {
            let copy = copy_ident(alloc, ident)?;
            Ok(Expr::Variable(copy))
        }
        Expr::Xor(a, b, at) => {
            let left = copy_boxed(alloc, a)?;
            let right = copy_boxed(alloc, b)?;
            Ok(Expr::Xor(left, right, *at))
        }
    }
}

/// A copy of an expression in a box.
#[cycle(copying)]
fn copy_boxed(alloc: Global, e: &Boxed<Expr>) -> Result<Boxed<Expr>, AllocError>
    ensures { IfOk result (λ copy. copy ≡ e.now) }
{
    let copy = copy_expr(alloc, e.get())?;
    Boxed::new(alloc, copy)
}

/// A component that has not begun and has no ticks.
fn fresh() -> Progress {
    Progress {
        focus: Focus::Begin,
        taken: 0,
        ticks: 0,
        left: 0,
    }
}

/// The nodes of a component, none of which has begun.
#[cycle(building)]
pub fn build(alloc: Global, c: &Comp) -> Result<Node, AllocError>
    ensures { IfOk result (λ node. comp_of node ≡ c.now) }
{
    match c {
        Comp::Take(place) => Ok(Node::Take(*place)),
        Comp::Emit(e, place) => {
            let e = copy_expr(alloc, e)?;
            Ok(Node::Emit(e, *place))
        }
        Comp::Return(e, place) => {
            let e = copy_expr(alloc, e)?;
            Ok(Node::Return(e, *place))
        }
        Comp::Block(members, place) => {
            let parts = build_parts(alloc, members.as_slice())?;
            let span = Span {
                at: 0,
                base: 0,
                place: *place,
            };
            Ok(Node::Block(parts, span))
        }
        Comp::Repeat(body, place) => {
            let body = build(alloc, body.get())?;
            let body = Box::new(
                alloc,
                Loop {
                    body,
                    place: *place,
                },
            )?;
            Ok(Node::Repeat(body))
        }
        Comp::Pipe(left, right, place) => {
            let left = build(alloc, left.get())?;
            let right = build(alloc, right.get())?;
            let link = Box::new(
                alloc,
                Link {
                    left,
                    right,
                    left_progress: fresh(),
                    left_store: Vec::new(alloc),
                    right_progress: fresh(),
                    base: Base { taken: 0, ticks: 0 },
                    depth: 0,
                    waits: Waits::Neither,
                    place: *place,
                },
            )?;
            Ok(Node::Pipe(link))
        }
    }
}

/// The parts of a block.
#[cycle(building)]
fn build_parts(alloc: Global, members: &[Member]) -> Result<Vec<Part>, AllocError>
    ensures { IfOk result (λ parts. members_of (map held parts.items) ≡ members.now) }
{
    let mut parts = Vec::new(alloc);
    for member in members {
        let part = build_part(alloc, member)?;
        parts.push(part)?;
    }
    Ok(parts)
}

/// A part of a block.
#[cycle(building)]
fn build_part(alloc: Global, member: &Member) -> Result<Part, AllocError>
    ensures bound { IfOk result (λ part. (held part).bound ≡ member.now.bound) }
    ensures what { IfOk result (λ part. (held part).meant.what ≡ member.now.what) }
{
    let bound = copy_bound(alloc, &member.bound)?;
    let node = build(alloc, &member.what)?;
    Ok(Part { bound, node })
}

// From an accepted program to the program over bits that it is.

ghost use Rattle.std.specs.Prelude.{◌≡◌, ◌++◌, ◌∷◌, [], IfOk, OnOk, None};
ghost use Rattle.zir_bit_tree.specs.declared.tree.Expr.{Variable, Xor};
ghost use Rattle.zir_bit_tree.specs.declared.tree.Comp.{Pipe, Repeat};
ghost use Rattle.zir_tree.specs.declared.comp.Comp.{Block};
ghost use Rattle.zir_narrow.specs.declared.narrow.NarrowError.TheVariants.{Memory};
ghost use Rattle.zir_narrow.specs.Narrow.{Told, Fine, and_then, allowed, behind, body as body_of, bound_member, component as component_of};
ghost use Rattle.zir_narrow.specs.Narrow.{declaration_place as place_of_declaration};
ghost use Rattle.zir_narrow.specs.Narrow.{expr, is_bit, is_bit_xor, is_bound, is_serial, member, named, narrow, no_declarations, no_variables, of_bits};
ghost use Rattle.zir_narrow.specs.Narrow.{place_of, plain_member, returned};

use sqlite_items::{Boxed, Items};
use std::alloc::{AllocError, AllocFailed, Global};
use zir_bit_tree::tree as bits;
use zir_tree::comp::{Comp, Link, Member};
use zir_tree::expr::{Expr, Operator};
use zir_tree::ident::Ident;
use zir_tree::name::Name;
use zir_tree::place::Place;
use zir_tree::program::{Core, Decl, Prog};
use zir_tree::stmt::Var;
use zir_tree::types::{Base, Ty};

/// Why a program is none over bits.
#[derive(Clone, Copy, Debug, PartialEq, Eq)]
pub enum NarrowError {
    /// At this place stands the first form that is none.
    Unbuilt(Place),
    /// Memory ran out.
    Memory,
}

impl From<AllocError> for NarrowError {
    ghost from_gives = { λ _ e. e ≡ Memory };

    fn from(_error: AllocError) -> NarrowError {
        NarrowError::Memory
    }
}

impl<T: Drop> From<AllocFailed<T>> for NarrowError {
    ghost from_gives = { λ _ e. e ≡ Memory };

    fn from(_error: AllocFailed<T>) -> NarrowError {
        NarrowError::Memory
    }
}

/// The program over bits that an accepted program is. `p` is the program as it was read, `core` what it was accepted as.
/// `Unbuilt` comes exactly where it is no program over bits, at the place of the first form of the text that is none;
/// `Memory` comes where memory runs out.
pub fn narrow_program(alloc: Global, p: &Prog, core: &Core) -> Result<bits::Prog, NarrowError>
    ensures { Told (narrow p.now core.now) result }
{
    check_declarations(p.declarations.as_slice())?;
    check_variables(core.variables.as_slice())?;
    check_type(&core.input, p.input.at)?;
    let main = component(alloc, &core.main)?;
    check_type(&core.output, p.output.at)?;
    Ok(bits::Prog {
        input: bits::Ty::Bit,
        main,
        output: bits::Ty::Bit,
    })
}

/// A program over bits has no declarations.
fn check_declarations(declarations: &[Decl]) -> Result<(), NarrowError>
    ensures { Told (no_declarations declarations.now) result }
{
    match declarations {
        [] => Ok(()),
        [first, ..] => Err(NarrowError::Unbuilt(place_of_decl(first))),
    }
}

/// A program over bits has no top variables.
fn check_variables(variables: &[Var]) -> Result<(), NarrowError>
    ensures { Told (no_variables variables.now) result }
{
    match variables {
        [] => Ok(()),
        [first, ..] => Err(NarrowError::Unbuilt(first.at)),
    }
}

/// What is read or written is bits.
fn check_type(ty: &Ty, at: Place) -> Result<(), NarrowError>
    ensures { Told (of_bits ty.now at) result }
{
    check(is_bit_type(ty.lengths.as_slice(), ty.base), at)
}

fn is_bit_type(lengths: &[u64], base: Base) -> bool
    ensures { result ≡ is_bit lengths.now base }
{
    match lengths {
        [] => matches!(base, Base::Bit),
        [_, ..] => false,
    }
}

/// This place, where something may not stand there.
fn check(may: bool, at: Place) -> Result<(), NarrowError>
    ensures { Told (allowed may at tt) result }
{
    if may {
        Ok(())
    } else {
        Err(NarrowError::Unbuilt(at))
    }
}

/// The place of a declaration.
fn place_of_decl(declaration: &Decl) -> Place
    ensures { result ≡ place_of_declaration declaration.now }
{
    match declaration {
        Decl::Var(v) => v.at,
        Decl::Struct(s) => s.at,
        Decl::Function(f) => f.at,
        Decl::Comp(f) => f.at,
    }
}

/// The place of a component.
fn place(c: &Comp) -> Place
    ensures { result ≡ place_of c.now }
{
    match c {
        Comp::Call(f, _, _) => f.at,
        Comp::Take(at)
        | Comp::Takes(_, at)
        | Comp::Emit(_, at)
        | Comp::Emits(_, at)
        | Comp::Return(_, at)
        | Comp::Do(_, at)
        | Comp::Repeat(_, at)
        | Comp::While(_, _, _, at)
        | Comp::Times(_, _, at)
        | Comp::For(_, _, _, _, at)
        | Comp::If(_, _, _, at)
        | Comp::Map(_, _, at)
        | Comp::Filter(_, _, at)
        | Comp::Block(_, at)
        | Comp::Pipe(_, _, _, at) => *at,
    }
}

/// A component over bits: blocks, loops of blocks, and compositions of both.
fn component(alloc: Global, c: &Comp) -> Result<bits::Comp, NarrowError>
    ensures { Told (component_of c.now) result }
{
    match c {
        Comp::Block(members, at) => block_of(alloc, members.as_slice(), *at),
        Comp::Repeat(inner, at) => repeated(alloc, inner.get(), *at),
        Comp::Pipe(link, left, right, at) => {
            let left = component(alloc, left.get())?;
            check(is_sequence(*link), *at)?;
            let right = component(alloc, right.get())?;
            joined(alloc, left, right, *at)
        }
        other => Err(NarrowError::Unbuilt(place(other))),
    }
}

fn is_sequence(link: Link) -> bool
    ensures { result ≡ is_serial link }
{
    matches!(link, Link::Serial)
}

/// A composition of two components over bits.
fn joined(
    alloc: Global,
    left: bits::Comp,
    right: bits::Comp,
    at: Place,
) -> Result<bits::Comp, NarrowError>
    ensures { Told (Fine (Pipe left right at)) result }
{
    let left = Boxed::new(alloc, left)?;
    let right = Boxed::new(alloc, right)?;
    Ok(bits::Comp::Pipe(left, right, at))
}

/// A loop, whose body is a block.
fn repeated(alloc: Global, inner: &Comp, at: Place) -> Result<bits::Comp, NarrowError>
    ensures { Told (and_then (body_of inner.now) (λ c. Fine (Repeat c at))) result }
{
    let inner = match inner {
        Comp::Block(members, here) => block_of(alloc, members.as_slice(), *here)?,
        other => return Err(NarrowError::Unbuilt(place(other))),
    };
    Ok(bits::Comp::Repeat(Boxed::new(alloc, inner)?, at))
}

/// A block of members.
fn block_of(alloc: Global, ms: &[Member], at: Place) -> Result<bits::Comp, NarrowError>
    ensures { Told (component_of (Block ms.now at)) result }
{
    let mut made = Items::new(alloc);
    let mut bound = Vec::new(alloc);
    for (index, m) in ms.iter().enumerate() {
        let last = index + 1 == ms.len();
        let narrowed = member_of(alloc, bound.as_slice(), last, m)?;
        made.push(narrowed)?;
        enter(&mut bound, m)?;
    }
    Ok(bits::Comp::Block(made, at))
}

/// The name that a member binds is bound behind it.
fn enter(bound: &mut Vec<u32>, m: &Member) -> Result<(), AllocError>
    ensures { OnOk result (bound.new.items ≡ behind bound.old.items m.now) }
{
    match m {
        Member::Bind(x, _) => push_number(bound, x.id),
        Member::Var(_) | Member::Run(_) => Ok(()),
    }
}

fn push_number(bound: &mut Vec<u32>, id: u32) -> Result<(), AllocError>
    ensures { OnOk result (bound.new.items ≡ bound.old.items ++ id ∷ []) }
{
    bound.push(id)?;
    Ok(())
}

/// A member, which stands at the end of its block or not.
fn member_of(
    alloc: Global,
    bound: &[u32],
    last: bool,
    m: &Member,
) -> Result<bits::Member, NarrowError>
    ensures { Told (member bound.now last m.now) result }
{
    match m {
        Member::Bind(x, c) => taken_of(alloc, x, c),
        Member::Var(v) => Err(NarrowError::Unbuilt(v.at)),
        Member::Run(c) => plain_of(alloc, bound, last, c),
    }
}

/// A bound name, which is one of a `take`.
fn taken_of(alloc: Global, x: &Ident, c: &Comp) -> Result<bits::Member, NarrowError>
    ensures { Told (bound_member x.now c.now) result }
{
    match c {
        Comp::Take(at) => {
            let x = copy_ident(alloc, x)?;
            Ok(bits::Member {
                bound: Some(x),
                what: bits::Comp::Take(*at),
            })
        }
        other => Err(NarrowError::Unbuilt(place(other))),
    }
}

/// A member without a name: `take` or `emit`, and at the end of its block `emit` or `return`.
fn plain_of(alloc: Global, bound: &[u32], last: bool, c: &Comp) -> Result<bits::Member, NarrowError>
    ensures { Told (plain_member bound.now last c.now) result }
{
    match c {
        Comp::Take(at) => {
            check(!last, *at)?;
            Ok(nameless(bits::Comp::Take(*at)))
        }
        Comp::Emit(e, at) => {
            let e = expr_of(alloc, bound, e)?;
            Ok(nameless(bits::Comp::Emit(e, *at)))
        }
        Comp::Return(e, at) => {
            check(last, *at)?;
            returned_of(alloc, bound, e, *at)
        }
        other => Err(NarrowError::Unbuilt(place(other))),
    }
}

fn nameless(what: bits::Comp) -> bits::Member
    ensures { result ≡ named None what }
{
    bits::Member { bound: None, what }
}

/// What is returned: `()`, or an expression of bits.
fn returned_of(
    alloc: Global,
    bound: &[u32],
    e: &Expr,
    at: Place,
) -> Result<bits::Member, NarrowError>
    ensures { Told (returned bound.now e.now at) result }
{
    match e {
        Expr::Unit(here) => Ok(nameless(bits::Comp::Return(bits::Expr::Unit(*here), at))),
        other => {
            let e = expr_of(alloc, bound, other)?;
            Ok(nameless(bits::Comp::Return(e, at)))
        }
    }
}

/// An expression of bits and of bound names.
fn expr_of(alloc: Global, bound: &[u32], e: &Expr) -> Result<bits::Expr, NarrowError>
    ensures { Told (expr bound.now e.now) result }
{
    match e {
        Expr::Bit(bit, at) => Ok(bits::Expr::Bit(*bit, *at)),
        Expr::Variable(x) => variable(alloc, bound, x),
        Expr::Binary(operator, base, a, b, at) => {
            let a = expr_of(alloc, bound, a.get())?;
            check(is_xor_of_bits(*operator, *base), *at)?;
            let b = expr_of(alloc, bound, b.get())?;
            exclusive_or(alloc, a, b, *at)
        }
        Expr::Index(base, _, at) | Expr::Slice(base, _, _, at) | Expr::Part(base, _, _, at) => {
            let _first = expr_of(alloc, bound, base.get())?;
            Err(NarrowError::Unbuilt(*at))
        }
        Expr::Call(f, _, _) => Err(NarrowError::Unbuilt(f.at)),
        Expr::Unit(at)
        | Expr::Bool(_, at)
        | Expr::Int(_, _, at)
        | Expr::Unary(_, _, _, at)
        | Expr::Array(_, at)
        | Expr::Convert(_, _, at)
        | Expr::Complex(_, _, _, at) => Err(NarrowError::Unbuilt(*at)),
    }
}

/// A name that a member before bound.
fn variable(alloc: Global, bound: &[u32], x: &Ident) -> Result<bits::Expr, NarrowError>
    ensures { Told (allowed (is_bound bound.now x.now.id) x.now.at (Variable x.now)) result }
{
    check(contains(bound, x.id), x.at)?;
    Ok(bits::Expr::Variable(copy_ident(alloc, x)?))
}

fn contains(bound: &[u32], id: u32) -> bool
    ensures { result ≡ is_bound bound.now id }
{
    for x in bound {
        if *x == id {
            return true;
        }
    }
    false
}

fn is_xor_of_bits(operator: Operator, base: Base) -> bool
    ensures { result ≡ is_bit_xor operator base }
{
    matches!(operator, Operator::BitXor) && matches!(base, Base::Bit)
}

fn exclusive_or(
    alloc: Global,
    a: bits::Expr,
    b: bits::Expr,
    at: Place,
) -> Result<bits::Expr, NarrowError>
    ensures { Told (Fine (Xor a b at)) result }
{
    let a = Boxed::new(alloc, a)?;
    let b = Boxed::new(alloc, b)?;
    Ok(bits::Expr::Xor(a, b, at))
}

fn copy_ident(alloc: Global, x: &Ident) -> Result<Ident, AllocError>
    ensures { IfOk result (λ y. y ≡ x.now) }
{
    let name = Name::from_slice(alloc, x.name.as_slice())?;
    Ok(Ident {
        name,
        id: x.id,
        at: x.at,
    })
}

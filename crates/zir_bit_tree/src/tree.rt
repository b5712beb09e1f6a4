// Expressions, components and programs.

use sqlite_items::{Boxed, Items};
use zir_tree::ident::Ident;
use zir_tree::place::Place;

/// The type of a stream.
#[derive(Clone, Copy, Debug, PartialEq, Eq)]
pub enum Ty {
    Bit,
}

/// An expression, each form with its place.
#[derive(Debug, Drop)]
pub enum Expr {
    /// `()`.
    Unit(Place),
    /// `'0` or `'1`.
    Bit(bool, Place),
    /// A bound name.
    Variable(Ident),
    /// `a ^ b`, at the place of the operator.
    Xor(Boxed<Expr>, Boxed<Expr>, Place),
}

/// A component, each form with its place.
#[cycle(comp)]
#[derive(Debug, Drop)]
pub enum Comp {
    /// `take`.
    Take(Place),
    /// `emit e`.
    Emit(Expr, Place),
    /// `return e`.
    Return(Expr, Place),
    /// `{ c; .. }`.
    Block(Items<Member>, Place),
    /// `repeat c`.
    Repeat(Boxed<Comp>, Place),
    /// `a >>> b`, at the place of the operator.
    Pipe(Boxed<Comp>, Boxed<Comp>, Place),
}

/// A member of a block: `x <- c` or `c`.
#[cycle(comp)]
#[derive(Debug, Drop)]
pub struct Member {
    pub bound: Option<Ident>,
    pub what: Comp,
}

/// A program: its main component between the type that it reads and the type that it writes.
#[derive(Debug, Drop)]
pub struct Prog {
    pub input: Ty,
    pub main: Comp,
    pub output: Ty,
}

// Components.

use crate::expr::Expr;
use crate::ident::Ident;
use crate::place::Place;
use crate::stmt::{Body, Var};
use sqlite_items::{Boxed, Items};

/// Whether a loop turns while its condition holds or until it does.
#[derive(Clone, Copy, Debug, PartialEq, Eq)]
pub enum Turning {
    While,
    Until,
}

/// How the sides of a composition are joined.
#[derive(Clone, Copy, Debug, PartialEq, Eq)]
pub enum Link {
    /// `>>>`
    Serial,
    /// `|>>>|`, whose sides may run in threads of their own.
    Parallel,
}

/// A component, each form with its place. Typing fills in the places of functions and instances, which are 0 before.
#[cycle(comp)]
#[derive(Debug, Drop)]
pub enum Comp {
    /// `take`.
    Take(Place),
    /// `takes n`.
    Takes(u64, Place),
    /// `emit e`.
    Emit(Expr, Place),
    /// `emits e`.
    Emits(Expr, Place),
    /// `return e`.
    Return(Expr, Place),
    /// `do { .. }`.
    Do(Body, Place),
    /// `repeat c`.
    Repeat(Boxed<Comp>, Place),
    /// `while (e) c` or `until (e) c`.
    While(Turning, Expr, Boxed<Comp>, Place),
    /// `times (e) c`.
    Times(Expr, Boxed<Comp>, Place),
    /// `for x in [a, n] c`.
    For(Ident, Expr, Expr, Boxed<Comp>, Place),
    /// `if e then a else b`.
    If(Expr, Boxed<Comp>, Boxed<Comp>, Place),
    /// `map f`, with the function's place among all functions.
    Map(Ident, u32, Place),
    /// `filter f`, with the function's place among all functions.
    Filter(Ident, u32, Place),
    /// `c(a, b)`, at the place of the name, with the place of the instance among all instances.
    Call(Ident, u32, Items<Expr>),
    /// `{ c; .. }`.
    Block(Items<Member>, Place),
    /// `a >>> b` or `a |>>>| b`, at the place of the operator.
    Pipe(Link, Boxed<Comp>, Boxed<Comp>, Place),
}

/// A member of a block.
#[cycle(comp)]
#[derive(Debug, Drop)]
pub enum Member {
    /// `x <- c`.
    Bind(Ident, Comp),
    /// `var x : T`, with or without a value.
    Var(Var),
    /// `c`.
    Run(Comp),
}

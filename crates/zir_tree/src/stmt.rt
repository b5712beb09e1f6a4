// Statements, and what variables are declared as.

use crate::expr::Expr;
use crate::ident::Ident;
use crate::name::Name;
use crate::place::Place;
use crate::types::TypeExpr;
use sqlite_items::Items;

/// `var x : T` or `var x : T := e`, at the place of `var`.
#[derive(Debug, Drop)]
pub struct Var {
    pub name: Ident,
    pub ty: TypeExpr,
    pub initial: Option<Expr>,
    pub at: Place,
}

/// A step of the path to what an assignment changes.
#[derive(Debug, Drop)]
pub enum Access {
    /// `[i]`, at the place of the bracket.
    Index(Expr, Place),
    /// `[i, k]`, at the place of the bracket.
    Slice(Expr, u64, Place),
    /// `.x`, at the place of the dot, with the field's place from 0, which typing fills in.
    Part(Name, u32, Place),
}

/// A statement. An assignment and a call stand at the place of their name.
#[derive(Debug, Drop)]
pub enum Stmt {
    /// `var x : T`, with or without a value.
    Var(Var),
    /// `x[i].y := e`.
    Assign(Ident, Items<Access>, Expr),
    /// `f(a, b)`, with the function's place among all functions, which typing fills in.
    Call(Ident, u32, Items<Expr>),
    /// `error "text"`.
    Error(Name, Place),
    /// `if e then { .. }`.
    If(Expr, Items<Stmt>, Place),
    /// `if e then { .. } else { .. }`.
    IfElse(Expr, Items<Stmt>, Items<Stmt>, Place),
    /// `while (e) { .. }`.
    While(Expr, Items<Stmt>, Place),
    /// `for x in [a, n] { .. }`.
    For(Ident, Expr, Expr, Items<Stmt>, Place),
}

/// `return e` at the end of a body.
#[derive(Debug, Drop)]
pub struct Return {
    pub value: Expr,
    pub at: Place,
}

/// The statements of a function or of a `do`, and the value that it returns.
#[derive(Debug, Drop)]
pub struct Body {
    pub statements: Items<Stmt>,
    pub result: Option<Return>,
}

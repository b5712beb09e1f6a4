// Parts of a program with their types.

use crate::scope::Seen;
use sqlite_items::Items;
use zir_tree::comp::Comp;
use zir_tree::expr::{Callee, Expr};
use zir_tree::stmt::{Access, Body, Stmt, Var};
use zir_tree::types::{Field, Ty, TypeExpr};

/// An expression with its type.
#[derive(Debug, Drop)]
pub struct Typed {
    pub what: Expr,
    pub ty: Ty,
}

/// Expressions with their types, in order.
#[derive(Debug, Drop)]
pub struct Args {
    pub whats: Items<Expr>,
    pub types: Items<Ty>,
}

/// What a call in an expression calls: its place among those of its kind, and the types of its parameters and of its result.
#[derive(Debug, Drop)]
pub struct Called {
    pub callee: Callee,
    pub params: Items<Ty>,
    pub result: Ty,
}

/// A part of a complex number or a field of a struct: its place and its type.
#[derive(Debug, Drop)]
pub struct Selected {
    pub place: u32,
    pub ty: Ty,
}

/// A type as the text writes it, with the places of structs, and the type that it is.
#[derive(Debug, Drop)]
pub struct Written {
    pub what: TypeExpr,
    pub ty: Ty,
}

/// The declaration of a variable with its type.
#[derive(Debug, Drop)]
pub struct TypedVar {
    pub what: Var,
    pub ty: Ty,
}

/// The path to what an assignment changes, and the type of it.
#[derive(Debug, Drop)]
pub struct Path {
    pub steps: Items<Access>,
    pub ty: Ty,
}

/// A statement, and what it brings into scope behind it.
#[derive(Debug, Drop)]
pub struct Step {
    pub what: Stmt,
    pub declares: Items<Seen>,
}

/// A body with the type of its value.
#[derive(Debug, Drop)]
pub struct TypedBody {
    pub what: Body,
    pub ty: Ty,
}

/// Parameters: with the places of structs, their types, and what they bring into scope.
#[derive(Debug, Drop)]
pub struct Heading {
    pub fields: Items<Field>,
    pub types: Items<Ty>,
    pub seen: Items<Seen>,
}

/// A component with its types: of what it emits, if anything, and of its value where it is a computer.
#[derive(Debug, Drop)]
pub struct TypedComp {
    pub what: Comp,
    pub emits: Option<Ty>,
    pub value: Option<Ty>,
}

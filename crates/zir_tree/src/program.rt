// Declarations and programs.

use crate::comp::Comp;
use crate::ident::Ident;
use crate::place::Place;
use crate::stmt::{Body, Var};
use crate::types::{Field, StructDef, Ty, TypeExpr};
use sqlite_items::Items;

/// `struct S = { x : T; .. }`, at the place of `struct`.
#[derive(Debug, Drop)]
pub struct Struct {
    pub name: Ident,
    pub fields: Items<Field>,
    pub at: Place,
}

/// `fun f(x : T) : U { .. }`, at the place of `fun`. Without a result type it gives unit.
#[derive(Debug, Drop)]
pub struct Function {
    pub name: Ident,
    pub params: Items<Field>,
    pub result: Option<TypeExpr>,
    pub body: Body,
    pub at: Place,
}

/// `fun comp c(x : T) { .. }`, at the place of `fun`; its body is a block.
#[derive(Debug, Drop)]
pub struct CompFunction {
    pub name: Ident,
    pub params: Items<Field>,
    pub body: Comp,
    pub at: Place,
}

/// A declaration at the top of a program.
#[derive(Debug, Drop)]
pub enum Decl {
    Var(Var),
    Struct(Struct),
    Function(Function),
    Comp(CompFunction),
}

/// A program: its declarations, and its main component between the type that it reads and the type that it writes, with
/// the place of `let`.
#[derive(Debug, Drop)]
pub struct Prog {
    pub declarations: Items<Decl>,
    pub input: TypeExpr,
    pub main: Comp,
    pub output: TypeExpr,
    pub at: Place,
}

/// A `fun comp` at an input type, by the number of its declaration: what it emits, if anything, and its value where it is a
/// computer. It calls only instances before it.
#[derive(Debug, Drop)]
pub struct Instance {
    pub declaration: u32,
    pub input: Ty,
    pub params: Items<Field>,
    pub body: Comp,
    pub emits: Option<Ty>,
    pub value: Option<Ty>,
}

/// A program that typing has accepted: its structs, its top variables, its functions and its instances, each in the order
/// in which they are declared or typed, and its main component with its types. A function calls only those before it.
#[derive(Debug, Drop)]
pub struct Core {
    pub structs: Items<StructDef>,
    pub variables: Items<Var>,
    pub functions: Items<Function>,
    pub instances: Items<Instance>,
    pub main: Comp,
    pub input: Ty,
    pub output: Ty,
    pub value: Option<Ty>,
    pub at: Place,
}

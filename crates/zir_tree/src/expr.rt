// Expressions.

use crate::ident::Ident;
use crate::name::Name;
use crate::place::Place;
use crate::types::Base;
use sqlite_items::{Boxed, Items};

/// An operator before its operand.
#[derive(Clone, Copy, Debug, PartialEq, Eq)]
pub enum Prefix {
    /// `-`
    Minus,
    /// `~`
    Complement,
    /// `not`
    Not,
}

/// An operator between two sides.
#[derive(Clone, Copy, Debug, PartialEq, Eq)]
pub enum Operator {
    /// `||`
    Or,
    /// `&&`
    And,
    /// `|`
    BitOr,
    /// `^`
    BitXor,
    /// `&`
    BitAnd,
    /// `==`
    Equal,
    /// `!=`
    NotEqual,
    /// `<`
    Less,
    /// `<=`
    LessEqual,
    /// `>`
    Greater,
    /// `>=`
    GreaterEqual,
    /// `<<`
    ShiftLeft,
    /// `>>`
    ShiftRight,
    /// `+`
    Add,
    /// `-`
    Subtract,
    /// `*`
    Multiply,
    /// `/`
    Divide,
    /// `%`
    Remainder,
}

/// What a call in an expression calls: a function or a struct, by its place among those of its kind, from 0. Typing fills
/// it in; it is `Function(0)` before.
#[derive(Clone, Copy, Debug, PartialEq, Eq)]
pub enum Callee {
    Function(u32),
    Struct(u32),
}

/// An expression, each form with its place. Typing fills in the types of whole numbers and operators, which are `Unit`
/// before, what calls call, and the places of fields, which are 0 before.
#[derive(Debug, Drop)]
pub enum Expr {
    /// `()`.
    Unit(Place),
    /// `'0` or `'1`.
    Bit(bool, Place),
    /// `false` or `true`.
    Bool(bool, Place),
    /// A whole number of a type: 0 to 2^63 in a text, and with its sign once typing has joined it with a `-` before it.
    Int(i128, Base, Place),
    /// A variable, a parameter or a bound name.
    Variable(Ident),
    /// `- e`, `~ e` or `not e` with the type of e, at the place of the operator.
    Unary(Prefix, Base, Boxed<Expr>, Place),
    /// `a + b` and its like with the type of a, at the place of the operator.
    Binary(Operator, Base, Boxed<Expr>, Boxed<Expr>, Place),
    /// `a[i]`, at the place of the bracket.
    Index(Boxed<Expr>, Boxed<Expr>, Place),
    /// `a[i, k]`, at the place of the bracket.
    Slice(Boxed<Expr>, Boxed<Expr>, u64, Place),
    /// `e.x`, at the place of the dot, with the field's place from 0; the real part has 0 and the imaginary part 1.
    Part(Boxed<Expr>, Name, u32, Place),
    /// `f(a, b)`, at the place of the name.
    Call(Ident, Callee, Items<Expr>),
    /// `{a, b}`.
    Array(Items<Expr>, Place),
    /// `int8(e)` and its like.
    Convert(Base, Boxed<Expr>, Place),
    /// `complex16(a, b)` and its like.
    Complex(Base, Boxed<Expr>, Boxed<Expr>, Place),
}

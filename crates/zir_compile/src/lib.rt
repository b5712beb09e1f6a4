//! The code of expressions, statements and functions over typed trees, made once at opening.
#![tactic(auto)]

mod assignments;
mod calm;
pub mod expressions;
pub mod extent;
pub mod functions;
pub mod made;
pub mod moves;
pub mod numbers;
mod operations;
mod operators;
pub mod paths;
pub mod scope;
pub mod statements;
pub mod structs;

ghost use Rattle.zir_compile.specs.Signing.{TypedAreSigned};

/// Functions that are well typed in the cells of the signatures that are made for them have these signatures, so that
/// their code does what they mean.
pub fn typed_are_signed()
    ensures { TypedAreSigned }
{}

//! From a program's tree to the same tree with its names resolved: every declaration has a number, and every use has the
//! number of its declaration.
#![tactic(auto)]

mod component;
mod error;
mod expression;
mod program;
mod scope;
mod statement;

pub use error::NameError;
pub use program::{Named, resolve};

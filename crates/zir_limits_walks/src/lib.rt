//! Limits: whether a program that typing has accepted stays within the limits of the language, and else the first that it
//! passes.
#![tactic(auto)]

mod bodies;
mod component;
mod depth;
mod error;
mod found;
mod program;
mod statement;
mod structs;

pub use error::LimitError;
pub use program::limits;

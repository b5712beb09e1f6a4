//! Elements that are taken one after the other, out of memory or out of bytes in a format. An element is its cells here: an
//! i64 for each number, the real part of a complex number first.
#![tactic(auto)]

pub mod elements;
mod gatherer;
pub mod memory;
mod numbers;
mod reader;

pub use reader::{Reader, SourceElements};

#[cfg(test)]
mod tests;

ghost use Rattle.zir_reader.specs.Laws.{ElementsHaveTheirType};

/// The elements that bytes spell have the shape of their type.
pub fn elements_have_their_type()
    ensures { ElementsHaveTheirType }
{}

//! The parser of the whole language: from tokens to a program, or to the first token that is wrong.
#![tactic(auto)]

pub mod enclosure;
pub mod error;
pub mod laws;
pub mod stop;
pub mod types;
pub mod wanted;
pub mod words;

//! The parser of the whole language, by recursive descent: components, declarations and programs.
#![tactic(auto)]

mod components;
mod declarations;
mod heads;
mod loops;
mod main_chain;
mod members;
pub mod program;
#[cfg(test)]
mod tests;

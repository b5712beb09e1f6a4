//! Expressions and statements from tokens: the functions that read them, whatever stands behind.
#![tactic(auto)]

pub mod expressions;
pub mod statements;
#[cfg(test)]
mod tests;

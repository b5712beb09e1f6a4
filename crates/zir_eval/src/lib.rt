//! Evaluation over an opened program: expressions and statements by their code, single variables and initial values, without memory.
#![tactic(auto)]

pub mod evaluation;
pub mod initials;
pub mod opening;
#[cfg(test)]
mod tests;
pub mod variables;

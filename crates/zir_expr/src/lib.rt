//! Expressions and statements on cells: what operators compute on them, and the steps that a program runs as.
#![tactic(auto)]

pub mod complex;
pub mod frame;
pub mod scalar;
pub mod steps;
#[cfg(test)]
mod tests;
pub mod truth;
pub mod whole;

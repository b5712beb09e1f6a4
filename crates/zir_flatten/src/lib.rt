//! Makes the flat code of a whole program, once at opening, as it is defined.
#![tactic(auto)]

mod backs;
pub mod components;
pub mod flow;
pub mod instances;
mod layouts;
mod leaves;
mod loops;
mod members;
mod pipes;
pub mod places;
pub mod program;
#[cfg(test)]
mod tests;
mod types;

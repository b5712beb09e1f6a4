//! What the functions, the instances and the components of a program assign, as sets of variables.
#![tactic(auto)]

pub mod assigned;
pub mod sets;
#[cfg(test)]
mod tests;

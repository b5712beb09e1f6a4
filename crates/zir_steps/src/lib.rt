//! What a worker is: an object that runs a component over elements that are handed in.
#![tactic(auto)]

pub mod answer;
pub mod worker;

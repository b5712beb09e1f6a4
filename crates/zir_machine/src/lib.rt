//! A machine that runs a component piece by piece: it stops at each output, each need and its end.
#![tactic(auto)]

pub mod build;
pub mod eval;
pub mod machine;
pub mod node;
pub mod progress;

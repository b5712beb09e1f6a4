//! The walk that gives a program its types, with the instances of its `fun comp`s, or the first refusal.
#![tactic(auto)]

pub mod program;

pub use program::type_prog;

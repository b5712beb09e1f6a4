//! The trees of programs over bits: values, ends, and the program as a tree.
#![tactic(auto)]

pub mod ends;
pub mod tree;
pub mod value;

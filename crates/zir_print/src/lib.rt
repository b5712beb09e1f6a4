//! The canonical form of a program: the fewest parentheses, one space between tokens, a line for each declaration.
#![tactic(auto)]

pub mod laws;

//! The printer: the canonical text of a program, with one space between tokens and the fewest parentheses.
#![tactic(auto)]

pub mod canonical;
mod components;
mod expressions;
mod spelling;
mod statements;
mod text;
mod types;

//! Laws of places: programs that are read from tokens with the same lexemes differ in their places alone.
#![tactic(auto)]

pub mod laws;

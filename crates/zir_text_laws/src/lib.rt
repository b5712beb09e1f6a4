//! Laws of the canonical text: it is read as the canonical tokens.
#![tactic(auto)]

pub mod laws;

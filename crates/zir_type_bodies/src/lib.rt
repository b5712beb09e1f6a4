//! The walk that gives statements, variables, bodies and headings their types, or the first refusal.
#![tactic(auto)]

pub mod body;
pub mod rules;
pub mod statement;

//! Types: the walk that gives every part of a program its type, or the first refusal.
#![tactic(auto)]

pub mod cells;
pub mod error;
pub mod kinds;
pub mod laws;
pub mod rules;
pub mod scope;
pub mod typed;
pub mod wants;

//! The walk that gives components their types, with the instances of `fun comp`s that they reach, or the first refusal.
#![tactic(auto)]

pub mod component;
pub mod comps;
pub mod instances;
mod memory;
pub mod rules;

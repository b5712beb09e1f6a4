//! The walk that gives expressions their types, or the first refusal.
#![tactic(auto)]

pub mod expression;

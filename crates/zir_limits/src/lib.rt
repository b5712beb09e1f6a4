//! Limits: what a program that typing has accepted is measured by, and how many cells its functions need.
#![tactic(auto)]

pub mod cells;
pub mod expression;
pub mod facts;
pub mod known;
pub mod need;
pub mod notes;
pub mod scope;

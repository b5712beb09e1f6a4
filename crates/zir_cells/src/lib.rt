//! Values and types in cells. A cell is an i64.
#![tactic(auto)]

pub mod layout;

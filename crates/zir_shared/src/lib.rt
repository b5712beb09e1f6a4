//! Values with several owners, which contracts see as the values themselves, so that a tree that shares its parts is plain data.
#![tactic(auto)]

mod shared;

pub use shared::Shared;

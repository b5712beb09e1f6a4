//! What components use and assign, and whether the sides of compositions share only what they may.
#![tactic(auto)]

mod component;
mod declarations;
mod error;
mod expression;
mod functions;
mod number_set;
mod outer;
mod place_index;
mod rules;
mod shared;
mod sides;
mod splits;
mod statement;
mod touched;
mod words;

pub use error::ShareError;
pub use rules::sharing;
pub use sides::{assigns, uses};

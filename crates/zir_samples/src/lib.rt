//! The sample formats: an element is found at the front of bytes, and elements are written into a sink, both in the binary
//! format and as text. Elements are cells here: an i64 for each number, the real part of a complex number first.
#![tactic(auto)]

mod bits;
mod finding;
mod output;
mod text;
mod writer;

pub use bits::{number_from, width};
pub use finding::{Found, find};
pub use text::{Front, read_item};
pub use writer::Writer;

#[cfg(test)]
mod tests;

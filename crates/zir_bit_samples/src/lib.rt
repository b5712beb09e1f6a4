//! The binary format of bits: eight bits to a byte, the first the least significant, without gaps.
//! `BitReader` takes bits out of a source and `BitWriter` puts them into a sink, both in pieces of 4,096 bytes.
#![tactic(auto)]

mod bits;
mod bytes;
mod laws;
mod writer;

pub use bits::BitReader;
pub use laws::{spells_bytes, spells_front};
pub use writer::BitWriter;

/// The bytes of a piece, which is what one call of a source or a sink moves at most.
pub const PIECE: usize = 4096;

#[cfg(test)]
mod tests;

//! The outside of a run as traits: bytes to read, a place for bytes, texts by name, and a gate for turns.
//! Each counts its faults, and an error is answered only where that count rose.
#![tactic(auto)]

mod calls;
mod kept;
pub mod memory;
pub mod real;
mod stored;

ghost use Rattle.std.specs.Prelude.{ℕ, ◌≡◌, ◌≤◌, ◌⊎◌, [], List, Option, IfOk, OnOk, OnErr, IsErrOf, length};
ghost use Rattle.zir_outside.specs.Causes.{HasCause, Rose};
ghost use Rattle.zir_outside.specs.Reads.{Reads};
ghost use Rattle.zir_outside.specs.Lengthens.{Lengthens};
ghost use Rattle.zir_outside.specs.Loads.{Loads, IsAbsent};
ghost use Rattle.zir_outside.specs.Sinks.{Grew, GrewPart, Tells};
ghost use Rattle.zir_outside.specs.declared.LoadError.TheVariants.{Memory};

use std::alloc::AllocError;
use thiserror::Error;

/// A read or a write failed.
#[derive(Clone, Copy, Debug, PartialEq, Eq, Error)]
#[error("input or output failed")]
pub struct Failed;

/// Why a text was not loaded.
#[derive(Clone, Copy, Debug, PartialEq, Eq, Error)]
pub enum LoadError {
    /// The text could not be read, or no text has the name.
    #[error("the text could not be read")]
    Failed,
    /// The text has more than 65,536 bytes.
    #[error("the text is too long")]
    TooLong,
    /// There was no memory for the text.
    #[error("out of memory")]
    Memory,
}

impl From<AllocError> for LoadError {
    ghost from_gives = { λ _ e. e ≡ Memory };

    fn from(_error: AllocError) -> LoadError {
        LoadError::Memory
    }
}

/// The most bytes that a text may have.
pub const LONGEST_TEXT: usize = 65_536;

/// Bytes that are read from front to back.
pub trait Source {
    // The bytes still to come, where it tells them.
    ghost left: { Self → Option (List ℕ) };

    // How often it failed. This never falls.
    ghost faults: { Self → ℕ };

    /// Reads bytes into the front of `into` and says how many. `Ok(0)` for a buffer that is not empty is the end of
    /// input. What stands behind the bytes that were read may have changed.
    fn read(&mut self, into: &mut [u8]) -> Result<usize, Failed>
        ensures within { IfOk result (λ n. n ≤ length into.old) }
        ensures taken { Reads (left self.old) (left self.new) into.new result }
        ensures cause { HasCause (faults self.old) (faults self.new) result };
}

/// A place that bytes are put to.
pub trait Sink {
    // Whether it stands for these bytes. It tells its bytes where it stands for some list.
    ghost stands_for: { Self → List ℕ → Type 0 };

    // How often it failed. This never falls.
    ghost faults: { Self → ℕ };

    /// Puts the whole piece behind the bytes that were put before. After `Failed` a front part of it may have been put.
    fn put(&mut self, piece: &[u8]) -> Result<(), Failed>
        ensures ok { OnOk result (Grew (stands_for self.old) (stands_for self.new) piece.now) }
        ensures failed { OnErr result (GrewPart piece.now (stands_for self.old) (stands_for self.new)) }
        ensures untold { Tells (stands_for self.new) → Tells (stands_for self.old) }
        ensures cause { HasCause (faults self.old) (faults self.new) result };
}

/// Texts by their names.
pub trait Shelf {
    // The texts by their names, where it tells them.
    ghost texts: { Self → Option (List ℕ → Option (List ℕ)) };

    // How often it failed. This never falls.
    ghost faults: { Self → ℕ };

    /// Replaces what `into` holds by the text of this name, of at most 65,536 bytes. `into` is empty after an error.
    fn load(&mut self, name: &str, into: &mut Vec<u8>) -> Result<(), LoadError>
        ensures short { OnOk result (length into.new.items ≤ 65536) }
        ensures loaded { Loads (texts self.old) name.now into.new.items result }
        ensures refused { OnErr result (into.new.items ≡ []) }
        ensures same { texts self.new ≡ texts self.old }
        ensures later { faults self.old ≤ faults self.new }
        ensures cause { IsErrOf result LoadError.Failed → Rose (faults self.old) (faults self.new) ⊎ IsAbsent (texts self.old) name.now };

    /// Puts the piece behind the text of this name, which is made where it is absent. After `Failed` a front part of it may have
    /// been put there.
    fn append(&mut self, name: &str, piece: &[u8]) -> Result<(), Failed>
        ensures lengthens { Lengthens (texts self.old) (texts self.new) name.now piece.now result }
        ensures cause { HasCause (faults self.old) (faults self.new) result };
}

/// Is told that a turn of a stage starts.
pub trait Gate {
    /// Called before a turn of this stage in this round; both are counted from 1.
    fn pass(&self, stage: usize, round: u64);
}

#[cfg(test)]
mod tests;

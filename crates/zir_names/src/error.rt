// Why the names of a program are refused.

ghost use Rattle.std.specs.Prelude.{◌≡◌};
ghost use Rattle.zir_names.specs.declared.error.NameError.TheVariants.{Memory};

use std::alloc::{AllocError, AllocFailed};
use thiserror::Error;
use zir_tree::place::Place;

/// Why the names of a program are refused, at the place of the name.
#[derive(Clone, Copy, Debug, PartialEq, Eq, Error)]
pub enum NameError {
    /// No declaration of the kind that the place needs is in scope.
    #[error("no such name here")]
    Unknown(Place),
    /// The second of two top declarations, parameters of a function or fields of a struct with one name.
    #[error("declared twice")]
    Twice(Place),
    /// The body of a function or a struct names its own function or struct.
    #[error("recursive")]
    Recursive(Place),
    /// Memory ran out.
    #[error("out of memory")]
    Memory,
}

impl From<AllocError> for NameError {
    ghost from_gives = { λ _ e. e ≡ Memory };

    fn from(_error: AllocError) -> NameError {
        NameError::Memory
    }
}

impl<T: Drop> From<AllocFailed<T>> for NameError {
    ghost from_gives = { λ _ e. e ≡ Memory };

    fn from(_error: AllocFailed<T>) -> NameError {
        NameError::Memory
    }
}

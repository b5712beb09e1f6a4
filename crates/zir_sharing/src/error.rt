// Why the sharing of a program is refused.

ghost use Rattle.std.specs.Prelude.{◌≡◌};
ghost use Rattle.zir_sharing.specs.declared.error.ShareError.TheVariants.{Memory};

use std::alloc::{AllocError, AllocFailed};
use thiserror::Error;
use zir_tree::place::Place;

/// Why the sharing of a program is refused, at the place of an operator.
#[derive(Clone, Copy, Debug, PartialEq, Eq, Error)]
pub enum ShareError {
    /// One side of a composition assigns a variable, by its number, that the other side uses.
    #[error("both sides use this variable")]
    Shared(u32, Place),
    /// A `|>>>|` that main reaches is not the operator of a chain on the spine.
    #[error("no split here")]
    SplitPlace(Place),
    /// The operand before a `|>>>|` assigns a variable, by its number, that is declared outside the chain.
    #[error("assigns a variable declared outside")]
    OuterAssign(u32, Place),
    /// Memory ran out.
    #[error("out of memory")]
    Memory,
}

impl From<AllocError> for ShareError {
    ghost from_gives = { λ _ e. e ≡ Memory };

    fn from(_error: AllocError) -> ShareError {
        ShareError::Memory
    }
}

impl<T: Drop> From<AllocFailed<T>> for ShareError {
    ghost from_gives = { λ _ e. e ≡ Memory };

    fn from(_error: AllocFailed<T>) -> ShareError {
        ShareError::Memory
    }
}

// Why a program is refused for its limits.

ghost use Rattle.std.specs.Prelude.{◌≡◌};
ghost use Rattle.zir_limits_walks.specs.declared.error.LimitError.TheVariants.{Memory};

use std::alloc::{AllocError, AllocFailed};
use thiserror::Error;
use zir_tree::place::Place;
use zir_tree::refusal::LimitKind;

/// Why a program is refused for its limits.
#[derive(Clone, Copy, Debug, Error)]
pub enum LimitError {
    /// This limit is passed, at this place.
    #[error("a limit is passed")]
    Passed(LimitKind, Place),
    /// Memory ran out.
    #[error("out of memory")]
    Memory,
}

impl From<AllocError> for LimitError {
    ghost from_gives = { λ _ e. e ≡ Memory };

    fn from(_error: AllocError) -> LimitError {
        LimitError::Memory
    }
}

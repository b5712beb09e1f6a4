// Why the types of a program are refused.

ghost use Rattle.std.specs.Prelude.{◌≡◌};
ghost use Rattle.zir_types.specs.declared.error.TypeError.TheVariants.{Memory};

use std::alloc::{AllocError, AllocFailed};
use thiserror::Error;
use zir_tree::place::Place;

/// Why the types of a program are refused, at the place of the form whose rule is broken.
#[derive(Clone, Copy, Debug, PartialEq, Eq, Error)]
pub enum TypeError {
    /// Types differ, or a literal does not fit its type.
    #[error("types differ")]
    Mismatch(Place),
    /// Both sides of a composition are computers.
    #[error("two computers")]
    TwoComputers(Place),
    /// The body of a loop is not a computer of unit.
    #[error("not a unit computer")]
    NotUnit(Place),
    /// A transformer stands where a computer should.
    #[error("not a computer")]
    NotComputer(Place),
    /// A type cannot be that of a stream.
    #[error("not a stream type")]
    NotStreamType(Place),
    /// A call would make the 257th instance.
    #[error("limit instances")]
    Instances(Place),
    /// Memory ran out.
    #[error("out of memory")]
    Memory,
}

impl From<AllocError> for TypeError {
    ghost from_gives = { λ _ e. e ≡ Memory };

    fn from(_error: AllocError) -> TypeError {
        TypeError::Memory
    }
}

impl<T: Drop> From<AllocFailed<T>> for TypeError {
    ghost from_gives = { λ _ e. e ≡ Memory };

    fn from(_error: AllocFailed<T>) -> TypeError {
        TypeError::Memory
    }
}

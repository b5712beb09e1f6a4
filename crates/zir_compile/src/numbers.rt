// Numbers of cells, and why there is no code.

ghost use Rattle.std.specs.Prelude.{◌≡◌, ◌+◌, ◌<◌, ◌^◌, alloc_error};
ghost use Rattle.zir_code.specs.Peaks.{behind as cells_behind};
ghost use Rattle.zir_code.specs.Scopes as scopes;
ghost use Rattle.zir_compile.specs.Makes.{Makes};
ghost use Rattle.zir_compile.specs.declared.numbers.Unmade.TheVariants.{Memory};

use std::alloc::{AllocError, AllocFailed};
use zir_expr::frame::Spot;

/// Why there is no code.
#[derive(Clone, Copy)]
pub enum Unmade {
    /// Memory ran out.
    Memory(AllocError),
    /// 32 bits do not hold a number.
    Large,
}

impl From<AllocError> for Unmade {
    ghost from_gives = { λ error made. made ≡ Memory error };

    fn from(error: AllocError) -> Unmade {
        Unmade::Memory(error)
    }
}

impl<T: Drop> From<AllocFailed<T>> for Unmade {
    ghost from_gives = { λ _ made. made ≡ Memory alloc_error };

    fn from(error: AllocFailed<T>) -> Unmade {
        Unmade::Memory(AllocError::from(error))
    }
}

/// So many more.
pub fn sum(a: u32, b: u64) -> Result<u32, Unmade>
    ensures { Makes (a + b < 2 ^ 32) (λ n. n ≡ a + b) result }
{
    let n = u64::from(a).saturating_add(b);
    if n > u64::from(u32::MAX) {
        Err(Unmade::Large)
    } else {
        Ok(n as u32)
    }
}

/// The first cell behind so many from d on, and behind one at least.
pub fn behind(d: u32, n: u64) -> Result<u32, Unmade>
    ensures { Makes (cells_behind d n < 2 ^ 32) (λ end. end ≡ cells_behind d n) result }
{
    sum(d, n.max(1))
}

/// The spot so many cells behind another.
pub fn shifted(spot: Spot, k: u64) -> Result<Spot, Unmade>
    ensures { Makes (scopes.number_of spot + k < 2 ^ 32) (λ there. there ≡ scopes.shifted spot k) result }
{
    match spot {
        Spot::Top(o) => {
            let n = sum(o, k)?;
            Ok(Spot::Top(n))
        }
        Spot::Local(o) => {
            let n = sum(o, k)?;
            Ok(Spot::Local(n))
        }
    }
}

/// The number of a spot's cell.
pub fn number_of(spot: Spot) -> u32
    ensures { result ≡ scopes.number_of spot }
{
    match spot {
        Spot::Top(o) => o,
        Spot::Local(o) => o,
    }
}

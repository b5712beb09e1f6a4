// The text that the words name.

ghost use Rattle.std.specs.Prelude.{ℕ, List, ◌≡◌, ◌⊎◌, Err, IsErrOf, MatchResult};
ghost use Rattle.zir_outside.specs.Causes.{Rose};
ghost use Rattle.zir_outside.specs.Loads.{IsAbsent};
ghost use Rattle.zir_run.specs.Loading.{FailsFor, Has};

use std::alloc::Global;
use zir_outside::{LoadError, Shelf};

/// Why a text was not loaded.
#[derive(Clone, Copy, Debug, PartialEq, Eq)]
pub enum Unloaded {
    /// The shelf failed, or has no such text.
    NotLoaded,
    /// The text has more than 65,536 bytes.
    TooLong,
    /// There was no memory.
    Memory,
}

/// The text of this name.
pub fn load<H: Shelf>(alloc: Global, name: &str, shelf: &mut H) -> Result<Vec<u8>, Unloaded>
    ensures loads { (text : List ℕ) → Has (H.texts shelf.old) name.now text
        → MatchResult result (λ found. found.items ≡ text) (FailsFor text) }
    ensures absent { IsAbsent (H.texts shelf.old) name.now → result ≡ Err Unloaded.NotLoaded }
    ensures same { H.texts shelf.new ≡ H.texts shelf.old }
    ensures cause { IsErrOf result Unloaded.NotLoaded → Rose (H.faults shelf.old) (H.faults shelf.new) ⊎ IsAbsent (H.texts shelf.old) name.now }
{
    let mut text = Vec::new(alloc);
    match shelf.load(name, &mut text) {
        Ok(()) => Ok(text),
        Err(LoadError::Failed) => Err(Unloaded::NotLoaded),
        Err(LoadError::TooLong) => Err(Unloaded::TooLong),
        Err(LoadError::Memory) => Err(Unloaded::Memory),
    }
}

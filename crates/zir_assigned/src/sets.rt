// Sets of variables.

ghost use Rattle.std.specs.Prelude.{◌≡◌, ℕ, ◌||◌, List, [], ◌∷◌, OnOk};
ghost use Rattle.zir_meaning.specs.Store.{among};
ghost use Rattle.zir_assigned.specs.Sets.{Adds, Holds, has, restored, uncovered};

use std::alloc::AllocError;
use std::collections::HashSet;

/// A set of variables.
#[derive(Drop)]
pub struct Set {
    pub ids: HashSet<u32>,
}

impl Set {
    /// Whether a variable is in the set.
    pub fn contains(&self, id: u32) -> bool
        ensures { (ids : List ℕ) → Holds self.now ids → result ≡ among ids id }
    {
        self.ids.contains(&id)
    }
}

/// A variable that was declared, and whether a set had its number before.
#[derive(Clone, Copy)]
pub struct Hidden {
    pub id: u32,
    pub was: bool,
}

/// A set has one variable more.
pub(crate) fn insert(ids: &mut HashSet<u32>, id: u32) -> Result<(), AllocError>
    ensures { OnOk result (Adds (id ∷ []) (has ids.old) (has ids.new)) }
{
    ids.insert(id)?;
    Ok(())
}

/// A set has all variables of another besides its own.
pub(crate) fn join(ids: &mut HashSet<u32>, others: &HashSet<u32>) -> Result<(), AllocError>
    ensures { OnOk result ((id : ℕ) → has ids.new id ≡ (has ids.old id || has others.now id)) }
{
    for id in others {
        ids.insert(*id)?;
    }
    Ok(())
}

/// A set has a variable where it had it before the variable was declared.
fn restore(ids: &mut HashSet<u32>, hidden: Hidden) -> Result<(), AllocError>
    ensures { OnOk result ((id : ℕ) → has ids.new id ≡ restored hidden (has ids.old) id) }
{
    if hidden.was {
        ids.insert(hidden.id)?;
    } else {
        ids.remove(&hidden.id);
    }
    Ok(())
}

/// The same for variables, the one declared last first.
pub(crate) fn uncover(ids: &mut HashSet<u32>, hidden: Vec<Hidden>) -> Result<(), AllocError>
    ensures { OnOk result ((id : ℕ) → has ids.new id ≡ uncovered hidden.items (has ids.old) id) }
{
    let mut hidden = hidden;
    while let Some(last) = hidden.pop() {
        restore(ids, last)?;
    }
    Ok(())
}

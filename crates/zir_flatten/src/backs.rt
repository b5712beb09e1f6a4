// The cells that the left side of a composition brings back.

ghost use Rattle.std.specs.Prelude.{◌≡◌, ℕ, ◌++◌, List, IfOk, OnOk};
ghost use Rattle.zir_assigned.specs.Sets.{Holds};
ghost use Rattle.zir_compile.specs.Names.{scope_of};
ghost use Rattle.zir_flow.specs.Flowing as flowing;
ghost use Rattle.zir_flow.specs.Kinds.{Setting};
ghost use Rattle.zir_meaning.specs.Assigned.{assigns};
ghost use Rattle.zir_meaning.specs.Store.{among};
ghost use Rattle.zir_flatten.specs.Callable.{Sets};

use crate::places::Places;
use sqlite_items::Items;
use std::alloc::{AllocError, Global};
use zir_assigned::sets::Set;
use zir_code::scope::Holder;
use zir_compile::numbers::Unmade;
use zir_compile::scope::Names;
use zir_flow::instruction::Back;
use zir_tree::comp::Comp;

/// Adds the cells of a variable, if it is in a set.
fn bring(set: &Set, holder: &Holder, back: &mut Vec<Back>) -> Result<(), AllocError>
    ensures { (ids : List ℕ) → Holds set.now ids →
        OnOk result (back.new.items ≡ back.old.items ++ flowing.back_if (among ids holder.now.id) holder.now) }
{
    if set.contains(holder.id) {
        back.push(Back {
            at: holder.spot,
            cells: holder.cells,
        })?;
    }
    Ok(())
}

/// Adds the cells of those of these variables that are in a set.
fn bring_all(set: &Set, holders: &[Holder], back: &mut Vec<Back>) -> Result<(), AllocError>
    ensures { (ids : List ℕ) → Holds set.now ids →
        OnOk result (back.new.items ≡ back.old.items ++ flowing.back_among ids holders.now) }
{
    for holder in holders {
        bring(set, holder, back)?;
    }
    Ok(())
}

impl Places {
    /// The cells of all variables in scope that a component assigns.
    pub fn back_of(&self, alloc: Global, names: &Names, c: &Comp) -> Result<Items<Back>, Unmade>
        ensures { (st : Setting) → Sets self.now st →
            IfOk result (λ made. made ≡ flowing.back_of (assigns st.assigned c.now) (scope_of names.now)) }
    {
        let set = self.assigned.component(alloc, c)?;
        let mut back = Vec::new(alloc);
        bring_all(&set, names.tops.as_slice(), &mut back)?;
        bring_all(&set, names.locals.as_slice(), &mut back)?;
        Ok(Items::from_vec(back))
    }
}

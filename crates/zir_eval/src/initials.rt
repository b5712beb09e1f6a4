// The initial values of top variables.

ghost use Rattle.std.specs.Prelude.{◌≡◌, IfOk};
ghost use Rattle.zir_compile.specs.Made.{written};
ghost use Rattle.zir_compile.specs.Makes.{Makes};
ghost use Rattle.zir_compile.specs.Names.{scope_of};
ghost use Rattle.zir_compile.specs.Stated.{RowFits};
ghost use Rattle.zir_eval.specs.Opening as opening;
ghost use Rattle.zir_eval.specs.Initials.{Begun};

use sqlite_items::Items;
use std::alloc::{AllocError, Global};
use zir_compile::made::Written;
use zir_compile::numbers::Unmade;
use zir_compile::scope::Names;
use zir_expr::steps::Step;
use zir_tree::program::Core;
use zir_tree::stmt::Var;

/// Adds the code that assigns a variable its initial value, if it has one, and answers the first cell behind all that it uses.
fn initial(alloc: Global, names: &Names, v: &Var, steps: &mut Vec<Step>) -> Result<u32, Unmade>
    ensures { let g = scope_of names.now in let ss = opening.initially v.now.name v.now.initial in
        Makes (RowFits g ss 0) (Begun g ss steps.old.items steps.new.items) result }
{
    match &v.initial {
        None => Ok(0),
        Some(e) => {
            let reach = names.assigned(alloc, &v.name, &[], e, 0, steps)?;
            Ok(reach.peak)
        }
    }
}

/// The same for variables, in the order of the text.
fn initials(
    alloc: Global,
    names: &Names,
    variables: &[Var],
    steps: &mut Vec<Step>,
) -> Result<u32, Unmade>
    ensures { let g = scope_of names.now in let ss = opening.initial_assignments variables.now in
        Makes (RowFits g ss 0) (Begun g ss steps.old.items steps.new.items) result }
{
    let mut peak = 0u32;
    for v in variables {
        let end = initial(alloc, names, v, steps)?;
        peak = peak.max(end);
    }
    Ok(peak)
}

/// The code of the initial values of the top variables of a program, in the order of the text. There is none where 32 bits do
/// not hold its numbers.
pub fn initials_of(alloc: Global, core: &Core, names: &Names) -> Result<Option<Written>, AllocError>
    ensures { IfOk result (λ made. made ≡ written (scope_of names.now) (opening.initial_assignments core.now.variables) 0) }
{
    let mut steps = Vec::new(alloc);
    match initials(alloc, names, core.variables.as_slice(), &mut steps) {
        Ok(peak) => Ok(Some(Written {
            steps: Items::from_vec(steps),
            free: 0,
            peak,
        })),
        Err(Unmade::Large) => Ok(None),
        Err(Unmade::Memory(error)) => Err(error),
    }
}

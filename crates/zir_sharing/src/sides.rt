// What components use and assign.

ghost use Rattle.std.specs.Prelude.{◌≡◌, IfOk};
ghost use Rattle.zir_names.specs.Touched.{uses as uses_of, assigns as assigns_of};

use crate::component::touched_by;
use crate::declarations::{functions_of, variables_of};
use std::alloc::{AllocError, Global};
use zir_names::Named;
use zir_tree::comp::Comp;

/// The numbers of the variables that a component of a program reads or assigns, itself or in the functions that it calls,
/// ascending and without repeats.
pub fn uses(alloc: Global, program: &Named, c: &Comp) -> Result<Vec<u32>, AllocError>
    ensures { IfOk result (λ found. found.items ≡ uses_of program.now c.now) }
{
    let functions = functions_of(alloc, program)?;
    let variables = variables_of(alloc, program)?;
    let touched = touched_by(alloc, &functions, c)?;
    let mut used = touched.into_used();
    used.keep(&variables);
    used.to_vec(alloc)
}

/// The numbers of the variables that a component of a program assigns, itself or in the functions that it calls, ascending
/// and without repeats.
pub fn assigns(alloc: Global, program: &Named, c: &Comp) -> Result<Vec<u32>, AllocError>
    ensures { IfOk result (λ found. found.items ≡ assigns_of program.now c.now) }
{
    let functions = functions_of(alloc, program)?;
    let touched = touched_by(alloc, &functions, c)?;
    touched.into_assigned().to_vec(alloc)
}

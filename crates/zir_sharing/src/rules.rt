// The rules of sharing.

ghost use Rattle.zir_names.specs.Sharing.{refusal_of};
ghost use Rattle.zir_sharing.specs.Answers.{Answers};

use crate::declarations::functions_of;
use crate::error::ShareError;
use crate::outer::check_outer;
use crate::shared::check_shared;
use crate::splits::check_splits;
use std::alloc::Global;
use zir_names::Named;

/// Whether the sides of compositions share only what they may, and splits stand only where they may. A refusal is the
/// first: all of `Shared`, in the order of the text and the `fun comp`s before main, stands before `SplitPlace`, whose
/// place is the first in the text, and that before `OuterAssign`. Each names the variable that is declared first.
pub fn sharing(alloc: Global, program: &Named) -> Result<(), ShareError>
    ensures { Answers (refusal_of program.now) result }
{
    let functions = functions_of(alloc, program)?;
    check_shared(alloc, &functions, &program.program)?;
    check_splits(alloc, &program.program)?;
    check_outer(alloc, &functions, &program.program)
}

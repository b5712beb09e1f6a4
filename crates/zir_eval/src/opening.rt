// What is in scope at the top of a program, and all cells of a run.

ghost use Rattle.std.specs.Prelude.{◌≡◌, ◌<◌, ◌^◌, IfOk};
ghost use Rattle.zir_cells.specs.Layout.{capped};
ghost use Rattle.zir_compile.specs.Makes.{Makes};
ghost use Rattle.zir_eval.specs.Opening as opening;
ghost use Rattle.zir_eval.specs.Laws.{BlankFramesHold, FunctionsMean};

use sqlite_items::Items;
use std::alloc::{AllocError, Global};
use zir_code::scope::Holder;
use zir_compile::numbers::{Unmade, sum};
use zir_compile::scope::Names;
use zir_compile::statements::type_of;
use zir_compile::structs::Structs;
use zir_expr::frame::{Frame, Spot};
use zir_tree::program::Core;
use zir_tree::stmt::Var;

/// The top variables, one behind the other from the first cell on.
fn holders(alloc: Global, structs: &Structs, variables: &[Var]) -> Result<Items<Holder>, Unmade>
    ensures { Makes (opening.cells_for_vars structs.now variables.now < 2 ^ 32)
        (λ made. made ≡ opening.top_holders structs.now 0 variables.now) result }
{
    let mut made = Items::new(alloc);
    let mut at = 0u32;
    for v in variables {
        let ty = type_of(alloc, &v.ty)?;
        let end = sum(at, structs.cells(&ty))?;
        made.push(Holder {
            id: v.name.id,
            spot: Spot::Top(at),
            cells: end - at,
            ty,
        })?;
        at = end;
    }
    Ok(made)
}

/// What is in scope at the top of a program, with the code of its functions. There is nothing where 32 bits do not count the
/// cells of the top variables.
pub fn names_of(alloc: Global, core: &Core) -> Result<Option<Names>, AllocError>
    ensures { IfOk result (opening.NamedAs core.now) }
{
    let structs = Structs::of(alloc, core.structs.as_slice())?;
    match holders(alloc, &structs, core.variables.as_slice()) {
        Err(Unmade::Large) => Ok(None),
        Err(Unmade::Memory(error)) => Err(error),
        Ok(tops) => {
            let names = Names::of_functions(
                alloc,
                core.structs.as_slice(),
                tops,
                core.functions.as_slice(),
            )?;
            Ok(Some(names))
        }
    }
}

/// How many cells the top variables have: those of a body begin behind them.
pub fn base_of(names: &Names) -> usize
    ensures { result ≡ capped (opening.held_cells names.now.tops) }
{
    let mut total = 0usize;
    for holder in names.tops.as_slice() {
        total = (holder.cells as usize).saturating_add(total);
    }
    total
}

/// All cells of a run of a program: those of its top variables, and so many more for the code of a body. All are 0.
pub fn frame_of(alloc: Global, names: &Names, room: u32, limit: u64) -> Result<Frame, AllocError>
    ensures { IfOk result (opening.IsBlank names.now.tops room limit) }
{
    let cells = base_of(names).saturating_add(room as usize);
    Frame::open(alloc, cells, limit)
}

/// A new frame of a program holds the blank value of each top variable.
pub fn blank_frames_hold()
    ensures { BlankFramesHold }
{}

/// The functions of a program do what they mean, where each is well typed in the cells of its signature.
pub fn functions_mean()
    ensures { FunctionsMean }
{}

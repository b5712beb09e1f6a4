// The flat code of a program.

ghost use Rattle.std.specs.Prelude.{◌≡◌, IfOk, IfSome};
ghost use Rattle.zir_code.specs.Needs.{all_peak};
ghost use Rattle.zir_compile.specs.Names.{scope_of};
ghost use Rattle.zir_eval.specs.Opening.{program_scope, initial_assignments};
ghost use Rattle.zir_flatten.specs.Programs.{IsProgram};

use crate::instances::{Laid, lay};
use crate::loops::count;
use sqlite_items::Items;
use std::alloc::{AllocError, Global};
use zir_assigned::assigned::Assigned;
use zir_compile::numbers::Unmade;
use zir_compile::scope::Names;
use zir_flow::instruction::Instruction;
use zir_stage::layout::Layout;
use zir_tree::program::Core;

/// The code of the instances of a program and of its main component, the place of that, how many cells all of it uses
/// besides those of the top variables, how deep its calls go, and which memories its compositions ask for.
#[derive(Drop)]
pub struct Program {
    pub code: Items<Instruction>,
    pub place: u32,
    pub needs: u32,
    pub depth: u32,
    pub layout: Layout,
}

impl Program {
    /// The code of a program, where its initial values use the cells before this one.
    fn made(alloc: Global, core: &Core, names: &mut Names, initial: u32) -> Result<Program, Unmade>
        ensures { scope_of names.old ≡ program_scope core.now →
            initial ≡ all_peak (program_scope core.now) 0 (initial_assignments core.now.variables) →
            IfOk result (IsProgram core.now) }
    {
        let assigned = Assigned::of(alloc, core.functions.as_slice(), core.instances.as_slice())?;
        let Laid { code, places } = lay(alloc, names, assigned, core.instances.as_slice())?;
        let place = count(code.as_slice())?;
        names.locals.truncate(0);
        let main = places.component(alloc, names, &core.main, &core.input, 0)?;
        let mut code = code;
        let mut more = main.code;
        code.append(&mut more)?;
        code.push(Instruction::Stop)?;
        count(code.as_slice())?;
        Ok(Program {
            code: Items::from_vec(code),
            place,
            needs: initial.max(main.peak),
            depth: main.depth,
            layout: main.layout,
        })
    }

    /// The code of a program, where its initial values use the cells before this one. There is none where 32 bits do
    /// not hold its numbers.
    pub fn of(
        alloc: Global,
        core: &Core,
        names: &mut Names,
        initial: u32,
    ) -> Result<Option<Program>, AllocError>
        ensures { scope_of names.old ≡ program_scope core.now →
            initial ≡ all_peak (program_scope core.now) 0 (initial_assignments core.now.variables) →
            IfOk result (λ made. IfSome made (IsProgram core.now)) }
    {
        match Program::made(alloc, core, names, initial) {
            Ok(program) => Ok(Some(program)),
            Err(Unmade::Large) => Ok(None),
            Err(Unmade::Memory(error)) => Err(error),
        }
    }
}

// The code of instances, one after the other, each over those before it.

ghost use Rattle.std.specs.Prelude.{IfOk};
ghost use Rattle.zir_assigned.specs.Assigned.{Agrees};
ghost use Rattle.zir_compile.specs.Names.{scope_of};
ghost use Rattle.zir_compile.specs.Signing.{Below};
ghost use Rattle.zir_flow.specs.Kinds.{Setting};
ghost use Rattle.zir_flow.specs.Program.{top_scope};
ghost use Rattle.zir_meaning.specs.Assigned.{Assigning};
ghost use Rattle.zir_flatten.specs.Callable.{Sets};
ghost use Rattle.zir_flatten.specs.Programs.{AreLaid, IsBuilt};

use crate::loops::count;
use crate::members::run_some;
use crate::places::{Callee, Places};
use crate::types::cells_or_none;
use std::alloc::Global;
use zir_assigned::assigned::Assigned;
use zir_compile::functions::parameters;
use zir_compile::made::Parameters;
use zir_compile::moves::settling;
use zir_compile::numbers::{Unmade, sum};
use zir_compile::scope::Names;
use zir_expr::frame::Spot;
use zir_flow::instruction::Instruction;
use zir_tree::program::Instance;

/// The code of an instance, and what calls see of it.
#[derive(Drop)]
pub struct Built {
    pub code: Vec<Instruction>,
    pub callee: Callee,
}

/// The code of instances one after the other, and what calls see of them.
#[derive(Drop)]
pub struct Laid {
    pub code: Vec<Instruction>,
    pub places: Places,
}

impl Places {
    /// The code of an instance that stands at a place, over the instances before it.
    fn instance(
        &self,
        alloc: Global,
        names: &mut Names,
        i: &Instance,
        place: u32,
    ) -> Result<Built, Unmade>
        ensures below { Below names.old names.new }
        ensures code { (st : Setting) → Sets self.now st →
            IfOk result (IsBuilt st (top_scope (scope_of names.old)) place i.now) }
    {
        let Parameters { holders, free } = parameters(alloc, &names.structs, i.params.as_slice())?;
        names.locals = holders;
        let flow = self.component(alloc, names, &i.body, &i.input, free)?;
        let cells = cells_or_none(names, &flow.value)?;
        let end = sum(free, u64::from(cells))?;
        let mut steps = Vec::new(alloc);
        settling(Spot::Local(free), 0, cells, &mut steps)?;
        let mut code = flow.code;
        run_some(steps, &mut code)?;
        code.push(Instruction::Leave)?;
        Ok(Built {
            code,
            callee: Callee {
                place,
                emits: flow.output,
                value: flow.value,
                needs: end.max(flow.peak),
                depth: flow.depth,
                layout: flow.layout,
            },
        })
    }
}

/// The code of these instances, one after the other, over none before them.
pub fn lay(
    alloc: Global,
    names: &mut Names,
    assigned: Assigned,
    instances: &[Instance],
) -> Result<Laid, Unmade>
    ensures below { Below names.old names.new }
    ensures code { (r : Assigning) → Agrees assigned r →
        IfOk result (AreLaid r (top_scope (scope_of names.old)) instances.now) }
{
    let mut code = Vec::new(alloc);
    let mut places = Places {
        callees: Vec::new(alloc),
        assigned,
    };
    for i in instances {
        let place = count(code.as_slice())?;
        let Built { code: more, callee } = places.instance(alloc, names, i, place)?;
        let mut more = more;
        code.append(&mut more)?;
        places.callees.push(callee)?;
    }
    Ok(Laid { code, places })
}

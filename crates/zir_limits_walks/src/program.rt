// The limits of a program.

ghost use Rattle.std.specs.Prelude.{◌≡◌, IfOk};
ghost use Rattle.zir_types.specs.Limits.{limits as first_limit, passed_at};
ghost use Rattle.zir_types.specs.Known.{seen_vars};
ghost use Rattle.zir_limits.specs.Facts.{told};
ghost use Rattle.zir_limits_walks.specs.Answers.{Answers, passed_of, in_order};
ghost use Rattle.zir_limits_walks.specs.Bodies.{measured, facts_of, tops_in};

use crate::bodies::{
    declare_vars, note_vars, vars_cells, visit_functions, visit_instances, visit_main,
};
use crate::depth::first_deep;
use crate::error::LimitError;
use crate::found::{Measured, Tops};
use crate::structs::{note_structs, shapes};
use std::alloc::{AllocError, Global};
use zir_limits::facts::Facts;
use zir_limits::need::counted;
use zir_limits::notes::{Notes, marked};
use zir_limits::scope::Scope;
use zir_tree::place::Place;
use zir_tree::program::{Core, Prog};
use zir_tree::refusal::LimitKind;

/// A core, with no need known.
fn facts_in(alloc: Global, core: &Core) -> Result<Facts<'_>, AllocError>
    ensures { IfOk result (λ facts. told facts ≡ facts_of core.now) }
{
    let shapes = shapes(alloc, core.structs.as_slice())?;
    Ok(Facts::new(
        alloc,
        shapes,
        core.functions.as_slice(),
        core.instances.as_slice(),
    ))
}

/// The structs and the top variables, whose calls are noted no longer.
fn visit_tops(
    alloc: Global,
    facts: &Facts,
    scope: &Scope,
    program: &Prog,
    core: &Core,
) -> Result<Tops, AllocError>
    requires facts_in { told facts.now ≡ facts_of core.now }
    requires all_seen { scope.now ≡ seen_vars core.now.variables }
    ensures { IfOk result (λ tops. tops ≡ tops_in program.now core.now) }
{
    let mut notes = Notes::new(alloc);
    note_structs(&mut notes, facts.shapes(), program.declarations.as_slice());
    note_vars(alloc, facts, scope, &mut notes, core.variables.as_slice())?;
    let calls = notes.take_calls(alloc);
    Ok(Tops { notes, calls })
}

/// What the limits look at in a core.
fn measure(alloc: Global, program: &Prog, core: &Core) -> Result<Measured, AllocError>
    ensures { IfOk result (λ found. found ≡ measured program.now core.now) }
{
    let mut facts = facts_in(alloc, core)?;
    let mut scope = Scope::new(alloc);
    declare_vars(alloc, &mut scope, core.variables.as_slice())?;
    let tops = visit_tops(alloc, &facts, &scope, program, core)?;
    let Tops {
        mut notes,
        calls: variables,
    } = tops;
    let functions = visit_functions(
        alloc,
        &mut facts,
        &mut scope,
        &mut notes,
        core.functions.as_slice(),
    )?;
    let instances = visit_instances(
        alloc,
        &mut facts,
        &mut scope,
        &mut notes,
        core.instances.as_slice(),
    )?;
    let main = visit_main(alloc, &facts, &mut scope, &mut notes, program, core)?;
    let need = counted(main.need, vars_cells(&facts, core.variables.as_slice()));
    Ok(Measured {
        notes,
        main: main.calls,
        variables,
        functions,
        instances,
        need,
    })
}

/// A limit that is passed, and where.
#[derive(Clone, Copy)]
pub struct FirstLimit {
    pub kind: LimitKind,
    pub at: Place,
}

/// This limit, where it is passed at a first place, and else the next.
fn limit_or(kind: LimitKind, first: Option<Place>, next: Option<FirstLimit>) -> Option<FirstLimit>
    ensures { passed_of result ≡ passed_at kind first (passed_of next) }
{
    match first {
        None => next,
        Some(at) => Some(FirstLimit { kind, at }),
    }
}

/// The first limit that is passed, in the order of the limits.
fn first_passed(notes: &Notes, deep: Option<Place>, need: u64, at: Place) -> Option<FirstLimit>
    ensures { passed_of result ≡ in_order notes.now deep need at }
{
    let great = marked(need > 1048576, at, None);
    let stages = limit_or(LimitKind::Stages, notes.first_stages, None);
    let needed = limit_or(LimitKind::Need, great, stages);
    let depth = limit_or(LimitKind::Depth, deep, needed);
    let element = limit_or(LimitKind::Element, notes.first_element, depth);
    let cells = limit_or(LimitKind::Cells, notes.first_cells, element);
    limit_or(LimitKind::Length, notes.first_length, cells)
}

/// The answer to a limit that may be passed.
fn answer(first: Option<FirstLimit>) -> Result<(), LimitError>
    ensures { Answers (passed_of first) result }
{
    match first {
        None => Ok(()),
        Some(first) => Err(LimitError::Passed(first.kind, first.at)),
    }
}

/// Whether a program that typing has accepted, with its core, stays within the limits: array, slice and `takes` lengths of
/// 1 to 4,096, types of 65,536 cells, stream elements of 4,096 cells, calls 16 deep, a need of 1,048,576 cells, and chains of
/// 16 operands. A refusal is the first limit in this order, at the first place in the text that passes it.
///
/// # Errors
///
/// `Passed` with that limit and place; `Memory` where memory runs out.
pub fn limits(alloc: Global, program: &Prog, core: &Core) -> Result<(), LimitError>
    ensures { Answers (first_limit program.now core.now) result }
{
    let measured = measure(alloc, program, core)?;
    let deep = first_deep(alloc, &measured)?;
    let first = first_passed(&measured.notes, deep, measured.need, core.at);
    answer(first)
}

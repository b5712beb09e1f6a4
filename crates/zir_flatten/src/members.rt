// The code of the members of a block, one after the other.

ghost use Rattle.std.specs.Prelude.{◌≡◌, ◌+◌, ◌++◌, ℕ, IfOk, OnOk};
ghost use Rattle.zir_tree.specs.declared.comp.Comp.{Comp as OneComp, end_of-Member};
ghost use Rattle.zir_tree.specs.declared.comp.Member as member;
ghost use Rattle.zir_tree.specs.declared.ident.Ident.{Ident as Named};
ghost use Rattle.zir_code.specs.Statements.{with_local};
ghost use Rattle.zir_code.specs.Types as sizes;
ghost use Rattle.zir_compile.specs.Names.{scope_of};
ghost use Rattle.zir_compile.specs.Stated.{Moved};
ghost use Rattle.zir_flow.specs.Flowing as flowing;
ghost use Rattle.zir_flow.specs.Kinds.{Setting};
ghost use Rattle.zir_flatten.specs.Making.{Flowed};
ghost use Rattle.zir_flatten.specs.Members.{Follows, FollowsIn, IsWhole, Joins, Starts, whole_of};

use crate::flow::Flow;
use crate::layouts::widest;
use crate::leaves::run;
use crate::types::{cells_for, cells_or_none, copy_or_unit, copy_some, first_of, plain};
use std::alloc::{AllocError, Global};
use zir_code::scope::Holder;
use zir_compile::moves::settling;
use zir_compile::numbers::{Unmade, sum};
use zir_compile::scope::Names;
use zir_compile::statements::type_of;
use zir_compile::structs::copy_type;
use zir_expr::frame::Spot;
use zir_expr::steps::Step;
use zir_flow::instruction::Instruction;
use zir_stage::layout::Layout;
use zir_tree::stmt::Var;
use zir_tree::types::{Base, Ty};

/// The code of the first members of a block, the first free cell behind them, the cell from which on the value of the
/// last one stands, the types of that and of their outputs, the first cell behind all that the code uses, how deep its
/// calls go, and which memories its compositions ask for.
#[derive(Drop)]
pub struct Row {
    pub code: Vec<Instruction>,
    pub free: u32,
    pub at: u32,
    pub value: Option<Ty>,
    pub output: Option<Ty>,
    pub peak: u32,
    pub depth: u32,
    pub layout: Layout,
}

/// No member yet.
pub fn no_member(alloc: Global, d: u32) -> Row
    ensures { Starts d result }
{
    Row {
        code: Vec::new(alloc),
        free: d,
        at: d,
        value: Some(plain(alloc, Base::Unit)),
        output: None,
        peak: 0,
        depth: 0,
        layout: Layout::Flat,
    }
}

/// A variable comes into scope, with its value in the cells from d on, and the answer is the first cell behind them.
fn declare(alloc: Global, names: &mut Names, id: u32, ty: Ty, d: u32) -> Result<u32, Unmade>
    ensures moved { Moved names.old names.new }
    ensures scope { OnOk result (scope_of names.new ≡ with_local (scope_of names.old) d id ty) }
    ensures free { IfOk result (λ free. free ≡ d + sizes.cells_for (scope_of names.old) ty) }
{
    let free = sum(d, names.structs.cells(&ty))?;
    names.locals.push(Holder {
        id,
        spot: Spot::Local(d),
        cells: free - d,
        ty,
    })?;
    Ok(free)
}

/// A component behind the first members, whose value then stands from a cell on.
fn joined(
    alloc: Global,
    row: Row,
    flow: Flow,
    free: u32,
    value: Option<Ty>,
    peak: u32,
) -> Result<Row, AllocError>
    ensures { IfOk result (Joins row flow free value peak) }
{
    let mut code = row.code;
    let mut more = flow.code;
    code.append(&mut more)?;
    let layout = widest(alloc, &row.layout, &flow.layout)?;
    Ok(Row {
        code,
        free,
        at: row.free,
        value,
        output: first_of(row.output, flow.output),
        peak: row.peak.max(flow.peak.max(peak)),
        depth: row.depth.max(flow.depth),
        layout,
    })
}

/// A component whose value gets a name.
pub fn bound(alloc: Global, names: &mut Names, id: u32, flow: Flow, row: Row) -> Result<Row, Unmade>
    ensures moved { Moved names.old names.new }
    ensures code { (st : Setting) (input : Ty) (x : Named) (c : OneComp) → let g = scope_of names.old in x.id ≡ id →
        Flowed st g input row.free c flow →
        IfOk result (Follows st g input (member.Bind x c) row (scope_of names.new)) }
{
    let ty = copy_or_unit(alloc, &flow.value)?;
    let value = copy_type(alloc, &ty)?;
    let free = declare(alloc, names, id, ty, row.free)?;
    let made = joined(alloc, row, flow, free, Some(value), 0)?;
    Ok(made)
}

/// A component alone.
pub fn followed(alloc: Global, names: &Names, flow: Flow, row: Row) -> Result<Row, Unmade>
    ensures { (st : Setting) (input : Ty) (c : OneComp) → let g = scope_of names.now in
        Flowed st g input row.free c flow → IfOk result (Follows st g input (member.Run c) row g) }
{
    let cells = cells_or_none(names, &flow.value)?;
    let end = sum(row.free, u64::from(cells))?;
    let value = copy_some(alloc, &flow.value)?;
    let free = row.free;
    let made = joined(alloc, row, flow, free, value, end)?;
    Ok(made)
}

/// A variable of the block, which began with the cells from begin on free.
pub fn declared(
    alloc: Global,
    names: &mut Names,
    v: &Var,
    begin: u32,
    row: Row,
) -> Result<Row, Unmade>
    ensures moved { Moved names.old names.new }
    ensures code { (st : Setting) (input : Ty) → let g = scope_of names.old in
        IfOk result (FollowsIn begin st g input (member.Var v.now) row (scope_of names.new)) }
{
    let ty = type_of(alloc, &v.ty)?;
    let cells = cells_for(names, &ty)?;
    let mut steps = Vec::new(alloc);
    let most = names.initial(alloc, &v.initial, row.free, cells, &mut steps)?;
    let free = declare(alloc, names, v.name.id, ty, row.free)?;
    let mut code = row.code;
    code.push(run(steps))?;
    Ok(Row {
        code,
        free,
        at: begin,
        value: Some(plain(alloc, Base::Unit)),
        output: row.output,
        peak: row.peak.max(free.max(most)),
        depth: row.depth,
        layout: row.layout,
    })
}

/// Adds straight code, if there is any.
pub fn run_some(steps: Vec<Step>, code: &mut Vec<Instruction>) -> Result<(), AllocError>
    ensures { OnOk result (code.new.items ≡ code.old.items ++ flowing.run_some steps.items) }
{
    if steps.is_empty() {
        Ok(())
    } else {
        code.push(run(steps))?;
        Ok(())
    }
}

/// All members of a block, which began with the cells from begin on free: its value goes there.
pub fn ended(alloc: Global, names: &Names, begin: u32, row: Row) -> Result<Flow, Unmade>
    ensures { (st : Setting) (input : Ty) → let g = scope_of names.now in
        IfOk result (IsWhole (whole_of st g input begin row end_of-Member)) }
{
    let cells = cells_or_none(names, &row.value)?;
    let mut steps = Vec::new(alloc);
    settling(Spot::Local(row.at), begin, cells, &mut steps)?;
    let mut code = row.code;
    run_some(steps, &mut code)?;
    Ok(Flow {
        code,
        value: row.value,
        output: row.output,
        peak: row.peak.max(row.free),
        depth: row.depth,
        layout: row.layout,
    })
}

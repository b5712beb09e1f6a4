// The code of components that have no components inside.

ghost use Rattle.std.specs.Prelude.{◌≡◌, ℕ, List, None, IfOk};
ghost use Rattle.zir_code.specs.Scopes.{Scope};
ghost use Rattle.zir_compile.specs.Names.{scope_of};
ghost use Rattle.zir_compile.specs.Stated.{Moved, Same};
ghost use Rattle.zir_flow.specs.Kinds.{Entry, Setting};
ghost use Rattle.zir_tree.specs.declared.comp.Comp as comp;
ghost use Rattle.zir_tree.specs.declared.expr.Expr.{Expr as OneExpr};
ghost use Rattle.zir_tree.specs.declared.ident.Ident.{Ident as Named};
ghost use Rattle.zir_tree.specs.declared.place.Place.{Place};
ghost use Rattle.zir_flatten.specs.Callable.{IsEntry, Sets};
ghost use Rattle.zir_flatten.specs.Making as making;

use crate::flow::Flow;
use crate::layouts::copy_layout;
use crate::places::{Callee, Places};
use crate::types::{array, cells_for, cells_or_none, copy_some, in_order, plain};
use sqlite_items::Items;
use std::alloc::{AllocError, Global};
use zir_compile::made::Placed;
use zir_compile::moves::{moving, settling};
use zir_compile::numbers::{Unmade, sum};
use zir_compile::scope::Names;
use zir_compile::structs::copy_type;
use zir_expr::frame::Spot;
use zir_expr::steps::Step;
use zir_flow::instruction::{Instruction, Series};
use zir_stage::layout::Layout;
use zir_tree::expr::Expr;
use zir_tree::stmt::{Body, Return};
use zir_tree::types::{Base, Ty};

/// Straight code.
pub fn run(steps: Vec<Step>) -> Instruction
    ensures { result ≡ Instruction.Run steps.items }
{
    Instruction::Run(Items::from_vec(steps))
}

/// `take`.
pub fn take(alloc: Global, names: &Names, input: &Ty, d: u32) -> Result<Flow, Unmade>
    ensures { (st : Setting) (p : Place) → IfOk result
        (making.Flowed st (scope_of names.now) input.now d (comp.Take p)) }
{
    let peak = sum(d, names.structs.cells(input))?;
    let value = copy_type(alloc, input)?;
    Ok(Flow {
        code: vec![in alloc; Instruction::Take(d), Instruction::Tick]?,
        value: Some(value),
        output: None,
        peak,
        depth: 0,
        layout: Layout::Flat,
    })
}

/// `takes` of so many.
pub fn takes(alloc: Global, names: &Names, n: u64, input: &Ty, d: u32) -> Result<Flow, Unmade>
    ensures { (st : Setting) (p : Place) → IfOk result
        (making.Flowed st (scope_of names.now) input.now d (comp.Takes n p)) }
{
    let size = cells_for(names, input)?;
    let count = sum(0, n)?;
    let counter = sum(d, n.saturating_mul(u64::from(size)))?;
    let peak = sum(counter, 1)?;
    let value = array(alloc, n, input)?;
    let first = vec![in alloc; Step::Number(Spot::Local(counter), 0)]?;
    let from = Spot::Local(d);
    let series = Series {
        counter,
        from,
        size,
        count,
    };
    Ok(Flow {
        code: vec![in alloc;
            run(first),
            Instruction::Takes(series, 2),
            Instruction::Tick,
            Instruction::Again(2),
        ]?,
        value: Some(value),
        output: None,
        peak,
        depth: 0,
        layout: Layout::Flat,
    })
}

/// `emit`.
pub fn emit(alloc: Global, names: &Names, e: &Expr, d: u32) -> Result<Flow, Unmade>
    ensures { (st : Setting) (input : Ty) (p : Place) → IfOk result
        (making.Flowed st (scope_of names.now) input d (comp.Emit e.now p)) }
{
    let mut steps = Vec::new(alloc);
    let x = names.expression(alloc, e, d, &mut steps)?;
    let n = sum(0, x.cells)?;
    let output = in_order(alloc, &x.ty)?;
    Ok(Flow {
        code: vec![in alloc; run(steps), Instruction::Tick, Instruction::Give(x.at, n)]?,
        value: Some(plain(alloc, Base::Unit)),
        output: Some(output),
        peak: x.peak,
        depth: 0,
        layout: Layout::Flat,
    })
}

/// `emits`.
pub fn emits(alloc: Global, names: &Names, e: &Expr, d: u32) -> Result<Flow, Unmade>
    ensures { (st : Setting) (input : Ty) (p : Place) → IfOk result
        (making.Flowed st (scope_of names.now) input d (comp.Emits e.now p)) }
{
    let mut steps = Vec::new(alloc);
    let Placed {
        at,
        ty,
        cells,
        peak,
    } = names.expression(alloc, e, d, &mut steps)?;
    let counter = sum(d, cells)?;
    let end = sum(counter, 1)?;
    steps.push(Step::Number(Spot::Local(counter), 0))?;
    let count = sum(0, ty.first_length())?;
    let output = in_order(alloc, &ty.element())?;
    let size = cells_for(names, &output)?;
    let series = Series {
        counter,
        from: at,
        size,
        count,
    };
    Ok(Flow {
        code: vec![in alloc; run(steps), Instruction::Gives(series)]?,
        value: Some(plain(alloc, Base::Unit)),
        output: Some(output),
        peak: peak.max(end),
        depth: 0,
        layout: Layout::Flat,
    })
}

/// `return`.
pub fn returns(alloc: Global, names: &Names, e: &Expr, d: u32) -> Result<Flow, Unmade>
    ensures { (st : Setting) (input : Ty) (p : Place) → IfOk result
        (making.Flowed st (scope_of names.now) input d (comp.Return e.now p)) }
{
    let mut steps = Vec::new(alloc);
    let x = names.expression(alloc, e, d, &mut steps)?;
    let end = sum(d, x.cells)?;
    settling(x.at, d, end - d, &mut steps)?;
    let value = in_order(alloc, &x.ty)?;
    Ok(Flow {
        code: vec![in alloc; run(steps), Instruction::Tick]?,
        value: Some(value),
        output: None,
        peak: x.peak.max(end),
        depth: 0,
        layout: Layout::Flat,
    })
}

/// The type of the value of a body, and the first cell behind all that its code uses.
#[derive(Drop)]
pub struct Valued {
    pub ty: Ty,
    pub peak: u32,
}

/// Adds the code of the value of a body, which goes to the cells from d on, where those from another on are free.
fn returned(
    alloc: Global,
    names: &Names,
    result_of: &Option<Return>,
    d: u32,
    free: u32,
    steps: &mut Vec<Step>,
) -> Result<Valued, Unmade>
    ensures { let g = scope_of names.now in
        IfOk result (making.Returned g result_of.now d free steps.old.items steps.new.items) }
{
    match result_of {
        None => Ok(Valued {
            ty: plain(alloc, Base::Unit),
            peak: free.max(d),
        }),
        Some(r) => {
            let x = names.expression(alloc, &r.value, free, steps)?;
            let end = sum(d, x.cells)?;
            settling(x.at, d, end - d, steps)?;
            let ty = in_order(alloc, &x.ty)?;
            Ok(Valued {
                ty,
                peak: x.peak.max(end),
            })
        }
    }
}

/// Adds the code of a body, whose value goes to the cells from d on. What its statements declare comes into scope.
fn doing(
    alloc: Global,
    names: &mut Names,
    body: &Body,
    d: u32,
    steps: &mut Vec<Step>,
) -> Result<Valued, Unmade>
    ensures moved { Moved names.old names.new }
    ensures code { let g = scope_of names.old in
        IfOk result (making.Done g body.now d steps.old.items steps.new.items) }
{
    let reach = names.row(alloc, body.statements.as_slice(), d, steps)?;
    let Valued { ty, peak } = returned(alloc, names, &body.result, d, reach.free, steps)?;
    Ok(Valued {
        ty,
        peak: reach.peak.max(peak),
    })
}

/// `do`.
pub fn does(alloc: Global, names: &mut Names, body: &Body, d: u32) -> Result<Flow, Unmade>
    ensures same { Same names.old names.new }
    ensures code { (st : Setting) (input : Ty) (p : Place) → IfOk result
        (making.Flowed st (scope_of names.old) input d (comp.Do body.now p)) }
{
    let depth = names.locals.len();
    let mut steps = Vec::new(alloc);
    let made = doing(alloc, names, body, d, &mut steps);
    names.locals.truncate(depth);
    let Valued { ty, peak } = made?;
    Ok(Flow {
        code: vec![in alloc; Instruction::Tick, run(steps)]?,
        value: Some(ty),
        output: None,
        peak,
        depth: 0,
        layout: Layout::Flat,
    })
}

/// `map` of the function at a place.
pub fn maps(alloc: Global, names: &Names, k: u32, input: &Ty, d: u32) -> Result<Flow, Unmade>
    ensures { (st : Setting) (f : Named) (p : Place) → IfOk result
        (making.Flowed st (scope_of names.now) input.now d (comp.Map f k p)) }
{
    let end = sum(d, names.structs.cells(input))?;
    let mut steps = Vec::new(alloc);
    let x = names.call(alloc, k, d, end, &mut steps)?;
    let n = sum(0, x.cells)?;
    let output = in_order(alloc, &x.ty)?;
    let there = Spot::Local(d);
    Ok(Flow {
        code: vec![in alloc;
            Instruction::Tick,
            Instruction::Take(d),
            Instruction::Tick,
            run(steps),
            Instruction::Tick,
            Instruction::Give(there, n),
            Instruction::Again(6),
        ]?,
        value: None,
        output: Some(output),
        peak: x.peak,
        depth: 0,
        layout: Layout::Flat,
    })
}

/// `filter` by the function at a place.
pub fn filters(alloc: Global, names: &Names, k: u32, input: &Ty, d: u32) -> Result<Flow, Unmade>
    ensures { (st : Setting) (f : Named) (p : Place) → IfOk result
        (making.Flowed st (scope_of names.now) input.now d (comp.Filter f k p)) }
{
    let n = cells_for(names, input)?;
    let next = sum(d, u64::from(n))?;
    let end = sum(next, u64::from(n))?;
    let there = Spot::Local(d);
    let copied = Spot::Local(next);
    let mut steps = Vec::new(alloc);
    moving(copied, there, n, &mut steps)?;
    let x = names.call(alloc, k, next, end, &mut steps)?;
    let output = copy_type(alloc, input)?;
    Ok(Flow {
        code: vec![in alloc;
            Instruction::Tick,
            Instruction::Take(d),
            Instruction::Tick,
            run(steps),
            Instruction::Branch(copied, false, 3),
            Instruction::Tick,
            Instruction::Give(there, n),
            Instruction::Again(7),
            Instruction::Tick,
            Instruction::Again(9),
        ]?,
        value: None,
        output: Some(output),
        peak: x.peak,
        depth: 0,
        layout: Layout::Flat,
    })
}

/// Behind the code of arguments, which stand from the cell d on, a call of an instance that is not there.
fn absent(alloc: Global, d: u32, steps: Vec<Step>, peak: u32) -> Result<Flow, Unmade>
    ensures { (st : Setting) (g : Scope) (input : Ty) (f : Named) (k : ℕ) (es : List OneExpr) → st.entries k ≡ None →
        making.Readied g es d steps.items peak → IfOk result (making.Flowed st g input d (comp.Call f k es)) }
{
    Ok(Flow {
        code: vec![in alloc; run(steps), Instruction::Tick]?,
        value: None,
        output: None,
        peak: peak.max(d),
        depth: 0,
        layout: Layout::Flat,
    })
}

/// Behind the code of arguments, which stand from the cell d on, a call of an instance.
fn enter(
    alloc: Global,
    names: &Names,
    callee: &Callee,
    d: u32,
    steps: Vec<Step>,
    peak: u32,
) -> Result<Flow, Unmade>
    ensures { (st : Setting) (input : Ty) (f : Named) (k : ℕ) (e : Entry) (es : List OneExpr) →
        let g = scope_of names.now in st.entries k ≡ Some e → IsEntry callee.now e → making.Readied g es d steps.items peak →
        IfOk result (making.Flowed st g input d (comp.Call f k es)) }
{
    let cells = cells_or_none(names, &callee.value)?;
    let end = sum(d, u64::from(cells.max(callee.needs)))?;
    let depth = sum(callee.depth, 1)?;
    let value = copy_some(alloc, &callee.value)?;
    let output = copy_some(alloc, &callee.emits)?;
    let layout = copy_layout(alloc, &callee.layout)?;
    Ok(Flow {
        code: vec![in alloc;
            run(steps),
            Instruction::Tick,
            Instruction::Enter(callee.place, d),
        ]?,
        value,
        output,
        peak: peak.max(end),
        depth,
        layout,
    })
}

/// A call of the instance at a place.
pub fn calls(
    alloc: Global,
    names: &Names,
    places: &Places,
    k: u32,
    es: &[Expr],
    d: u32,
) -> Result<Flow, Unmade>
    ensures { (st : Setting) (input : Ty) (f : Named) → Sets places.now st → IfOk result
        (making.Flowed st (scope_of names.now) input d (comp.Call f k es.now)) }
{
    let mut steps = Vec::new(alloc);
    let row = names.arguments(alloc, es, d, &mut steps)?;
    match places.callees.get(k as usize) {
        None => absent(alloc, d, steps, row.peak),
        Some(callee) => enter(alloc, names, callee, d, steps, row.peak),
    }
}

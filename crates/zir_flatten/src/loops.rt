// The code of loops and choices around that of the components inside.

ghost use Rattle.std.specs.Prelude.{◌≡◌, ◌+◌, ◌∷◌, [], ◌++◌, ℕ, false, length, IfOk};
ghost use Rattle.zir_tree.specs.declared.comp.Comp as comp;
ghost use Rattle.zir_tree.specs.declared.comp.Comp.{Comp as OneComp};
ghost use Rattle.zir_tree.specs.declared.expr.Expr.{Expr as OneExpr};
ghost use Rattle.zir_tree.specs.declared.ident.Ident.{Ident as Named};
ghost use Rattle.zir_tree.specs.declared.place.Place.{Place as At};
ghost use Rattle.zir_code.specs.Scopes.{Scope};
ghost use Rattle.zir_code.specs.Statements.{with_index};
ghost use Rattle.zir_compile.specs.Coded.{Coded};
ghost use Rattle.zir_compile.specs.Names.{scope_of};
ghost use Rattle.zir_flow.specs.Flowing as flowing;
ghost use Rattle.zir_flow.specs.Kinds.{Setting};
ghost use Rattle.zir_flatten.specs.Counted as counted;
ghost use Rattle.zir_flatten.specs.Making.{Flowed};

use crate::flow::Flow;
use crate::layouts::widest;
use crate::leaves::run;
use crate::types::{first_of, plain};
use std::alloc::{AllocError, Global};
use zir_compile::made::Placed;
use zir_compile::moves::settling;
use zir_compile::numbers::{Unmade, sum};
use zir_compile::scope::Names;
use zir_expr::frame::Spot;
use zir_expr::scalar::Operation;
use zir_expr::steps::Step;
use zir_expr::whole::Whole;
use zir_flow::instruction::Instruction;
use zir_tree::comp::Turning;
use zir_tree::expr::{Expr, Operator};
use zir_tree::place::Place;
use zir_tree::types::{Base, Ty};

/// The steps that leave the first index of a loop and its number of turns in cells, the cell of the index by its name,
/// the first free cell behind it, and the first cell behind all that the steps use.
#[derive(Drop)]
pub struct Range {
    pub steps: Vec<Step>,
    pub index: u32,
    pub free: u32,
    pub peak: u32,
}

/// How many instructions there are.
pub fn count(code: &[Instruction]) -> Result<u32, Unmade>
    ensures { IfOk result (λ n. n ≡ length code.now) }
{
    let n = sum(0, code.len() as u64)?;
    Ok(n)
}

/// Code with other code before it and an instruction behind it.
fn around(
    first: Vec<Instruction>,
    inside: Vec<Instruction>,
    last: Instruction,
) -> Result<Vec<Instruction>, AllocError>
    ensures { IfOk result (λ made. made.items ≡ first.items ++ (inside.items ++ last ∷ [])) }
{
    let mut code = first;
    let mut inside = inside;
    code.append(&mut inside)?;
    code.push(last)?;
    Ok(code)
}

/// `repeat` around the code of its body.
pub fn repeated(alloc: Global, body: Flow) -> Result<Flow, Unmade>
    ensures { (st : Setting) (g : Scope) (input : Ty) (d : ℕ) (c : OneComp) (p : At) →
        Flowed st g input d c body → IfOk result (Flowed st g input d (comp.Repeat c p)) }
{
    let n = count(body.code.as_slice())?;
    let back = sum(n, 1)?;
    let first = vec![in alloc; Instruction::Tick]?;
    Ok(Flow {
        code: around(first, body.code, Instruction::Again(back))?,
        value: None,
        output: body.output,
        peak: body.peak,
        depth: body.depth,
        layout: body.layout,
    })
}

/// Whether a loop ends where its test holds.
fn ends_where_set(turning: Turning) -> bool
    ensures { result ≡ flowing.ends_where_set turning }
{
    match turning {
        Turning::While => false,
        Turning::Until => true,
    }
}

/// `while` or `until` around the code of its body, with these steps for its test.
pub fn tested(
    alloc: Global,
    turning: Turning,
    steps: Vec<Step>,
    test: Placed,
    body: Flow,
) -> Result<Flow, Unmade>
    ensures { (st : Setting) (g : Scope) (input : Ty) (d : ℕ) (e : OneExpr) (c : OneComp) (p : At) →
        Coded g e d [] steps.items test → Flowed st g input d c body →
        IfOk result (Flowed st g input d (comp.While turning e c p)) }
{
    let n = count(body.code.as_slice())?;
    let onward = sum(n, 2)?;
    let back = sum(n, 3)?;
    let ends = ends_where_set(turning);
    let first = vec![in alloc;
        run(steps),
        Instruction::Branch(test.at, ends, onward),
        Instruction::Tick,
    ]?;
    Ok(Flow {
        code: around(first, body.code, Instruction::Again(back))?,
        value: Some(plain(alloc, Base::Unit)),
        output: body.output,
        peak: test.peak.max(body.peak),
        depth: body.depth,
        layout: body.layout,
    })
}

/// Adds the steps of a number of turns, which goes to the cell d.
pub fn number_of_turns(
    alloc: Global,
    names: &Names,
    e: &Expr,
    d: u32,
    steps: &mut Vec<Step>,
) -> Result<u32, Unmade>
    ensures { IfOk result (counted.Numbered (scope_of names.now) e.now d steps.old.items steps.new.items) }
{
    let x = names.expression(alloc, e, d, steps)?;
    let end = sum(d, 1)?;
    settling(x.at, d, 1, steps)?;
    Ok(x.peak.max(end))
}

/// `times` around the code of its body, where these steps leave the number of turns in the cell d.
pub fn turned(
    alloc: Global,
    d: u32,
    steps: Vec<Step>,
    peak: u32,
    body: Flow,
) -> Result<Flow, Unmade>
    ensures { (st : Setting) (g : Scope) (input : Ty) (e : OneExpr) (c : OneComp) (p : At) →
        counted.Numbered g e d [] steps.items peak → Flowed st g input (d + 1) c body →
        IfOk result (Flowed st g input d (comp.Times e c p)) }
{
    let n = count(body.code.as_slice())?;
    let far = sum(n, 2)?;
    let first = vec![in alloc; run(steps), Instruction::Turn(d, far), Instruction::Tick]?;
    Ok(Flow {
        code: around(first, body.code, Instruction::Again(far))?,
        value: Some(plain(alloc, Base::Unit)),
        output: body.output,
        peak: peak.max(body.peak),
        depth: body.depth,
        layout: body.layout,
    })
}

/// The steps of the first index of a loop and of its number of turns.
pub fn range_of(alloc: Global, names: &Names, a: &Expr, n: &Expr, d: u32) -> Result<Range, Unmade>
    ensures { IfOk result (counted.Ranged (scope_of names.now) a.now n.now d) }
{
    let mut steps = Vec::new(alloc);
    let first = number_of_turns(alloc, names, a, d, &mut steps)?;
    let next = sum(d, 1)?;
    let turns = number_of_turns(alloc, names, n, next, &mut steps)?;
    let index = sum(d, 2)?;
    let free = sum(d, 3)?;
    let end = sum(d, 4)?;
    Ok(Range {
        steps,
        index,
        free,
        peak: first.max(turns.max(end)),
    })
}

/// The steps by which the index of a loop goes to the cell of its name, and on.
fn index_steps(
    alloc: Global,
    d: u32,
    named: u32,
    one: u32,
    at: Place,
) -> Result<Vec<Step>, AllocError>
    ensures { named ≡ d + 2 → one ≡ d + 3 → IfOk result (λ steps. steps.items ≡ flowing.index_code d at) }
{
    let index = Spot::Local(d);
    let named = Spot::Local(named);
    let one = Spot::Local(one);
    let add = Operation::Whole(Operator::Add, Whole::ThirtyTwo);
    let steps = vec![in alloc;
        Step::Copy(named, index),
        Step::Number(one, 1),
        Step::Operate(add, index, index, one, at),
    ]?;
    Ok(steps)
}

/// `for` around the code of its body.
pub fn indexed(alloc: Global, d: u32, range: Range, at: Place, body: Flow) -> Result<Flow, Unmade>
    ensures { (st : Setting) (g : Scope) (input : Ty) (x : Named) (a n : OneExpr) (c : OneComp) →
        counted.Ranged g a n d range → Flowed st (with_index g (d + 2) x.id) input (d + 3) c body →
        IfOk result (Flowed st g input d (comp.For x a n c at)) }
{
    let n = count(body.code.as_slice())?;
    let far = sum(n, 3)?;
    let next = sum(d, 1)?;
    let inner = index_steps(alloc, d, range.index, range.free, at)?;
    let first = vec![in alloc;
        run(range.steps),
        Instruction::Turn(next, far),
        Instruction::Tick,
        run(inner),
    ]?;
    Ok(Flow {
        code: around(first, body.code, Instruction::Again(far))?,
        value: Some(plain(alloc, Base::Unit)),
        output: body.output,
        peak: range.peak.max(body.peak),
        depth: body.depth,
        layout: body.layout,
    })
}

/// The code of two ways, behind steps that leave a test in a cell.
fn ways(
    alloc: Global,
    steps: Vec<Step>,
    test: Spot,
    first: Vec<Instruction>,
    second: Vec<Instruction>,
) -> Result<Vec<Instruction>, Unmade>
    ensures { IfOk result (λ made. made.items ≡
        Instruction.Run steps.items ∷ Instruction.Branch test false (length first.items + 1)
        ∷ (first.items ++ (Instruction.Ahead (length second.items) ∷ second.items))) }
{
    let mut first = first;
    let mut second = second;
    let n = count(first.as_slice())?;
    let onward = sum(n, 1)?;
    let over = count(second.as_slice())?;
    let mut code = vec![in alloc; run(steps), Instruction::Branch(test, false, onward)]?;
    code.append(&mut first)?;
    code.push(Instruction::Ahead(over))?;
    code.append(&mut second)?;
    Ok(code)
}

/// `if` around the code of both ways, with these steps for its test.
pub fn chosen(
    alloc: Global,
    steps: Vec<Step>,
    test: Placed,
    first: Flow,
    second: Flow,
) -> Result<Flow, Unmade>
    ensures { (st : Setting) (g : Scope) (input : Ty) (d : ℕ) (e : OneExpr) (a b : OneComp) (p : At) →
        Coded g e d [] steps.items test → Flowed st g input d a first → Flowed st g input d b second →
        IfOk result (Flowed st g input d (comp.If e a b p)) }
{
    let layout = widest(alloc, &first.layout, &second.layout)?;
    Ok(Flow {
        code: ways(alloc, steps, test.at, first.code, second.code)?,
        value: first.value,
        output: first_of(first.output, second.output),
        peak: test.peak.max(first.peak.max(second.peak)),
        depth: first.depth.max(second.depth),
        layout,
    })
}

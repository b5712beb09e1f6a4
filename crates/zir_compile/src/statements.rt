// The code of statements.

ghost use Rattle.std.specs.Prelude.{◌≡◌, ◌+◌, List, [], ◌∷◌, ◌++◌, IfOk, OnOk};
ghost use Rattle.zir_tree.specs.declared.expr.Expr.{Expr as OneExpr};
ghost use Rattle.zir_tree.specs.declared.ident.Ident.{Ident as OneIdent};
ghost use Rattle.zir_tree.specs.declared.stmt.Stmt.{Stmt as OneStmt};
ghost use Rattle.zir_expr.specs.declared.steps.Step.{Step as OneStep, Fail};
ghost use Rattle.zir_meaning.specs.Values as values;
ghost use Rattle.zir_code.specs.Statements.{with_index};
ghost use Rattle.zir_compile.specs.Coded.{Fits, Coded};
ghost use Rattle.zir_compile.specs.Made.{written, scope_behind};
ghost use Rattle.zir_compile.specs.Makes.{Makes};
ghost use Rattle.zir_compile.specs.Names.{scope_of};
ghost use Rattle.zir_compile.specs.Stated as stated;

use crate::made::{Block, Placed, Range, Reach, Written};
use crate::moves::settling;
use crate::numbers::{Unmade, sum};
use crate::scope::Names;
use sqlite_items::Items;
use std::alloc::{AllocError, Global};
use zir_code::scope::Holder;
use zir_expr::frame::Spot;
use zir_expr::steps::{Counting, Fork, Step, Turn};
use zir_tree::expr::Expr;
use zir_tree::place::Place;
use zir_tree::stmt::{Stmt, Var};
use zir_tree::types::{Base, Ty, TypeExpr};

/// Trap 5: a statement `error`.
const ERROR: u8 = 5;

/// A type as it is written.
pub fn type_of(alloc: Global, ty: &TypeExpr) -> Result<Ty, AllocError>
    ensures { IfOk result (λ made. made ≡ values.type_of ty.now) }
{
    let mut lengths = Items::new(alloc);
    for dimension in ty.dimensions.as_slice() {
        lengths.push(dimension.length)?;
    }
    let base = ty.base;
    Ok(Ty { lengths, base })
}

/// The index of a loop, in the cell d.
fn counter(alloc: Global, id: u32, d: u32) -> Holder
    ensures { result ≡ stated.index_of id d }
{
    Holder {
        id,
        spot: Spot::Local(d),
        cells: 1,
        ty: Ty {
            lengths: Items::new(alloc),
            base: Base::Int32,
        },
    }
}

/// A trap, at which statements end.
fn failing(at: Place, d: u32, steps: &mut Vec<Step>) -> Result<Reach, AllocError>
    ensures reach { IfOk result (λ reach. reach ≡ record { free = d; peak = d }) }
    ensures code { OnOk result (steps.new.items ≡ steps.old.items ++ Fail 5 at ∷ []) }
{
    steps.push(Step::Fail(ERROR, at))?;
    Ok(Reach { free: d, peak: d })
}

impl Names {
    /// The code of statements, whose cells from d on are free. What they declare comes into scope. There is no code,
    /// and nothing comes into scope, where 32 bits do not hold its numbers.
    pub fn statements(
        &mut self,
        alloc: Global,
        statements: &[Stmt],
        d: u32,
    ) -> Result<Option<Written>, AllocError>
        ensures code { IfOk result (λ made. made ≡ written (scope_of self.old) statements.now d) }
        ensures scope { OnOk result (scope_of self.new ≡ scope_behind (scope_of self.old) statements.now d) }
    {
        let depth = self.locals.len();
        let mut steps = Vec::new(alloc);
        match self.row(alloc, statements, d, &mut steps) {
            Ok(reach) => Ok(Some(Written {
                steps: Items::from_vec(steps),
                free: reach.free,
                peak: reach.peak,
            })),
            Err(Unmade::Large) => {
                self.locals.truncate(depth);
                Ok(None)
            }
            Err(Unmade::Memory(error)) => Err(error),
        }
    }

    /// A variable comes into scope.
    fn declared(
        &mut self,
        alloc: Global,
        v: &Var,
        d: u32,
        steps: &mut Vec<Step>,
    ) -> Result<Reach, Unmade>
        ensures moved { stated.Moved self.old self.new }
        ensures code { let g = scope_of self.old in let a = Stmt.Var v.now in
            Makes (stated.StmtFits g a d)
            (stated.Stated g a d steps.old.items steps.new.items (scope_of self.new)) result }
    {
        let ty = type_of(alloc, &v.ty)?;
        let free = sum(d, self.structs.cells(&ty))?;
        let cells = free - d;
        let peak = self.initial(alloc, &v.initial, d, cells, steps)?;
        self.locals.push(Holder {
            id: v.name.id,
            spot: Spot::Local(d),
            cells,
            ty,
        })?;
        Ok(Reach {
            free,
            peak: free.max(peak),
        })
    }

    /// A function is called, and its value left out.
    fn call_alone(
        &self,
        alloc: Global,
        k: u32,
        es: &[Expr],
        d: u32,
        steps: &mut Vec<Step>,
    ) -> Result<Reach, Unmade>
        ensures { (name : OneIdent) → let g = scope_of self.now in let a = Stmt.Call name k es.now in
            Makes (stated.StmtFits g a d) (stated.Stated g a d steps.old.items steps.new.items g) result }
    {
        let row = self.arguments(alloc, es, d, steps)?;
        let placed = self.call(alloc, k, d, row.peak, steps)?;
        Ok(Reach {
            free: d,
            peak: placed.peak,
        })
    }

    /// Adds the code of the first index of a loop and of its number of turns, each into a cell of its own.
    fn range(
        &self,
        alloc: Global,
        from: &Expr,
        n: &Expr,
        d: u32,
        steps: &mut Vec<Step>,
    ) -> Result<Range, Unmade>
        ensures { let g = scope_of self.now in
            Makes (stated.RangeFits g from.now n.now d)
            (stated.Ranged g from.now n.now d steps.old.items steps.new.items) result }
    {
        let first = self.expression(alloc, from, d, steps)?;
        let next = sum(d, 1)?;
        let end = sum(d, 2)?;
        settling(first.at, d, 1, steps)?;
        let turns = self.expression(alloc, n, next, steps)?;
        settling(turns.at, next, 1, steps)?;
        Ok(Range {
            next,
            peak: first.peak.max(turns.peak.max(end)),
        })
    }

    /// Adds a choice by a test that stands in a cell, whose first way is these statements.
    #[cycle(stating)]
    fn choice(
        &mut self,
        alloc: Global,
        a: &[Stmt],
        test: Placed,
        d: u32,
        steps: &mut Vec<Step>,
    ) -> Result<Reach, Unmade>
        ensures same { stated.Same self.old self.new }
        ensures code { (e : OneExpr) (at : Place) (before : List OneStep) → let g = scope_of self.old in
            Fits g e d → Coded g e d before steps.old.items test → let s = Stmt.If e a.now at in
            Makes (stated.StmtFits g s d) (stated.Stated g s d before steps.new.items g) result }
    {
        let first = self.block(alloc, a, d)?;
        steps.push(Step::Branch(Fork {
            test: test.at,
            first: first.steps,
            second: Items::new(alloc),
        }))?;
        Ok(Reach {
            free: d,
            peak: test.peak.max(first.peak),
        })
    }

    /// Adds a choice by a test that stands in a cell, whose second way is these statements.
    #[cycle(stating)]
    fn either(
        &mut self,
        alloc: Global,
        b: &[Stmt],
        test: Placed,
        first: Block,
        d: u32,
        steps: &mut Vec<Step>,
    ) -> Result<Reach, Unmade>
        ensures same { stated.Same self.old self.new }
        ensures code { (e : OneExpr) (a : List OneStmt) (at : Place) (before : List OneStep) →
            let g = scope_of self.old in
            Fits g e d → Coded g e d before steps.old.items test → stated.RowFits g a d → stated.Blocked g a d first →
            let s = Stmt.IfElse e a b.now at in
            Makes (stated.StmtFits g s d) (stated.Stated g s d before steps.new.items g) result }
    {
        let second = self.block(alloc, b, d)?;
        steps.push(Step::Branch(Fork {
            test: test.at,
            first: first.steps,
            second: second.steps,
        }))?;
        Ok(Reach {
            free: d,
            peak: test.peak.max(first.peak.max(second.peak)),
        })
    }

    /// Adds a loop with this test, which leaves its answer in a cell, and these statements.
    #[cycle(stating)]
    fn turns(
        &mut self,
        alloc: Global,
        a: &[Stmt],
        test: Vec<Step>,
        answer: Placed,
        d: u32,
        steps: &mut Vec<Step>,
    ) -> Result<Reach, Unmade>
        ensures same { stated.Same self.old self.new }
        ensures code { (e : OneExpr) (at : Place) → let g = scope_of self.old in
            Fits g e d → Coded g e d [] test.items answer → let s = Stmt.While e a.now at in
            Makes (stated.StmtFits g s d) (stated.Stated g s d steps.old.items steps.new.items g) result }
    {
        let body = self.block(alloc, a, d)?;
        steps.push(Step::While(Turn {
            test: Items::from_vec(test),
            cell: answer.at,
            body: body.steps,
        }))?;
        Ok(Reach {
            free: d,
            peak: answer.peak.max(body.peak),
        })
    }

    /// The code of these statements in a scope of their own, where the index of a loop in the cell d is in scope too.
    #[cycle(stating)]
    fn counting(
        &mut self,
        alloc: Global,
        b: &[Stmt],
        id: u32,
        d: u32,
        next: u32,
    ) -> Result<Block, Unmade>
        ensures same { stated.Same self.old self.new }
        ensures code { next ≡ d + 1 → let g = with_index (scope_of self.old) d id in
            Makes (stated.RowFits g b.now (d + 1)) (stated.Blocked g b.now (d + 1)) result }
    {
        let depth = self.locals.len();
        self.locals.push(counter(alloc, id, d))?;
        let body = self.block(alloc, b, next);
        self.locals.truncate(depth);
        body
    }

    /// Adds a loop that counts, whose range stands in its cells, and these statements.
    #[cycle(stating)]
    fn counts(
        &mut self,
        alloc: Global,
        b: &[Stmt],
        id: u32,
        range: Range,
        d: u32,
        steps: &mut Vec<Step>,
    ) -> Result<Reach, Unmade>
        ensures same { stated.Same self.old self.new }
        ensures code { (name : OneIdent) (a n : OneExpr) (at : Place) (before : List OneStep) →
            let g = scope_of self.old in
            name.id ≡ id → stated.RangeFits g a n d → stated.Ranged g a n d before steps.old.items range →
            let s = Stmt.For name a n b.now at in
            Makes (stated.StmtFits g s d) (stated.Stated g s d before steps.new.items g) result }
    {
        let body = self.counting(alloc, b, id, d, range.next)?;
        steps.push(Step::Count(Counting {
            turns: Spot::Local(range.next),
            index: Spot::Local(d),
            body: body.steps,
        }))?;
        Ok(Reach {
            free: d,
            peak: range.peak.max(body.peak),
        })
    }

    /// Adds the code of a statement. What it declares comes into scope.
    #[cycle(stating)]
    fn statement(
        &mut self,
        alloc: Global,
        a: &Stmt,
        d: u32,
        steps: &mut Vec<Step>,
    ) -> Result<Reach, Unmade>
        ensures moved { stated.Moved self.old self.new }
        ensures code { let g = scope_of self.old in
            Makes (stated.StmtFits g a.now d)
            (stated.Stated g a.now d steps.old.items steps.new.items (scope_of self.new)) result }
    {
        match a {
            Stmt::Var(v) => self.declared(alloc, v, d, steps),
            Stmt::Assign(name, path, e) => self.assigned(alloc, name, path.as_slice(), e, d, steps),
            Stmt::Call(_, k, es) => self.call_alone(alloc, *k, es.as_slice(), d, steps),
            Stmt::Error(_, at) => {
                let reach = failing(*at, d, steps)?;
                Ok(reach)
            }
            Stmt::If(e, a, _) => {
                let test = self.expression(alloc, e, d, steps)?;
                self.choice(alloc, a.as_slice(), test, d, steps)
            }
            Stmt::IfElse(e, a, b, _) => {
                let test = self.expression(alloc, e, d, steps)?;
                let first = self.block(alloc, a.as_slice(), d)?;
                self.either(alloc, b.as_slice(), test, first, d, steps)
            }
            Stmt::While(e, a, _) => {
                let mut test = Vec::new(alloc);
                let answer = self.expression(alloc, e, d, &mut test)?;
                self.turns(alloc, a.as_slice(), test, answer, d, steps)
            }
            Stmt::For(x, from, n, b, _) => {
                let range = self.range(alloc, from, n, d, steps)?;
                self.counts(alloc, b.as_slice(), x.id, range, d, steps)
            }
        }
    }

    /// The code of statements in a scope of their own.
    #[cycle(stating)]
    fn block(&mut self, alloc: Global, statements: &[Stmt], d: u32) -> Result<Block, Unmade>
        ensures same { stated.Same self.old self.new }
        ensures code { let g = scope_of self.old in
            Makes (stated.RowFits g statements.now d) (stated.Blocked g statements.now d) result }
    {
        let depth = self.locals.len();
        let mut steps = Vec::new(alloc);
        let reach = self.row(alloc, statements, d, &mut steps);
        self.locals.truncate(depth);
        let peak = reach?.peak;
        Ok(Block {
            steps: Items::from_vec(steps),
            peak,
        })
    }

    /// Adds the code of statements one after the other. What they declare comes into scope.
    #[cycle(stating)]
    pub fn row(
        &mut self,
        alloc: Global,
        statements: &[Stmt],
        d: u32,
        steps: &mut Vec<Step>,
    ) -> Result<Reach, Unmade>
        ensures moved { stated.Moved self.old self.new }
        ensures code { let g = scope_of self.old in
            Makes (stated.RowFits g statements.now d)
            (stated.Rowed g statements.now d steps.old.items steps.new.items (scope_of self.new)) result }
    {
        let mut free = d;
        let mut peak = d;
        for a in statements {
            let reach = self.statement(alloc, a, free, steps)?;
            free = reach.free;
            peak = peak.max(reach.peak);
        }
        Ok(Reach {
            free,
            peak: peak.max(free),
        })
    }
}

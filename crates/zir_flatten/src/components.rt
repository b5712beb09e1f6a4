// The code of components.

ghost use Rattle.std.specs.Prelude.{◌≡◌, ◌+◌, ℕ, Some, IfOk};
ghost use Rattle.zir_tree.specs.declared.comp.Comp as comp;
ghost use Rattle.zir_tree.specs.declared.comp.Comp.{Comp as OneComp};
ghost use Rattle.zir_tree.specs.declared.types.Ty.{Ty as OneTy};
ghost use Rattle.zir_tree.specs.declared.comp.Link.{Link as Joining};
ghost use Rattle.zir_tree.specs.declared.ident.Ident.{Ident as Named};
ghost use Rattle.zir_tree.specs.declared.place.Place.{Place as At};
ghost use Rattle.zir_tree.specs.declared.comp.Member as member;
ghost use Rattle.zir_code.specs.Statements.{with_index};
ghost use Rattle.zir_code.specs.Types.{type_or_unit};
ghost use Rattle.zir_compile.specs.Names.{scope_of};
ghost use Rattle.zir_compile.specs.Stated.{Moved, Same};
ghost use Rattle.zir_flow.specs.Flowing as flowing;
ghost use Rattle.zir_flow.specs.Kinds.{Setting};
ghost use Rattle.zir_meaning.specs.Assigned.{assigns};
ghost use Rattle.zir_flatten.specs.Callable.{Sets};
ghost use Rattle.zir_flatten.specs.Making.{Flowed};
ghost use Rattle.zir_flatten.specs.Members.{FollowsIn};

use crate::flow::Flow;
use crate::leaves::{calls, does, emit, emits, filters, maps, returns, take, takes};
use crate::loops::{chosen, indexed, number_of_turns, range_of, repeated, tested, turned};
use crate::members::{Row, bound, declared, ended, followed, no_member};
use crate::pipes::piped;
use crate::places::Places;
use crate::types::{copy_between, plain};
use sqlite_items::Items;
use std::alloc::Global;
use zir_code::scope::Holder;
use zir_compile::numbers::{Unmade, sum};
use zir_compile::scope::Names;
use zir_expr::frame::Spot;
use zir_flow::instruction::Back;
use zir_tree::comp::{Comp, Member, Turning};
use zir_tree::expr::Expr;
use zir_tree::place::Place;
use zir_tree::types::{Base, Ty};

impl Places {
    /// The code of the body of a loop that counts, where its index is in scope in the cell before those from d on.
    #[cycle(flowing)]
    fn counted(
        &self,
        alloc: Global,
        names: &mut Names,
        c: &Comp,
        id: u32,
        index: u32,
        input: &Ty,
        d: u32,
    ) -> Result<Flow, Unmade>
        ensures same { Same names.old names.new }
        ensures code { (st : Setting) → Sets self.now st →
            IfOk result (Flowed st (with_index (scope_of names.old) index id) input.now d c.now) }
    {
        let depth = names.locals.len();
        names.locals.push(Holder {
            id,
            spot: Spot::Local(index),
            cells: 1,
            ty: plain(alloc, Base::Int32),
        })?;
        let made = self.component(alloc, names, c, input, d);
        names.locals.truncate(depth);
        made
    }

    /// `while` or `until`.
    #[cycle(flowing)]
    fn looped(
        &self,
        alloc: Global,
        names: &mut Names,
        c: &Comp,
        turning: Turning,
        e: &Expr,
        input: &Ty,
        d: u32,
    ) -> Result<Flow, Unmade>
        ensures same { Same names.old names.new }
        ensures code { (st : Setting) (p : At) → Sets self.now st →
            IfOk result (Flowed st (scope_of names.old) input.now d (comp.While turning e.now c.now p)) }
    {
        let mut steps = Vec::new(alloc);
        let test = names.expression(alloc, e, d, &mut steps)?;
        let body = self.component(alloc, names, c, input, d)?;
        tested(alloc, turning, steps, test, body)
    }

    /// `times`.
    #[cycle(flowing)]
    fn times(
        &self,
        alloc: Global,
        names: &mut Names,
        c: &Comp,
        e: &Expr,
        input: &Ty,
        d: u32,
    ) -> Result<Flow, Unmade>
        ensures same { Same names.old names.new }
        ensures code { (st : Setting) (p : At) → Sets self.now st →
            IfOk result (Flowed st (scope_of names.old) input.now d (comp.Times e.now c.now p)) }
    {
        let mut steps = Vec::new(alloc);
        let peak = number_of_turns(alloc, names, e, d, &mut steps)?;
        let next = sum(d, 1)?;
        let body = self.component(alloc, names, c, input, next)?;
        turned(alloc, d, steps, peak, body)
    }

    /// `for`, where its index has this number.
    #[cycle(flowing)]
    fn counting(
        &self,
        alloc: Global,
        names: &mut Names,
        c: &Comp,
        id: u32,
        a: &Expr,
        n: &Expr,
        input: &Ty,
        d: u32,
        at: Place,
    ) -> Result<Flow, Unmade>
        ensures same { Same names.old names.new }
        ensures code { (st : Setting) (x : Named) → x.id ≡ id → Sets self.now st →
            IfOk result (Flowed st (scope_of names.old) input.now d (comp.For x a.now n.now c.now at)) }
    {
        let range = range_of(alloc, names, a, n, d)?;
        let body = self.counted(alloc, names, c, id, range.index, input, range.free)?;
        indexed(alloc, d, range, at, body)
    }

    /// `if` behind the code of its first way.
    #[cycle(flowing)]
    fn choice(
        &self,
        alloc: Global,
        names: &mut Names,
        b: &Comp,
        e: &Expr,
        first: Flow,
        input: &Ty,
        d: u32,
    ) -> Result<Flow, Unmade>
        ensures same { Same names.old names.new }
        ensures code { (st : Setting) (a : OneComp) (p : At) → Sets self.now st → let g = scope_of names.old in
            Flowed st g input.now d a first → IfOk result (Flowed st g input.now d (comp.If e.now a b.now p)) }
    {
        let mut steps = Vec::new(alloc);
        let test = names.expression(alloc, e, d, &mut steps)?;
        let second = self.component(alloc, names, b, input, d)?;
        chosen(alloc, steps, test, first, second)
    }

    /// A composition behind the code of its left side, which brings back these cells.
    #[cycle(flowing)]
    fn pipe(
        &self,
        alloc: Global,
        names: &mut Names,
        b: &Comp,
        back: Items<Back>,
        left: Flow,
        d: u32,
    ) -> Result<Flow, Unmade>
        ensures same { Same names.old names.new }
        ensures code { (st : Setting) (input : OneTy) (link : Joining) (a : OneComp) (p : At) → Sets self.now st →
            let g = scope_of names.old in
            back ≡ flowing.back_of (assigns st.assigned a) g → Flowed st g input d a left →
            IfOk result (Flowed st g input d (comp.Pipe link a b.now p)) }
    {
        let between = copy_between(alloc, &left.output)?;
        let right = self.component(alloc, names, b, &between, d)?;
        piped(alloc, names, d, back, left, right)
    }

    /// A member of a block, which began with the cells from begin on free, behind those before it. What it declares
    /// comes into scope.
    #[cycle(flowing)]
    fn member(
        &self,
        alloc: Global,
        names: &mut Names,
        m: &Member,
        input: &Ty,
        begin: u32,
        row: Row,
    ) -> Result<Row, Unmade>
        ensures moved { Moved names.old names.new }
        ensures code { (st : Setting) → Sets self.now st →
            IfOk result (FollowsIn begin st (scope_of names.old) input.now m.now row (scope_of names.new)) }
    {
        match m {
            Member::Bind(x, c) => {
                let flow = self.component(alloc, names, c, input, row.free)?;
                bound(alloc, names, x.id, flow, row)
            }
            Member::Var(v) => declared(alloc, names, v, begin, row),
            Member::Run(c) => {
                let flow = self.component(alloc, names, c, input, row.free)?;
                followed(alloc, names, flow, row)
            }
        }
    }

    /// The members of a block. What they declare comes into scope.
    #[cycle(flowing)]
    fn members(
        &self,
        alloc: Global,
        names: &mut Names,
        ms: &[Member],
        input: &Ty,
        d: u32,
    ) -> Result<Flow, Unmade>
        ensures moved { Moved names.old names.new }
        ensures code { (st : Setting) (p : At) → Sets self.now st →
            IfOk result (Flowed st (scope_of names.old) input.now d (comp.Block ms.now p)) }
    {
        let mut row = no_member(alloc, d);
        for m in ms {
            row = self.member(alloc, names, m, input, d, row)?;
        }
        ended(alloc, names, d, row)
    }

    /// A block.
    #[cycle(flowing)]
    fn block(
        &self,
        alloc: Global,
        names: &mut Names,
        ms: &[Member],
        input: &Ty,
        d: u32,
    ) -> Result<Flow, Unmade>
        ensures same { Same names.old names.new }
        ensures code { (st : Setting) (p : At) → Sets self.now st →
            IfOk result (Flowed st (scope_of names.old) input.now d (comp.Block ms.now p)) }
    {
        let depth = names.locals.len();
        let made = self.members(alloc, names, ms, input, d);
        names.locals.truncate(depth);
        made
    }

    /// The code of a component whose elements have this type and whose cells from d on are free.
    #[cycle(flowing)]
    pub fn component(
        &self,
        alloc: Global,
        names: &mut Names,
        c: &Comp,
        input: &Ty,
        d: u32,
    ) -> Result<Flow, Unmade>
        ensures same { Same names.old names.new }
        ensures code { (st : Setting) → Sets self.now st →
            IfOk result (Flowed st (scope_of names.old) input.now d c.now) }
    {
        match c {
            Comp::Take(_) => take(alloc, names, input, d),
            Comp::Takes(n, _) => takes(alloc, names, *n, input, d),
            Comp::Emit(e, _) => emit(alloc, names, e, d),
            Comp::Emits(e, _) => emits(alloc, names, e, d),
            Comp::Return(e, _) => returns(alloc, names, e, d),
            Comp::Do(body, _) => does(alloc, names, body, d),
            Comp::Repeat(c, _) => {
                let body = self.component(alloc, names, c.get(), input, d)?;
                repeated(alloc, body)
            }
            Comp::While(turning, e, c, _) => {
                self.looped(alloc, names, c.get(), *turning, e, input, d)
            }
            Comp::Times(e, c, _) => self.times(alloc, names, c.get(), e, input, d),
            Comp::For(x, a, n, c, at) => {
                self.counting(alloc, names, c.get(), x.id, a, n, input, d, *at)
            }
            Comp::If(e, a, b, _) => {
                let first = self.component(alloc, names, a.get(), input, d)?;
                self.choice(alloc, names, b.get(), e, first, input, d)
            }
            Comp::Map(_, k, _) => maps(alloc, names, *k, input, d),
            Comp::Filter(_, k, _) => filters(alloc, names, *k, input, d),
            Comp::Call(_, k, es) => calls(alloc, names, self, *k, es.as_slice(), d),
            Comp::Block(ms, _) => self.block(alloc, names, ms.as_slice(), input, d),
            Comp::Pipe(_, a, b, _) => {
                let back = self.back_of(alloc, names, a.get())?;
                let left = self.component(alloc, names, a.get(), input, d)?;
                self.pipe(alloc, names, b.get(), back, left, d)
            }
        }
    }
}

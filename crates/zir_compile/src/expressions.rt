// The code of expressions.

ghost use Rattle.std.specs.Prelude.{◌≡◌, ◌+◌, ◌<◌, ◌^◌, max, List, [], ◌∷◌, ◌++◌, true, IfOk, OnOk};
ghost use Rattle.zir_expr.specs.declared.steps.Step.{Step as OneStep, Number};
ghost use Rattle.zir_shapes.specs.Offsets as offsets;
ghost use Rattle.zir_code.specs.Coding as coding;
ghost use Rattle.zir_code.specs.Peaks as peaks;
ghost use Rattle.zir_code.specs.Scopes.{Scope};
ghost use Rattle.zir_code.specs.Types as types;
ghost use Rattle.zir_compile.specs.Coded as coded;
ghost use Rattle.zir_compile.specs.Deciding.{left_decides};
ghost use Rattle.zir_compile.specs.Extents.{type_at};
ghost use Rattle.zir_compile.specs.Made.{code_if};
ghost use Rattle.zir_compile.specs.Makes.{Makes};
ghost use Rattle.zir_compile.specs.Names.{scope_of};

use crate::calm::is_calm;
use crate::extent::Extent;
use crate::made::{Arguments, Made, Placed};
use crate::moves::settling;
use crate::numbers::{Unmade, behind, sum};
use crate::operations::{decided, operating};
use crate::operators::{converted, deciding, is_whole, literal, operator_type, prefixed};
use crate::scope::Names;
use sqlite_items::Items;
use std::alloc::{AllocError, Global};
use zir_expr::frame::Spot;
use zir_expr::steps::Step;
use zir_tree::expr::{Callee, Expr, Operator, Prefix};
use zir_tree::ident::Ident;
use zir_tree::place::Place;
use zir_tree::types::Base;

/// A number of one cell, of this type, goes to the cell d.
fn number(alloc: Global, n: i64, t: Base, d: u32, steps: &mut Vec<Step>) -> Result<Placed, Unmade>
    ensures { Makes (d + 1 < 2 ^ 32)
        (coded.Stands (Number (Spot.Local d) n ∷ []) (Spot.Local d) (offsets.plain_type t) 1 (d + 1)
        steps.old.items steps.new.items) result }
{
    let peak = sum(d, 1)?;
    let at = Spot::Local(d);
    steps.push(Step::Number(at, n))?;
    let ty = Extent::plain(alloc, t);
    Ok(Placed {
        at,
        ty,
        cells: 1,
        peak,
    })
}

/// A number of a whole type goes to the cell d; one of any other type has no code.
fn whole_number(
    alloc: Global,
    n: i64,
    t: Base,
    d: u32,
    steps: &mut Vec<Step>,
) -> Result<Placed, Unmade>
    ensures { Makes ((d + 1 < 2 ^ 32) × (offsets.is_whole t ≡ true))
        (coded.Stands (Number (Spot.Local d) n ∷ []) (Spot.Local d)
        (offsets.plain_type t) 1 (d + 1) steps.old.items steps.new.items) result }
{
    if is_whole(t) {
        number(alloc, n, t, d, steps)
    } else {
        Err(Unmade::Large)
    }
}

/// Unit, which has no cells.
fn unit(alloc: Global, d: u32) -> Result<Placed, Unmade>
    ensures { Makes (d + 1 < 2 ^ 32)
        (coded.Stands [] (Spot.Local d) (offsets.plain_type Base.Unit) 0 (d + 1) [] []) result }
{
    let peak = sum(d, 1)?;
    let ty = Extent::plain(alloc, Base::Unit);
    Ok(Placed {
        at: Spot::Local(d),
        ty,
        cells: 0,
        peak,
    })
}

/// The type of the first, where it is not known already.
fn first_of(known: Option<Extent>, ty: Extent) -> Option<Extent>
    ensures { (g : Scope) (e : Expr) (es : List Expr) → type_at ty ≡ types.type_in g e →
        coded.first_from g known (e ∷ es) ≡ coded.first_from g result es }
{
    match known {
        None => Some(ty),
        Some(first) => Some(first),
    }
}

/// The type that is known, or else unit.
fn known_or_unit(alloc: Global, known: Option<Extent>) -> Extent
    ensures { (g : Scope) → type_at result ≡ coded.first_from g known [] }
{
    match known {
        None => Extent::plain(alloc, Base::Unit),
        Some(first) => first,
    }
}

impl Names {
    /// A value of a type that is no array goes to the cells from d on, behind which there is a peak already.
    fn answer(&self, alloc: Global, t: Base, d: u32, peak: u32) -> Result<Placed, Unmade>
        ensures { let ty = offsets.plain_type t in let n = types.cells_for (scope_of self.now) ty in
            Makes (peaks.behind d n < 2 ^ 32)
            (coded.Stands [] (Spot.Local d) ty n (max peak (peaks.behind d n)) [] []) result }
    {
        let ty = Extent::plain(alloc, t);
        let cells = self.structs.cells_at(&ty);
        let end = behind(d, cells)?;
        Ok(Placed {
            at: Spot::Local(d),
            ty,
            cells,
            peak: peak.max(end),
        })
    }

    /// The answer of an operator whose left side has a type goes to the cells from d on, behind which there is a peak
    /// already.
    fn operator_answer(
        &self,
        alloc: Global,
        operator: Operator,
        t: Base,
        d: u32,
        peak: u32,
    ) -> Result<Placed, Unmade>
        ensures { let g = scope_of self.now in let ty = offsets.plain_type (types.operator_type operator t) in
            let n = types.cells_for g (offsets.plain_type t) in
            Makes (peaks.behind d n < 2 ^ 32)
            (coded.Stands [] (Spot.Local d) ty (types.cells_for g ty) (max peak (peaks.behind d n)) [] []) result }
    {
        let side = Extent::plain(alloc, t);
        let end = behind(d, self.structs.cells_at(&side))?;
        let ty = Extent::plain(alloc, operator_type(operator, t));
        let cells = self.structs.cells_at(&ty);
        Ok(Placed {
            at: Spot::Local(d),
            ty,
            cells,
            peak: peak.max(end),
        })
    }

    /// The value of the variable of this number.
    fn read_variable(
        &self,
        alloc: Global,
        x: &Ident,
        d: u32,
        steps: &mut Vec<Step>,
    ) -> Result<Placed, Unmade>
        ensures { let g = scope_of self.now in let e = Expr.Variable x.now in
            Makes (coded.Fits g e d) (coded.Coded g e d steps.old.items steps.new.items) result }
    {
        match self.standing_variable(alloc, x.id)? {
            None => unit(alloc, d),
            Some(value) => self.read(value, d, steps),
        }
    }

    /// Adds the code of a prefix.
    #[cycle(coding)]
    fn unary(
        &self,
        alloc: Global,
        a: &Expr,
        prefix: Prefix,
        t: Base,
        d: u32,
        steps: &mut Vec<Step>,
    ) -> Result<Placed, Unmade>
        ensures { (at : Place) → let g = scope_of self.now in let e = Expr.Unary prefix t a.now at in
            Makes (coded.Fits g e d) (coded.Coded g e d steps.old.items steps.new.items) result }
    {
        let x = self.expression(alloc, a, d, steps)?;
        steps.push(prefixed(prefix, t, x.at, d))?;
        self.answer(alloc, t, d, x.peak)
    }

    /// Adds the code of a conversion.
    #[cycle(coding)]
    fn convert(
        &self,
        alloc: Global,
        a: &Expr,
        t: Base,
        d: u32,
        steps: &mut Vec<Step>,
    ) -> Result<Placed, Unmade>
        ensures { (at : Place) → let g = scope_of self.now in let e = Expr.Convert t a.now at in
            Makes (coded.Fits g e d) (coded.Coded g e d steps.old.items steps.new.items) result }
    {
        let x = self.expression(alloc, a, d, steps)?;
        steps.push(converted(t, x.at, d))?;
        self.answer(alloc, t, d, x.peak)
    }

    /// Adds the code of the right side of an operator, which takes both.
    #[cycle(coding)]
    fn operated(
        &self,
        alloc: Global,
        b: &Expr,
        operator: (Operator, Base, Place),
        left: Spot,
        free: u32,
        d: u32,
        steps: &mut Vec<Step>,
    ) -> Result<u32, Unmade>
        ensures { let g = scope_of self.now in let y = coding.stands g b.now free in
            Makes (coded.SidesFit g b.now free left d) (coded.Grows
            (coding.code_of g b.now free ++ coding.operating operator.0 operator.1 operator.2 left y d)
            (peaks.peak_of g b.now free) steps.old.items steps.new.items) result }
    {
        let (operator, t, at) = operator;
        let right = self.expression(alloc, b, free, steps)?;
        operating(operator, t, at, (left, right.at), d, steps)?;
        Ok(right.peak)
    }

    /// Adds the code of the right side of an operator, which is left out where the left side decides.
    #[cycle(coding)]
    fn left_out(
        &self,
        alloc: Global,
        b: &Expr,
        either: bool,
        left: Spot,
        free: u32,
        d: u32,
        steps: &mut Vec<Step>,
    ) -> Result<u32, Unmade>
        ensures { let g = scope_of self.now in let y = coding.stands g b.now free in
            Makes (coded.SidesFit g b.now free left d) (coded.Grows
            (left_decides either left y d (coding.code_of g b.now free))
            (peaks.peak_of g b.now free) steps.old.items steps.new.items) result }
    {
        let mut others = Vec::new(alloc);
        let right = self.expression(alloc, b, free, &mut others)?;
        decided(alloc, either, (left, right.at), d, others, steps)?;
        Ok(right.peak)
    }

    /// Adds the code of the right side of an operator, behind that of the left side.
    #[cycle(coding)]
    fn right(
        &self,
        alloc: Global,
        b: &Expr,
        operator: (Operator, Base, Place),
        left: Spot,
        free: u32,
        d: u32,
        steps: &mut Vec<Step>,
    ) -> Result<u32, Unmade>
        ensures { let g = scope_of self.now in
            Makes (coded.SidesFit g b.now free left d)
            (coded.Operated operator.0 operator.1 operator.2 left g b.now free d steps.old.items steps.new.items) result }
    {
        match deciding(operator.0) {
            None => self.operated(alloc, b, operator, left, free, d, steps),
            Some(either) => self.left_out(alloc, b, either, left, free, d, steps),
        }
    }

    /// Adds the code of an operator, behind that of its left side.
    #[cycle(coding)]
    fn binary(
        &self,
        alloc: Global,
        b: &Expr,
        operator: (Operator, Base, Place),
        left: Placed,
        d: u32,
        steps: &mut Vec<Step>,
    ) -> Result<Placed, Unmade>
        ensures { (a : Expr) (before : List OneStep) → let g = scope_of self.now in
            coded.Fits g a d → coded.Coded g a d before steps.old.items left →
            let e = Expr.Binary operator.0 operator.1 a b.now operator.2 in
            Makes (coded.Fits g e d) (coded.Coded g e d before steps.new.items) result }
    {
        let free = sum(d, left.cells)?;
        let end = behind(d, left.cells)?;
        let right = self.right(alloc, b, operator, left.at, free, d, steps)?;
        self.operator_answer(
            alloc,
            operator.0,
            operator.1,
            d,
            left.peak.max(end).max(right),
        )
    }

    /// Adds the code of the imaginary part of a complex number, behind that of the real part.
    #[cycle(coding)]
    fn imaginary(
        &self,
        alloc: Global,
        b: &Expr,
        t: Base,
        real: Placed,
        d: u32,
        steps: &mut Vec<Step>,
    ) -> Result<Placed, Unmade>
        ensures { (a : Expr) (at : Place) (before : List OneStep) → let g = scope_of self.now in
            coded.Fits g a d → coded.Coded g a d before steps.old.items real → let e = Expr.Complex t a b.now at in
            Makes (coded.Fits g e d) (coded.Coded g e d before steps.new.items) result }
    {
        let next = sum(d, 1)?;
        let end = sum(d, 2)?;
        settling(real.at, d, 1, steps)?;
        let imaginary = self.expression(alloc, b, next, steps)?;
        settling(imaginary.at, next, 1, steps)?;
        let ty = Extent::plain(alloc, t);
        let cells = self.structs.cells_at(&ty);
        Ok(Placed {
            at: Spot::Local(d),
            ty,
            cells,
            peak: real.peak.max(imaginary.peak).max(end),
        })
    }

    /// Adds the code of arguments, elements or fields, each of which goes to cells behind those before it.
    #[cycle(coding)]
    pub fn arguments(
        &self,
        alloc: Global,
        es: &[Expr],
        d: u32,
        steps: &mut Vec<Step>,
    ) -> Result<Arguments, Unmade>
        ensures { let g = scope_of self.now in
            Makes (coded.AllFit g es.now d) (coded.Arranged g es.now d steps.old.items steps.new.items) result }
    {
        let mut known = None;
        let mut at = d;
        let mut peak = d;
        for e in es {
            let x = self.expression(alloc, e, at, steps)?;
            let free = sum(at, x.cells)?;
            settling(x.at, at, x.cells as u32, steps)?;
            known = first_of(known, x.ty);
            peak = peak.max(x.peak);
            at = free;
        }
        Ok(Arguments {
            first: known_or_unit(alloc, known),
            peak: peak.max(at),
        })
    }

    /// The value of a call goes to the cells from d on, of which what is called uses so many.
    fn call_answer(&self, ty: Extent, needs: u32, d: u32, peak: u32) -> Result<Placed, Unmade>
        ensures { let n = types.cells_for (scope_of self.now) (type_at ty) in
            Makes (d + max n needs < 2 ^ 32)
            (coded.Stands [] (Spot.Local d) (type_at ty) n (max peak (d + max n needs)) [] []) result }
    {
        let cells = self.structs.cells_at(&ty);
        let end = sum(d, cells.max(u64::from(needs)))?;
        Ok(Placed {
            at: Spot::Local(d),
            ty,
            cells,
            peak: peak.max(end),
        })
    }

    /// Adds the call of the function at this place, whose arguments stand from the cell d on.
    pub fn call(
        &self,
        alloc: Global,
        k: u32,
        d: u32,
        peak: u32,
        steps: &mut Vec<Step>,
    ) -> Result<Placed, Unmade>
        ensures { let g = scope_of self.now in let found = g.funs k in let ty = types.result_type found in
            let n = types.cells_for g ty in
            let end = d + max n (peaks.needs_of found) in
            Makes (end < 2 ^ 32) (coded.Stands (coding.call_code found d) (Spot.Local d) ty n (max peak end)
            steps.old.items steps.new.items) result }
    {
        match self.signature(k) {
            None => self.call_answer(Extent::plain(alloc, Base::Unit), 0, d, peak),
            Some(signature) => {
                let code = signature.code.share()?;
                steps.push(Step::Call(code, d))?;
                let ty = Extent::of(alloc, &signature.result)?;
                self.call_answer(ty, signature.needs, d, peak)
            }
        }
    }

    /// Adds the code of what a call calls, whose arguments stand from the cell d on.
    fn called(
        &self,
        alloc: Global,
        callee: Callee,
        d: u32,
        peak: u32,
        steps: &mut Vec<Step>,
    ) -> Result<Placed, Unmade>
        ensures { let g = scope_of self.now in let ty = types.callee_type g callee in let n = types.cells_for g ty in
            let end = d + max n (peaks.callee_needs g callee) in
            Makes (end < 2 ^ 32) (coded.Stands (coding.callee_code g callee d) (Spot.Local d) ty n (max peak end)
            steps.old.items steps.new.items) result }
    {
        match callee {
            Callee::Function(k) => self.call(alloc, k, d, peak, steps),
            Callee::Struct(k) => self.call_answer(
                Extent::plain(alloc, Base::Struct(k)),
                0,
                d,
                peak,
            ),
        }
    }

    /// The value of an array of so many elements, which stand from the cell d on.
    fn array(&self, row: Arguments, n: usize, d: u32) -> Result<Placed, AllocError>
        ensures { let ty = offsets.array_type n (type_at row.first) in
            IfOk result (coded.Stands [] (Spot.Local d) ty (types.cells_for (scope_of self.now) ty) row.peak [] []) }
    {
        let Arguments { first, peak } = row;
        let ty = first.array(n as u64)?;
        let cells = self.structs.cells_at(&ty);
        Ok(Placed {
            at: Spot::Local(d),
            ty,
            cells,
            peak,
        })
    }

    /// The code of an expression, whose cells from d on are free. There is none where 32 bits do not hold its numbers.
    pub fn code(&self, alloc: Global, e: &Expr, d: u32) -> Result<Option<Made>, AllocError>
        ensures { IfOk result (λ made. made ≡ code_if (scope_of self.now) e.now d) }
    {
        let mut steps = Vec::new(alloc);
        match self.expression(alloc, e, d, &mut steps) {
            Ok(placed) => Ok(Some(Made {
                steps: Items::from_vec(steps),
                at: placed.at,
                peak: placed.peak,
            })),
            Err(Unmade::Large) => Ok(None),
            Err(Unmade::Memory(error)) => Err(error),
        }
    }

    /// Adds the code of an expression, whose cells from d on are free.
    #[cycle(coding)]
    pub fn expression(
        &self,
        alloc: Global,
        e: &Expr,
        d: u32,
        steps: &mut Vec<Step>,
    ) -> Result<Placed, Unmade>
        ensures { let g = scope_of self.now in
            Makes (coded.Fits g e.now d) (coded.Coded g e.now d steps.old.items steps.new.items) result }
    {
        match e {
            Expr::Unit(_) => unit(alloc, d),
            Expr::Bit(b, _) => number(alloc, i64::from(*b), Base::Bit, d, steps),
            Expr::Bool(b, _) => number(alloc, i64::from(*b), Base::Bool, d, steps),
            Expr::Int(n, t, _) => whole_number(alloc, literal(*t, *n), *t, d, steps),
            Expr::Variable(x) => self.read_variable(alloc, x, d, steps),
            Expr::Unary(prefix, t, a, _) => self.unary(alloc, a.get(), *prefix, *t, d, steps),
            Expr::Binary(o, t, a, b, at) => {
                let left = self.expression(alloc, a.get(), d, steps)?;
                self.binary(alloc, b.get(), (*o, *t, *at), left, d, steps)
            }
            Expr::Index(a, i, at) => {
                let base = self.base(alloc, is_calm(i.get()), a.get(), d, steps)?;
                self.element(alloc, i.get(), base, None, *at, d, steps)
            }
            Expr::Slice(a, i, k, at) => {
                let base = self.base(alloc, is_calm(i.get()), a.get(), d, steps)?;
                self.element(alloc, i.get(), base, Some(*k), *at, d, steps)
            }
            Expr::Part(a, _, k, _) => self.part(alloc, a.get(), *k, d, steps),
            Expr::Call(_, callee, es) => {
                let row = self.arguments(alloc, es.as_slice(), d, steps)?;
                self.called(alloc, *callee, d, row.peak, steps)
            }
            Expr::Array(es, _) => {
                let row = self.arguments(alloc, es.as_slice(), d, steps)?;
                let placed = self.array(row, es.len(), d)?;
                Ok(placed)
            }
            Expr::Convert(t, a, _) => self.convert(alloc, a.get(), *t, d, steps),
            Expr::Complex(t, a, b, _) => {
                let real = self.expression(alloc, a.get(), d, steps)?;
                self.imaginary(alloc, b.get(), *t, real, d, steps)
            }
        }
    }
}

// The code of assignments and initial values.

ghost use Rattle.std.specs.Prelude.{◌≡◌, ◌+◌, ◌<◌, ◌^◌, max, ◌++◌, false, Some, IfOk, OnOk};
ghost use Rattle.std.specs.Option.{option_copied};
ghost use Rattle.zir_tree.specs.declared.stmt.Stmt.{Assign};
ghost use Rattle.zir_code.specs.Scopes as scopes;
ghost use Rattle.zir_code.specs.Statements as meant;
ghost use Rattle.zir_compile.specs.Coded.{Leads, Grows};
ghost use Rattle.zir_compile.specs.Extents.{type_at};
ghost use Rattle.zir_compile.specs.Makes.{Makes};
ghost use Rattle.zir_compile.specs.Names.{scope_of};
ghost use Rattle.zir_compile.specs.Stated as stated;

use crate::extent::Extent;
use crate::made::{Path, Reach};
use crate::moves::{moving, settling};
use crate::numbers::{Unmade, behind, number_of, shifted, sum};
use crate::paths::starting;
use crate::scope::Names;
use std::alloc::{AllocError, Global};
use zir_code::scope::Holder;
use zir_expr::frame::Spot;
use zir_expr::steps::Step;
use zir_tree::expr::Expr;
use zir_tree::ident::Ident;
use zir_tree::stmt::Access;

/// So many cells from d on become 0.
fn blanking(d: u32, n: u32, steps: &mut Vec<Step>) -> Result<(), Unmade>
    ensures { Makes (d + n < 2 ^ 32) (λ _. steps.new.items ≡ steps.old.items ++ meant.blank_code d n) result }
{
    sum(d, u64::from(n))?;
    match n {
        0 => Ok(()),
        1 => {
            steps.push(Step::Number(Spot::Local(d), 0))?;
            Ok(())
        }
        _ => {
            let first = Spot::Local(d);
            let next = Spot::Local(d + 1);
            steps.push(Step::Number(first, 0))?;
            steps.push(Step::Move(next, first, n - 1))?;
            Ok(())
        }
    }
}

/// A value of several cells, which may be part of what is assigned, goes to the cells from d on, and the answer is
/// where it then stands.
fn keeping(at: Spot, d: u32, n: u32, steps: &mut Vec<Step>) -> Result<Spot, AllocError>
    ensures spot { IfOk result (λ spot. spot ≡ meant.kept_at at d n) }
    ensures code { OnOk result (steps.new.items ≡ steps.old.items ++ meant.keeping at d n) }
{
    match n {
        0 => Ok(at),
        1 => Ok(at),
        _ => {
            settling(at, d, n, steps)?;
            Ok(Spot::Local(d))
        }
    }
}

/// Whether an index leads to what is assigned.
fn has_index(path: &[Access]) -> bool
    ensures { result ≡ meant.has_index path.now }
{
    for access in path {
        if is_index(access) {
            return true;
        }
    }
    false
}

/// Whether an access is by an index.
fn is_index(access: &Access) -> bool
    ensures { result ≡ stated.is_index access.now }
{
    match access {
        Access::Index(..) => true,
        Access::Slice(..) => true,
        Access::Part(..) => false,
    }
}

impl Names {
    /// Adds the code of an initial value, which goes to the n cells from d on, and answers the first cell behind all
    /// that it uses besides.
    pub fn initial(
        &self,
        alloc: Global,
        e: &Option<Expr>,
        d: u32,
        n: u32,
        steps: &mut Vec<Step>,
    ) -> Result<u32, Unmade>
        ensures { let g = scope_of self.now in
            Makes (stated.InitialFits g e.now d n)
            (Grows (meant.initial_code g d n e.now) (stated.initial_most g d e.now) steps.old.items steps.new.items) result }
    {
        match e {
            None => {
                blanking(d, n, steps)?;
                Ok(d)
            }
            Some(e) => {
                sum(d, u64::from(n))?;
                let x = self.expression(alloc, e, d, steps)?;
                settling(x.at, d, n, steps)?;
                Ok(x.peak)
            }
        }
    }

    /// Adds the code of one access behind a path.
    fn access(
        &self,
        alloc: Global,
        access: &Access,
        base: Path,
        steps: &mut Vec<Step>,
    ) -> Result<Path, Unmade>
        ensures { let g = scope_of self.now in let ty = type_at base.ty in let o = base.offset in
            Makes (stated.AccessFits g base.root ty o access.now) (Leads (stated.access_code g ty o access.now)
            (scopes.shifted base.root (stated.access_shift g ty access.now)) o (stated.access_type g ty access.now)
            (max base.peak (stated.access_peak g o access.now)) steps.old.items steps.new.items) result }
    {
        match access {
            Access::Index(e, at) => self.located(alloc, e, base, None, *at, steps),
            Access::Slice(e, k, at) => self.located(alloc, e, base, Some(*k), *at, steps),
            Access::Part(_, k, _) => self.parted(alloc, base, *k),
        }
    }

    /// Adds the code of a path behind another.
    fn along(
        &self,
        alloc: Global,
        base: Path,
        path: &[Access],
        steps: &mut Vec<Step>,
    ) -> Result<Path, Unmade>
        ensures { let g = scope_of self.now in let ty = type_at base.ty in let o = base.offset in
            base.peak < 2 ^ 32 → scopes.number_of base.root < 2 ^ 32 →
            Makes (stated.AlongFits g base.root ty o path.now) (Leads (meant.along_code g ty o path.now)
            (scopes.shifted base.root (meant.along_shift g ty path.now)) o (stated.along_type g ty path.now)
            (max base.peak (meant.along_peak g ty o path.now)) steps.old.items steps.new.items) result }
    {
        let mut here = base;
        for access in path {
            here = self.access(alloc, access, here, steps)?;
        }
        Ok(here)
    }

    /// So many cells from a spot go to where indexes lead in a variable; the cell o is free.
    fn stored(
        &self,
        alloc: Global,
        holder: &Holder,
        path: &[Access],
        from: Spot,
        n: u32,
        o: u32,
        steps: &mut Vec<Step>,
    ) -> Result<u32, Unmade>
        ensures { let g = scope_of self.now in let v = holder.now in
            Makes (stated.AlongFits g v.spot v.ty o path.now)
            (Grows (stated.store_code g v path.now from o n) (meant.along_peak g v.ty o path.now)
            steps.old.items steps.new.items) result }
    {
        let ty = Extent::of(alloc, &holder.ty)?;
        let base = starting(Spot::Local(0), o, ty, steps)?;
        let path = self.along(alloc, base, path, steps)?;
        let to = shifted(holder.spot, u64::from(number_of(path.root)))?;
        steps.push(Step::Store(to, Spot::Local(o), from, n))?;
        Ok(path.peak)
    }

    /// So many cells from a spot go to a variable, or to a part of one that no index leads to.
    fn replaced(
        &self,
        alloc: Global,
        holder: &Holder,
        path: &[Access],
        from: Spot,
        n: u32,
        d: u32,
        steps: &mut Vec<Step>,
    ) -> Result<u32, Unmade>
        ensures { let g = scope_of self.now in let v = holder.now in meant.has_index path.now ≡ false →
            Makes (stated.StoreFits g (Some v) path.now d n)
            (Grows (meant.storing g v path.now from (d + n) n) (meant.storing_peak g (Some v) path.now d n)
            steps.old.items steps.new.items) result }
    {
        let peak = behind(d, u64::from(n))?;
        let ty = Extent::of(alloc, &holder.ty)?;
        let base = Path {
            root: Spot::Local(0),
            offset: d,
            ty,
            peak,
        };
        let path = self.along(alloc, base, path, steps)?;
        let to = shifted(holder.spot, u64::from(number_of(path.root)))?;
        moving(to, from, n, steps)?;
        Ok(path.peak)
    }

    /// The same by whether an index leads there; the cells from d + n on are free.
    fn storing(
        &self,
        alloc: Global,
        holder: &Holder,
        path: &[Access],
        from: Spot,
        n: u32,
        d: u32,
        steps: &mut Vec<Step>,
    ) -> Result<u32, Unmade>
        ensures { let g = scope_of self.now in let v = holder.now in
            Makes (stated.StoreFits g (Some v) path.now d n)
            (Grows (meant.storing g v path.now from (d + n) n) (meant.storing_peak g (Some v) path.now d n)
            steps.old.items steps.new.items) result }
    {
        if has_index(path) {
            let o = sum(d, u64::from(n))?;
            self.stored(alloc, holder, path, from, n, o, steps)
        } else {
            self.replaced(alloc, holder, path, from, n, d, steps)
        }
    }

    /// The same of the variable of this number.
    fn storing_at(
        &self,
        alloc: Global,
        id: u32,
        path: &[Access],
        from: Spot,
        n: u32,
        d: u32,
        steps: &mut Vec<Step>,
    ) -> Result<u32, Unmade>
        ensures { let g = scope_of self.now in let v = scopes.variable g id in
            Makes (stated.StoreFits g v path.now d n)
            (Grows (meant.storing_if g v path.now from (d + n) n) (meant.storing_peak g v path.now d n)
            steps.old.items steps.new.items) result }
    {
        match self.variable(id) {
            None => {
                let peak = behind(d, u64::from(n))?;
                Ok(peak)
            }
            Some(holder) => self.storing(alloc, holder, path, from, n, d, steps),
        }
    }

    /// A variable gets another value.
    pub fn assigned(
        &self,
        alloc: Global,
        name: &Ident,
        path: &[Access],
        e: &Expr,
        d: u32,
        steps: &mut Vec<Step>,
    ) -> Result<Reach, Unmade>
        ensures { let g = scope_of self.now in let a = Assign name.now path.now e.now in
            Makes (stated.StmtFits g a d) (stated.Stated g a d steps.old.items steps.new.items g) result }
    {
        let x = self.expression(alloc, e, d, steps)?;
        let n = sum(d, x.cells)? - d;
        let from = keeping(x.at, d, n, steps)?;
        let peak = self.storing_at(alloc, name.id, path, from, n, d, steps)?;
        Ok(Reach {
            free: d,
            peak: x.peak.max(peak),
        })
    }
}

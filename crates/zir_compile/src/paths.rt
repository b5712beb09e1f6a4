// The code of elements, slices and parts of arrays, structs and complex numbers.

ghost use Rattle.std.specs.Prelude.{◌≡◌, pos, ◌+◌, ◌<◌, ◌^◌, max, [], ◌∷◌, ◌++◌, true, ◌&&◌, Some, IfOk};
ghost use Rattle.std.specs.Option.{option_copied};
ghost use Rattle.zir_expr.specs.declared.steps.Step.{Number, Load};
ghost use Rattle.zir_code.specs.Coding as coding;
ghost use Rattle.zir_code.specs.Peaks as peaks;
ghost use Rattle.zir_code.specs.Scopes as scopes;
ghost use Rattle.zir_code.specs.Types as types;
ghost use Rattle.zir_compile.specs.Coded as coded;
ghost use Rattle.zir_compile.specs.Extents.{type_at};
ghost use Rattle.zir_compile.specs.Makes.{Makes};
ghost use Rattle.zir_compile.specs.Names.{scope_of};

use crate::calm::{is_calm, is_rooted};
use crate::extent::Extent;
use crate::made::{Path, Placed, Standing};
use crate::moves::{moving, reading};
use crate::numbers::{Unmade, behind, shifted, sum};
use crate::scope::Names;
use std::alloc::{AllocError, Global};
use zir_code::scope::Holder;
use zir_expr::frame::Spot;
use zir_expr::steps::{Elements, Step};
use zir_tree::expr::Expr;
use zir_tree::name::Name;
use zir_tree::place::Place;
use zir_tree::types::Base;

/// Where an index is looked for: among all elements, or among the first elements of slices of so many.
fn elements_of(range: Option<u64>, n: u64, size: u64, at: Place) -> Result<Elements, Unmade>
    ensures { Makes ((n + 1 < 2 ^ 32) × (size < 2 ^ 32))
        (λ elements. elements ≡ coded.elements_in range n size at) result }
{
    let most = sum(1, n)?;
    let size = sum(0, size)?;
    match range {
        None => Ok(Elements {
            room: most - 1,
            size,
            code: 2,
            at,
        }),
        Some(k) => Ok(Elements {
            room: u64::from(most).saturating_sub(k) as u32,
            size,
            code: 3,
            at,
        }),
    }
}

/// The type of an element, or of a slice of so many elements of this type.
fn part_of_array(range: Option<u64>, element: Extent) -> Result<Extent, AllocError>
    ensures { IfOk result (λ ty. type_at ty ≡ coded.type_of_part range (type_at element)) }
{
    match range {
        None => Ok(element),
        Some(k) => element.array(k),
    }
}

/// The offset 0 of a value of this type, whose first cell is a root, goes into a cell.
pub fn starting(root: Spot, offset: u32, ty: Extent, steps: &mut Vec<Step>) -> Result<Path, Unmade>
    ensures { Makes (offset + 1 < 2 ^ 32)
        (coded.Leads (Number (Spot.Local offset) (pos 0) ∷ []) root offset (type_at ty) (offset + 1)
        steps.old.items steps.new.items) result }
{
    let peak = sum(offset, 1)?;
    steps.push(Step::Number(Spot::Local(offset), 0))?;
    Ok(Path {
        root,
        offset,
        ty,
        peak,
    })
}

/// Whether a variable is read where it stands.
fn is_in_place(still: bool, spot: Spot) -> bool
    ensures { result ≡ coding.is_in_place still spot }
{
    match spot {
        Spot::Top(_) => still,
        Spot::Local(_) => true,
    }
}

/// The path to a variable, which is copied where something further out may change it.
fn holder_path(
    alloc: Global,
    still: bool,
    holder: &Holder,
    d: u32,
    steps: &mut Vec<Step>,
) -> Result<Path, Unmade>
    ensures { Makes (d + coding.width_if still (Some holder.now) + 1 < 2 ^ 32)
        (coded.VariablePath still (Some holder.now) d steps.old.items steps.new.items) result }
{
    let ty = Extent::of(alloc, &holder.ty)?;
    if is_in_place(still, holder.spot) {
        return starting(holder.spot, d, ty, steps);
    }
    let to = Spot::Local(d);
    let offset = sum(d, u64::from(holder.cells))?;
    moving(to, holder.spot, holder.cells, steps)?;
    starting(to, offset, ty, steps)
}

/// Whether nothing changes a variable meanwhile, neither further out nor in an index.
fn stays(still: bool, i: &Expr) -> bool
    ensures { result ≡ (still && coding.is_calm i.now) }
{
    still && is_calm(i)
}

impl Names {
    /// A part of a value of this type whose cells begin at a spot.
    fn part_of(&self, alloc: Global, root: Spot, ty: &Extent, k: u32) -> Result<Standing, Unmade>
        ensures { let g = scope_of self.now in
            Makes (scopes.number_of root + types.part_offset g.structs (type_at ty.now) k < 2 ^ 32)
            (coded.IsPartOf g root (type_at ty.now) k) result }
    {
        let at = shifted(root, self.structs.offset(ty, k))?;
        let ty = self.structs.part(alloc, ty, k)?;
        Ok(Standing { at, ty })
    }

    /// A variable, which stands without code where it is in scope.
    pub(crate) fn standing_variable(
        &self,
        alloc: Global,
        id: u32,
    ) -> Result<Option<Standing>, AllocError>
        ensures { IfOk result (coded.IsVariable (scopes.variable (scope_of self.now) id)) }
    {
        match self.variable(id) {
            None => Ok(None),
            Some(holder) => {
                let ty = Extent::of(alloc, &holder.ty)?;
                let at = holder.spot;
                Ok(Some(Standing { at, ty }))
            }
        }
    }

    /// Where a variable, or a part of one that no index leads to, stands without code.
    #[cycle(standing)]
    fn standing(&self, alloc: Global, e: &Expr) -> Result<Option<Standing>, Unmade>
        ensures { coded.Finds (scope_of self.now) e.now result }
    {
        match e {
            Expr::Variable(x) => {
                let found = self.standing_variable(alloc, x.id)?;
                Ok(found)
            }
            Expr::Part(a, _, k, _) => self.standing_part(alloc, a.get(), *k),
            Expr::Unit(..) => Ok(None),
            Expr::Bit(..) => Ok(None),
            Expr::Bool(..) => Ok(None),
            Expr::Int(..) => Ok(None),
            Expr::Unary(..) => Ok(None),
            Expr::Binary(..) => Ok(None),
            Expr::Index(..) => Ok(None),
            Expr::Slice(..) => Ok(None),
            Expr::Call(..) => Ok(None),
            Expr::Array(..) => Ok(None),
            Expr::Convert(..) => Ok(None),
            Expr::Complex(..) => Ok(None),
        }
    }

    /// Where a part of an expression stands without code.
    #[cycle(standing)]
    pub(crate) fn standing_part(
        &self,
        alloc: Global,
        a: &Expr,
        k: u32,
    ) -> Result<Option<Standing>, Unmade>
        ensures { (name : Name) (at : Place) → coded.Finds (scope_of self.now) (Expr.Part a.now name k at) result }
    {
        match self.standing(alloc, a)? {
            None => Ok(None),
            Some(whole) => {
                let part = self.part_of(alloc, whole.at, &whole.ty, k)?;
                Ok(Some(part))
            }
        }
    }

    /// A value that stands without code is read there, or copied to the cells from d on.
    pub(crate) fn read(
        &self,
        value: Standing,
        d: u32,
        steps: &mut Vec<Step>,
    ) -> Result<Placed, Unmade>
        ensures { let n = types.cells_for (scope_of self.now) (type_at value.ty) in
            Makes (peaks.behind d n < 2 ^ 32)
            (coded.Stands (coding.reading (Some value.at) n d []) (coding.read_at (Some value.at) d) (type_at value.ty)
            n (peaks.behind d n) steps.old.items steps.new.items) result }
    {
        let Standing { at, ty } = value;
        let cells = self.structs.cells_at(&ty);
        let peak = behind(d, cells)?;
        let at = reading(at, cells as u32, d, steps)?;
        Ok(Placed {
            at,
            ty,
            cells,
            peak,
        })
    }

    /// A part of what a path leads to.
    pub(crate) fn parted(&self, alloc: Global, path: Path, k: u32) -> Result<Path, Unmade>
        ensures { let g = scope_of self.now in let ty = type_at path.ty in
            let offset = types.part_offset g.structs ty k in
            Makes (scopes.number_of path.root + offset < 2 ^ 32)
            (coded.Leads [] (scopes.shifted path.root offset) path.offset (types.part_type g.structs ty k) path.peak [] [])
            result }
    {
        let part = self.part_of(alloc, path.root, &path.ty, k)?;
        Ok(Path {
            root: part.at,
            offset: path.offset,
            ty: part.ty,
            peak: path.peak,
        })
    }

    /// The value that a path leads to goes to the cells from d on.
    fn loaded(&self, path: Path, d: u32, steps: &mut Vec<Step>) -> Result<Placed, Unmade>
        ensures { let ty = type_at path.ty in let n = types.cells_for (scope_of self.now) ty in
            Makes (d + n < 2 ^ 32)
            (coded.Stands (Load (Spot.Local d) path.root (Spot.Local path.offset) n ∷ []) (Spot.Local d) ty n
            (max path.peak (d + n)) steps.old.items steps.new.items) result }
    {
        let Path {
            root,
            offset,
            ty,
            peak,
        } = path;
        let cells = self.structs.cells_at(&ty);
        let end = sum(d, cells)?;
        let to = Spot::Local(d);
        steps.push(Step::Load(to, root, Spot::Local(offset), cells as u32))?;
        Ok(Placed {
            at: to,
            ty,
            cells,
            peak: peak.max(end),
        })
    }

    /// The path to the variable of this number.
    fn variable_path(
        &self,
        alloc: Global,
        still: bool,
        id: u32,
        d: u32,
        steps: &mut Vec<Step>,
    ) -> Result<Path, Unmade>
        ensures { let found = scopes.variable (scope_of self.now) id in
            Makes (d + coding.width_if still found + 1 < 2 ^ 32)
            (coded.VariablePath still found d steps.old.items steps.new.items) result }
    {
        match self.variable(id) {
            None => starting(Spot::Local(d), d, Extent::plain(alloc, Base::Unit), steps),
            Some(holder) => holder_path(alloc, still, holder, d, steps),
        }
    }

    /// Adds the code of an index, or of the first index of a slice of so many, behind a path to an array.
    #[cycle(coding)]
    pub(crate) fn located(
        &self,
        alloc: Global,
        i: &Expr,
        base: Path,
        range: Option<u64>,
        at: Place,
        steps: &mut Vec<Step>,
    ) -> Result<Path, Unmade>
        ensures { let g = scope_of self.now in let o = base.offset in let ty = type_at base.ty in
            Makes (coded.IndexFits g i.now o ty) (coded.Leads
            (coding.code_of g i.now (o + 1)
            ++ coded.to_part g ty range o (coding.stands g i.now (o + 1)) at ∷ []) base.root o
            (coded.type_of_part range (types.element_type ty)) (max base.peak (peaks.peak_of g i.now (o + 1)))
            steps.old.items steps.new.items) result }
    {
        let behind_offset = base.offset + 1;
        let x = self.expression(alloc, i, behind_offset, steps)?;
        let n = base.ty.first_length();
        let Path {
            root,
            offset,
            ty,
            peak,
        } = base;
        let element = ty.element();
        let elements = elements_of(range, n, self.structs.cells_at(&element), at)?;
        let to = Spot::Local(offset);
        steps.push(Step::Locate(to, to, x.at, elements))?;
        let ty = part_of_array(range, element)?;
        Ok(Path {
            root,
            offset,
            ty,
            peak: peak.max(x.peak),
        })
    }

    /// Adds the code of a path; of what is none nothing is said.
    #[cycle(coding)]
    fn path(
        &self,
        alloc: Global,
        still: bool,
        e: &Expr,
        d: u32,
        steps: &mut Vec<Step>,
    ) -> Result<Path, Unmade>
        ensures { coding.is_rooted e.now ≡ true → let g = scope_of self.now in
            Makes (coded.PathFits still g e.now d)
            (coded.Walked still g e.now d steps.old.items steps.new.items) result }
    {
        match e {
            Expr::Variable(x) => self.variable_path(alloc, still, x.id, d, steps),
            Expr::Index(a, i, at) => {
                let base = self.path(alloc, stays(still, i.get()), a.get(), d, steps)?;
                self.located(alloc, i.get(), base, None, *at, steps)
            }
            Expr::Slice(a, i, k, at) => {
                let base = self.path(alloc, stays(still, i.get()), a.get(), d, steps)?;
                self.located(alloc, i.get(), base, Some(*k), *at, steps)
            }
            Expr::Part(a, _, k, _) => {
                let base = self.path(alloc, still, a.get(), d, steps)?;
                self.parted(alloc, base, *k)
            }
            Expr::Unit(..) => Err(Unmade::Large),
            Expr::Bit(..) => Err(Unmade::Large),
            Expr::Bool(..) => Err(Unmade::Large),
            Expr::Int(..) => Err(Unmade::Large),
            Expr::Unary(..) => Err(Unmade::Large),
            Expr::Binary(..) => Err(Unmade::Large),
            Expr::Call(..) => Err(Unmade::Large),
            Expr::Array(..) => Err(Unmade::Large),
            Expr::Convert(..) => Err(Unmade::Large),
            Expr::Complex(..) => Err(Unmade::Large),
        }
    }

    /// The path to a value that has code, which goes to the cells from d on.
    #[cycle(coding)]
    fn value_path(
        &self,
        alloc: Global,
        a: &Expr,
        d: u32,
        steps: &mut Vec<Step>,
    ) -> Result<Path, Unmade>
        ensures { let g = scope_of self.now in let o = d + types.size_in g a.now in
            Makes (coded.ValueFits g a.now d)
            (coded.Leads (coding.code_of g a.now d ++ Number (Spot.Local o) (pos 0) ∷ [])
            (Spot.Local d) o (types.type_in g a.now) (max (peaks.peak_of g a.now d) (o + 1))
            steps.old.items steps.new.items) result }
    {
        let Placed {
            ty,
            cells,
            peak,
            ..
        } = self.expression(alloc, a, d, steps)?;
        let offset = sum(d, cells)?;
        let path = starting(Spot::Local(d), offset, ty, steps)?;
        let Path {
            root,
            offset,
            ty,
            peak: end,
        } = path;
        Ok(Path {
            root,
            offset,
            ty,
            peak: peak.max(end),
        })
    }

    /// Adds the code of what is indexed or has parts: a path, or a value that goes to the cells from d on.
    #[cycle(coding)]
    pub(crate) fn base(
        &self,
        alloc: Global,
        still: bool,
        a: &Expr,
        d: u32,
        steps: &mut Vec<Step>,
    ) -> Result<Path, Unmade>
        ensures { let g = scope_of self.now in
            Makes (coded.BaseFits still g a.now d)
            (coded.Based still g a.now d steps.old.items steps.new.items) result }
    {
        if is_rooted(a) {
            self.path(alloc, still, a, d, steps)
        } else {
            self.value_path(alloc, a, d, steps)
        }
    }

    /// Adds the code of an element of an array, or of a slice of so many, behind a path to the array.
    #[cycle(coding)]
    pub(crate) fn element(
        &self,
        alloc: Global,
        i: &Expr,
        base: Path,
        range: Option<u64>,
        at: Place,
        d: u32,
        steps: &mut Vec<Step>,
    ) -> Result<Placed, Unmade>
        ensures { let g = scope_of self.now in let o = base.offset in let ty = type_at base.ty in
            let part = coded.type_of_part range (types.element_type ty) in let n = types.cells_for g part in
            Makes (coded.IndexFits g i.now o ty × (d + n < 2 ^ 32)) (coded.Stands
            (coding.code_of g i.now (o + 1) ++ (coded.to_part g ty range o (coding.stands g i.now (o + 1)) at
            ∷ Load (Spot.Local d) base.root (Spot.Local o) n ∷ [])) (Spot.Local d) part n
            (max base.peak (max (peaks.peak_of g i.now (o + 1)) (d + n))) steps.old.items steps.new.items) result }
    {
        let path = self.located(alloc, i, base, range, at, steps)?;
        self.loaded(path, d, steps)
    }

    /// Adds the code of a part of a struct or of a complex number.
    #[cycle(coding)]
    pub(crate) fn part(
        &self,
        alloc: Global,
        a: &Expr,
        k: u32,
        d: u32,
        steps: &mut Vec<Step>,
    ) -> Result<Placed, Unmade>
        ensures { (name : Name) (at : Place) → let g = scope_of self.now in let e = Expr.Part a.now name k at in
            Makes (coded.Fits g e d) (coded.Coded g e d steps.old.items steps.new.items) result }
    {
        match self.standing_part(alloc, a, k)? {
            Some(value) => self.read(value, d, steps),
            None => {
                let base = self.base(alloc, true, a, d, steps)?;
                let part = self.parted(alloc, base, k)?;
                self.loaded(part, d, steps)
            }
        }
    }
}

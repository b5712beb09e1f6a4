// The code of compositions around that of their sides.

ghost use Rattle.std.specs.Prelude.{◌≡◌, ◌+◌, ◌∷◌, [], ◌++◌, ℕ, List, length, IfOk, OnOk};
ghost use Rattle.zir_tree.specs.declared.comp.Comp as comp;
ghost use Rattle.zir_tree.specs.declared.comp.Comp.{Comp as OneComp};
ghost use Rattle.zir_tree.specs.declared.comp.Link.{Link as Joining};
ghost use Rattle.zir_tree.specs.declared.place.Place.{Place};
ghost use Rattle.zir_code.specs.Types.{type_or_unit, cells_for as size_of};
ghost use Rattle.zir_compile.specs.Names.{scope_of};
ghost use Rattle.zir_flow.specs.Flowing as flowing;
ghost use Rattle.zir_flow.specs.Kinds.{Setting};
ghost use Rattle.zir_meaning.specs.Assigned.{assigns};
ghost use Rattle.zir_flatten.specs.Making.{Flowed};

use crate::flow::Flow;
use crate::layouts::split;
use crate::loops::count;
use crate::types::{cells_or_none, copy_or_unit, first_of};
use sqlite_items::Items;
use std::alloc::{AllocError, Global};
use zir_compile::numbers::{Unmade, sum};
use zir_compile::scope::Names;
use zir_flow::instruction::{Back, Instruction, Joint};
use zir_shared::Shared;
use zir_tree::types::Ty;

/// The code of two sides that are joined, from the code of each.
fn sides(
    alloc: Global,
    scope: u32,
    value: u32,
    back: Items<Back>,
    left: Vec<Instruction>,
    right: Vec<Instruction>,
) -> Result<Vec<Instruction>, Unmade>
    ensures { IfOk result (λ made. made.items ≡ flowing.pipe_code scope value back left.items right.items) }
{
    let mut left = left;
    let mut right = right;
    let n = count(left.as_slice())?;
    let onward = sum(n, 1)?;
    let m = count(right.as_slice())?;
    let behind = sum(n, u64::from(m) + 2)?;
    let joint = Joint {
        right: onward,
        behind,
        scope,
        value,
        back,
    };
    let joint = Shared::new(alloc, joint)?;
    let mut code = vec![in alloc; Instruction::Pipe(joint)]?;
    code.append(&mut left)?;
    code.push(Instruction::Stop)?;
    code.append(&mut right)?;
    code.push(Instruction::Stop)?;
    Ok(code)
}

/// A composition around the code of its sides, whose left one brings back these cells.
pub fn piped(
    alloc: Global,
    names: &Names,
    d: u32,
    back: Items<Back>,
    left: Flow,
    right: Flow,
) -> Result<Flow, Unmade>
    ensures { (st : Setting) (input : Ty) (link : Joining) (a b : OneComp) (p : Place) → let g = scope_of names.now in
        back ≡ flowing.back_of (assigns st.assigned a) g → Flowed st g input d a left →
        Flowed st g (type_or_unit left.output) d b right → IfOk result (Flowed st g input d (comp.Pipe link a b p)) }
{
    let value = cells_or_none(names, &left.value)?;
    let other = cells_or_none(names, &right.value)?;
    let end = sum(d, u64::from(value.max(other)))?;
    Ok(Flow {
        code: sides(alloc, d, value, back, left.code, right.code)?,
        value: first_of(left.value, right.value),
        output: right.output,
        peak: end.max(left.peak.max(right.peak)),
        depth: left.depth.max(right.depth),
        layout: split(alloc, left.layout, right.layout)?,
    })
}

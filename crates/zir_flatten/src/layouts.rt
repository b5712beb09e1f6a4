// The memories that several components ask for together.

ghost use Rattle.std.specs.Prelude.{◌≡◌, IfOk};
ghost use Rattle.zir_flow.specs.Fitting as shapes;
ghost use Rattle.zir_flow.specs.Kinds as kinds;
ghost use Rattle.zir_stage.specs.Layouts.{shape_by};

use std::alloc::{AllocError, Global};
use zir_stage::layout::Layout;

/// A layout of the memories of two sides.
pub fn split(alloc: Global, left: Layout, right: Layout) -> Result<Layout, AllocError>
    ensures { IfOk result (λ made. shape_by made ≡ kinds.Split (shape_by left) (shape_by right)) }
{
    let left = Box::new(alloc, left)?;
    let right = Box::new(alloc, right)?;
    Ok(Layout::Split(left, right))
}

/// A layout of the same shape as another.
pub fn copy_layout(alloc: Global, layout: &Layout) -> Result<Layout, AllocError>
    ensures { IfOk result (λ made. shape_by made ≡ shape_by layout.now) }
{
    match layout {
        Layout::Flat => Ok(Layout::Flat),
        Layout::Split(left, right) => {
            let left = copy_layout(alloc, left)?;
            let right = copy_layout(alloc, right)?;
            split(alloc, left, right)
        }
    }
}

/// The memories that both ask for.
#[cycle(widening)]
pub fn widest(alloc: Global, a: &Layout, b: &Layout) -> Result<Layout, AllocError>
    ensures { IfOk result (λ made. shape_by made ≡ shapes.widest (shape_by a.now) (shape_by b.now)) }
{
    match a {
        Layout::Flat => copy_layout(alloc, b),
        Layout::Split(left, right) => wider(alloc, left, right, b),
    }
}

/// The memories that two sides ask for, and those that another layout does.
#[cycle(widening)]
fn wider(alloc: Global, left: &Layout, right: &Layout, b: &Layout) -> Result<Layout, AllocError>
    ensures { IfOk result (λ made. shape_by made ≡
        shapes.widest (kinds.Split (shape_by left.now) (shape_by right.now)) (shape_by b.now)) }
{
    match b {
        Layout::Flat => {
            let left = copy_layout(alloc, left)?;
            let right = copy_layout(alloc, right)?;
            split(alloc, left, right)
        }
        Layout::Split(other_left, other_right) => {
            let left = widest(alloc, left, other_left)?;
            let right = widest(alloc, right, other_right)?;
            split(alloc, left, right)
        }
    }
}

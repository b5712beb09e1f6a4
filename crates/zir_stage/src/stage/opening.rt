// Opens a stage, which takes all of its memory.

ghost use Rattle.std.specs.Prelude.{◌≡◌, IfOk, List};
ghost use Rattle.zir_flow.specs.declared.instruction.Instruction.{Instruction};
ghost use Rattle.zir_flow.specs.Fitting.{RoomFits};
ghost use Rattle.zir_flow.specs.Stages.{Alone};
ghost use Rattle.zir_stage.specs.Layouts.{shape_by};
ghost use Rattle.zir_stage.specs.Opened.{IsOpened, beginning};
ghost use Rattle.zir_stage.specs.Standing.{memory_of, room_in, shape_of, stage_of};

use super::{Sides, Stage};
use crate::layout::Layout;
use crate::thread::Thread;
use std::alloc::{AllocError, Global};
use zir_expr::frame::Frame;

impl Stage {
    /// A thread alone at a place of the code, with its cells, and with room for compositions of a layout, in so many cells
    /// each. At most 256 calls may be open at a time.
    #[cycle(opening)]
    pub fn open(
        alloc: Global,
        layout: &Layout,
        cells: usize,
        deep: usize,
        place: usize,
        base: usize,
        frame: Frame,
    ) -> Result<Stage, AllocError>
        ensures alone { IfOk result (λ stage. (code : List Instruction) →
            stage_of code stage ≡ Alone (beginning deep place base frame) (room_in stage)) }
        ensures fits { IfOk result (λ stage. RoomFits cells (shape_by layout.now) (room_in stage)) }
        ensures memory { IfOk result (λ stage. memory_of stage ≡ frame) }
        ensures shape { IfOk result (λ stage. shape_of stage ≡ shape_by layout.now) }
    {
        let thread = Thread::open(alloc, deep, place, base, frame)?;
        match layout {
            Layout::Flat => Ok(Stage {
                thread,
                sides: None,
            }),
            Layout::Split(left, right) => {
                let sides = open_sides(alloc, left, right, cells)?;
                let sides = Box::new(alloc, sides)?;
                Ok(Stage {
                    thread,
                    sides: Some(sides),
                })
            }
        }
    }
}

/// The sides of a composition that has not begun.
#[cycle(opening)]
fn open_sides(
    alloc: Global,
    left: &Layout,
    right: &Layout,
    cells: usize,
) -> Result<Sides, AllocError>
    ensures fits { IfOk result (λ sides. IsOpened cells (shape_by left.now) (shape_by right.now) sides) }
{
    let frame = Frame::open(alloc, cells, 0)?;
    let left = Stage::open(alloc, left, cells, 0, 0, 0, frame)?;
    let right = Stage::open(alloc, right, cells, 0, 0, 0, Frame::empty(alloc))?;
    Ok(Sides {
        left,
        right,
        link: None,
    })
}

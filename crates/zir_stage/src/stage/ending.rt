// Where compositions end.

ghost use Rattle.std.specs.Prelude.{◌≡◌};
ghost use Rattle.zir_flow.specs.Stages.{Alone, Going, brought_back, room_of, seen};
ghost use Rattle.zir_stage.specs.Coming.{over, over_if, said};
ghost use Rattle.zir_stage.specs.Standing.{memory_of, room_in, room_with, shape_of, stage_of, standing};

use super::{Sides, Stage, joint_of};
use crate::event::Event;
use crate::thread::Thread;
use zir_expr::frame::index_of;
use zir_flow::instruction::{Instruction, Joint};
use zir_tree::ends::Stamp;

impl Stage {
    /// It is over: its memory is as it is seen from outside, and its room is whole.
    #[cycle(closing)]
    fn close(&mut self, code: &[Instruction])
        ensures memory { memory_of self.new ≡ seen (stage_of code.now self.old) }
        ensures room { room_in self.new ≡ room_of (stage_of code.now self.old) }
        ensures shape { shape_of self.new ≡ shape_of self.old }
    {
        match &mut self.sides {
            None => {}
            Some(sides) => match sides.link {
                None => {}
                Some(_) => match joint_of(code, self.thread.place()) {
                    None => {}
                    Some(joint) => {
                        let sides: &mut Sides = sides;
                        gather(
                            joint,
                            self.thread.base(),
                            &mut sides.left,
                            &mut sides.right,
                            code,
                        );
                        self.thread.take_over(&mut sides.right.thread);
                    }
                },
            },
        }
    }
}

/// Closes both sides of a composition, and brings back what the left side assigns.
#[cycle(closing)]
fn gather(joint: &Joint, base: usize, left: &mut Stage, right: &mut Stage, code: &[Instruction])
    ensures left { memory_of left.new ≡ seen (stage_of code.now left.old) }
    ensures left_room { room_in left.new ≡ room_of (stage_of code.now left.old) }
    ensures left_shape { shape_of left.new ≡ shape_of left.old }
    ensures right { memory_of right.new
        ≡ brought_back joint.now.back base (seen (stage_of code.now left.old)) (seen (stage_of code.now right.old)) }
    ensures right_room { room_in right.new ≡ room_of (stage_of code.now right.old) }
    ensures right_shape { shape_of right.new ≡ shape_of right.old }
{
    left.close(code);
    right.close(code);
    right.thread.bring_back(joint, base, &left.thread);
}

/// Ends a composition, with so many cells of the left side's value, if the ticks are within the budget. It takes a turn.
pub(super) fn end_side(
    thread: &mut Thread,
    joint: &Joint,
    value: u32,
    left: &mut Stage,
    right: &mut Stage,
    link: &mut Option<Stamp>,
    point: Option<Stamp>,
    code: &[Instruction],
) -> Option<Event>
    ensures ends { over_if value joint.now thread.old (stage_of code.now left.old) (stage_of code.now right.old) point
        ≡ said result (standing code.now thread.new left.new right.new link.new) }
    ensures left_shape { shape_of left.new ≡ shape_of left.old }
    ensures right_shape { shape_of right.new ≡ shape_of right.old }
{
    match point {
        None => Some(Event::Gone),
        Some(point) => {
            finish(thread, joint, value, left, right, point, code);
            *link = None;
            None
        }
    }
}

/// Ends a composition.
fn finish(
    thread: &mut Thread,
    joint: &Joint,
    value: u32,
    left: &mut Stage,
    right: &mut Stage,
    point: Stamp,
    code: &[Instruction],
)
    ensures ends { over value joint.now thread.old (stage_of code.now left.old) (stage_of code.now right.old) point.taken point.ticks
        ≡ Going (Alone thread.new (room_with left.new right.new)) }
    ensures left_shape { shape_of left.new ≡ shape_of left.old }
    ensures right_shape { shape_of right.new ≡ shape_of right.old }
{
    let base = thread.base();
    gather(joint, base, left, right, code);
    right
        .thread
        .take_cells(index_of(base, joint.scope), value, &left.thread);
    thread.go_behind(joint, &mut right.thread, point);
}

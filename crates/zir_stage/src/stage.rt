// A stage: a thread, and room for the sides of a composition.

mod ending;
mod opening;
mod turning;

ghost use Rattle.std.specs.Prelude.{◌≡◌, List, option_copied};
ghost use Rattle.zir_flow.specs.declared.instruction.Instruction.{Instruction};
ghost use Rattle.zir_flow.specs.Stages.{Alone, emptied, handed, left_begins, right_begins};
ghost use Rattle.zir_stage.specs.Pausing.{joint_at};
ghost use Rattle.zir_stage.specs.Sources.{cells_in};
ghost use Rattle.zir_stage.specs.Standing.{given, memory_of, room_in, shape_of, stage_of, thread_of};

use crate::source::Source;
use crate::thread::Thread;
use zir_expr::frame::Frame;
use zir_flow::instruction::{Instruction, Joint};
use zir_tree::ends::Stamp;

/// A thread, and room for the sides of a composition, if one may begin.
#[cycle(stages)]
#[derive(Drop)]
pub struct Stage {
    thread: Thread,
    sides: Option<Box<Sides>>,
}

/// The sides of a composition, and where one has begun the elements and ticks of the left side at the output that it gave
/// last.
#[cycle(stages)]
#[derive(Drop)]
struct Sides {
    left: Stage,
    right: Stage,
    link: Option<Stamp>,
}

/// The composition at a place of the code, if one is there.
fn joint_of(code: &[Instruction], place: usize) -> Option<&Joint>
    ensures { option_copied result ≡ joint_at code.now place }
{
    match code.get(place) {
        Some(Instruction::Pipe(joint)) => Some(joint.get()),
        _ => None,
    }
}

impl Stage {
    /// Its thread is alone, with the room that it has.
    fn unlink(&mut self)
        ensures alone { (code : List Instruction) → stage_of code self.new ≡ Alone (thread_of self.old) (room_in self.old) }
        ensures shape { shape_of self.new ≡ shape_of self.old }
    {
        if let Some(sides) = &mut self.sides {
            sides.link = None;
        }
    }

    /// Begins as the left side of a composition, with the cells in scope of a thread.
    fn begin_left(&mut self, joint: &Joint, thread: &Thread)
        ensures alone { (code : List Instruction) →
            stage_of code self.new ≡ Alone (left_begins joint.now thread.now (memory_of self.old)) (room_in self.old) }
        ensures shape { shape_of self.new ≡ shape_of self.old }
    {
        self.thread.begin_left(joint, thread);
        self.unlink();
    }

    /// Begins as the right side of a composition, with the cells of a thread.
    fn begin_right(&mut self, joint: &Joint, thread: &mut Thread)
        ensures alone { (code : List Instruction) → stage_of code self.new ≡ Alone (right_begins joint.now thread.old) (room_in self.old) }
        ensures emptied { thread.new ≡ emptied thread.old }
        ensures shape { shape_of self.new ≡ shape_of self.old }
    {
        self.thread.begin_right(joint, thread);
        self.unlink();
    }

    /// The frame in which the cells of an output stand.
    pub fn given(&self, code: &[Instruction]) -> &Frame
        ensures { result.now ≡ given (stage_of code.now self.now) }
    {
        match &self.sides {
            None => self.thread.frame(),
            Some(sides) => match sides.link {
                None => self.thread.frame(),
                Some(_) => match joint_of(code, self.thread.place()) {
                    None => self.thread.frame(),
                    Some(_) => sides.right.given(code),
                },
            },
        }
    }

    /// Takes an element, if it needs one.
    pub fn hand(&mut self, code: &[Instruction], source: Source)
        ensures stage { stage_of code.now self.new ≡ handed code.now (cells_in source.entry) (stage_of code.now self.old) }
        ensures shape { shape_of self.new ≡ shape_of self.old }
    {
        match &mut self.sides {
            None => self.thread.feed(code, source),
            Some(sides) => match sides.link {
                None => self.thread.feed(code, source),
                Some(_) => match joint_of(code, self.thread.place()) {
                    None => {
                        sides.link = None;
                        self.thread.feed(code, source);
                    }
                    Some(_) => sides.left.hand(code, source),
                },
            },
        }
    }
}

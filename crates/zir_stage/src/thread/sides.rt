// A thread as a part of a stage: many instructions in a row, and where compositions begin and end.

ghost use Rattle.std.specs.Prelude.{◌≡◌, ◌-◌, ◌≤◌};
ghost use Rattle.zir_expr.specs.Memory.{from_base};
ghost use Rattle.zir_flow.specs.Stages.{left_begins, right_begins, emptied, brought_back};
ghost use Rattle.zir_flow.specs.Threads.{cells_from, written};
ghost use Rattle.zir_stage.specs.Coming.{Paced, IsLeft, event_by, point_of};

use super::{Pause, Thread};
use crate::event::{Event, Offer};
use crate::source::copy;
use zir_expr::frame::{Frame, index_of};
use zir_flow::instruction::{Back, Instruction, Joint};
use zir_tree::ends::Stamp;

impl Thread {
    /// Goes on for as many turns as there are, or to a pause.
    pub fn spin(&mut self, code: &[Instruction], fuel: &mut u64) -> Pause
        ensures paced { Paced code.now (fuel.old - fuel.new) self.old result self.new }
        ensures fuel { fuel.new ≤ fuel.old }
        ensures left { IsLeft (event_by result self.new) fuel.new }
    {
        while *fuel > 0 {
            match self.follow(code) {
                Pause::Goes => *fuel -= 1,
                pause => return pause,
            }
        }
        Pause::Goes
    }

    /// How many ticks there are.
    pub fn limit(&self) -> u64
        ensures { result ≡ self.now.memory.limit }
    {
        self.frame.limit()
    }

    /// Its place in the code.
    pub fn place(&self) -> usize
        ensures { result ≡ self.now.place }
    {
        self.place
    }

    /// Where the cells of the body that runs begin.
    pub fn base(&self) -> usize
        ensures { result ≡ self.now.base }
    {
        self.base
    }

    /// Its cells.
    pub fn frame(&self) -> &Frame
        ensures { result.now ≡ self.now.memory }
    {
        &self.frame
    }

    /// The elements that were taken and the ticks.
    pub fn point(&self) -> Stamp
        ensures { result ≡ point_of self.now }
    {
        Stamp {
            taken: self.taken,
            ticks: self.frame.used(),
        }
    }

    /// What it comes to by a pause where no composition may begin.
    pub fn event(&self, pause: Pause) -> Option<Event>
        ensures { result ≡ event_by pause self.now }
    {
        match pause {
            Pause::Goes => None,
            Pause::Offers(at, cells) => {
                let stamp = self.point();
                Some(Event::Gives(Offer { at, cells, stamp }))
            }
            Pause::Wants => Some(Event::Needs(self.point())),
            Pause::Halts => Some(Event::Ends(self.point())),
            Pause::Fails(trap) => Some(Event::Traps(trap, self.point())),
            Pause::Spends => Some(Event::Gone),
            Pause::Forks => Some(Event::Needs(self.point())),
        }
    }

    /// Begins as the left side of a composition, with the cells in scope of a thread.
    pub fn begin_left(&mut self, joint: &Joint, thread: &Thread)
        ensures { self.new ≡ left_begins joint.now thread.now self.old.memory }
    {
        self.place = index_of(thread.place, 1);
        self.base = thread.base;
        self.calls.clear();
        self.deep = thread.deep;
        self.taken = thread.taken;
        let used = thread.frame.used();
        let limit = thread.frame.limit();
        self.frame.restart(used, limit);
        let scope = index_of(thread.base, joint.scope);
        copy(&mut self.frame, 0, &thread.frame, 0, scope);
    }

    /// Begins as the right side of a composition, with the cells of a thread.
    pub fn begin_right(&mut self, joint: &Joint, thread: &mut Thread)
        ensures begun { self.new ≡ right_begins joint.now thread.old }
        ensures emptied { thread.new ≡ emptied thread.old }
    {
        self.place = index_of(index_of(thread.place, 1), joint.right);
        self.base = thread.base;
        self.calls.clear();
        self.deep = thread.deep;
        self.taken = 0;
        thread.frame.lend(&mut self.frame);
        let left = self.frame.left();
        self.frame.restart(0, left);
    }

    /// Takes the cells of the left side that it assigns, with so many of its value behind those in scope.
    pub fn bring_back(&mut self, joint: &Joint, base: usize, left: &Thread)
        ensures { self.new ≡ record self.old { memory = brought_back joint.now.back base left.now.memory self.old.memory } }
    {
        bring_back(&mut self.frame, joint.back.as_slice(), base, &left.frame);
    }

    /// Takes so many cells of another thread, which stand where they stand there.
    pub fn take_cells(&mut self, at: usize, n: u32, other: &Thread)
        ensures { self.new ≡ record self.old { memory = written at (cells_from n at other.now.memory) self.old.memory } }
    {
        copy(&mut self.frame, at, &other.frame, at, n as usize);
    }

    /// Takes over the cells of another thread, with its meter.
    pub fn take_over(&mut self, other: &mut Thread)
        ensures { self.new ≡ record self.old { memory = other.old.memory } }
    {
        std::mem::swap(&mut self.frame, &mut other.frame);
    }

    /// Goes on behind a composition with so many elements taken and ticks used, and with the cells of another thread.
    pub fn go_behind(&mut self, joint: &Joint, other: &mut Thread, point: Stamp)
        ensures { self.new ≡ record self.old {
          place = from_base (from_base self.old.place 1) joint.now.behind;
          memory = record other.old.memory { used = point.ticks; limit = self.old.memory.limit };
          taken = point.taken;
        } }
    {
        let limit = self.frame.limit();
        self.take_over(other);
        self.frame.restart(point.ticks, limit);
        self.place = index_of(index_of(self.place, 1), joint.behind);
        self.taken = point.taken;
    }
}

/// Copies the cells that the left side of a composition brings back.
fn bring_back(frame: &mut Frame, back: &[Back], base: usize, left: &Frame)
    ensures { brought_back back.now base left.now frame.old ≡ frame.new }
{
    for one in back {
        let at = one.at.index(base);
        copy(frame, at, left, at, one.cells as usize);
    }
}

// A thread: a place in the code, the calls that it is in, and its cells.

ghost use Rattle.std.specs.Prelude.{IfOk, min, ◌≡◌, ◌+◌, ◌<◌, None, ◌^◌, Some, nat_lt};
ghost use Rattle.zir_expr.specs.Memory.{after, ended, ticked};
ghost use Rattle.zir_expr.specs.Running.{go_all};
ghost use Rattle.zir_flow.specs.Threads.{Goes as Going, move, moved_by, onward, backward, next_with, after_steps, either_thread, come, next_of, counted_on, count_in, left_for, fed, fed_by};
ghost use Rattle.zir_flow.specs.declared.instruction.Instruction.TheVariants.{Gives as GivesSeries, Branch, Turn, Enter, Give, Take, Takes};
ghost use Rattle.zir_stage.specs.Opened.{beginning};
ghost use Rattle.zir_stage.specs.Pausing.{moved_as, joint_at, joint_of, one_given, series_fed};
ghost use Rattle.zir_stage.specs.Sources.{cells_in};

mod sides;

use crate::calls::{CALLS, Calls};
use crate::source::{Source, write};
use std::alloc::{AllocError, Global};
use std::marker::Model;
use zir_expr::frame::{Frame, Halt, Spot, index_of};
use zir_expr::steps::{Step, run};
use zir_flow::instruction::{Caller, Instruction, Series};
use zir_tree::ends::Trap;

/// What an instruction makes of a thread.
#[derive(Clone, Copy)]
pub enum Pause {
    /// It goes on.
    Goes,
    /// It gives so many cells from an index on.
    Offers(usize, u32),
    /// It wants an element.
    Wants,
    /// It has come to its end.
    Halts,
    Fails(Trap),
    /// No tick is left, or no call may come.
    Spends,
    /// A composition begins.
    Forks,
}

/// A place in the code, where the cells of the body that runs begin, the calls that it is in and how many there may be, the cells, and how many elements
/// were taken.
#[derive(Drop)]
pub struct Thread {
    place: usize,
    base: usize,
    calls: Calls,
    deep: usize,
    frame: Frame,
    taken: u64,
}

impl Model for Thread {
    ghost use Rattle.std.specs.Prelude.{◌≤◌};
    ghost use Rattle.zir_flow.specs.Threads.{Thread};

    ghost Value = { Thread };

    ghost view = { λ t. record { place = t.place; base = t.base; calls = t.calls; deep = t.deep; memory = t.frame; taken = t.taken } };

    ghost invariant = { λ t. t.deep ≤ 256 };
}

impl Thread {
    /// A thread at a place of the code, in no call yet. At most 256 calls may be open at a time.
    pub fn open(
        alloc: Global,
        deep: usize,
        place: usize,
        base: usize,
        frame: Frame,
    ) -> Result<Thread, AllocError>
        ensures { IfOk result (λ thread. thread ≡ beginning deep place base frame) }
    {
        Ok(Thread {
            place,
            base,
            calls: Calls::open(alloc)?,
            deep: deep.min(CALLS),
            frame,
            taken: 0,
        })
    }

    /// Does the instruction at its place.
    pub fn follow(&mut self, code: &[Instruction]) -> Pause
        ensures { move code.now self.old ≡ moved_as result (joint_at code.now self.old.place) self.new }
    {
        match code.get(self.place) {
            Some(instruction) => self.obey(instruction),
            None => Pause::Spends,
        }
    }

    /// Does an instruction.
    fn obey(&mut self, instruction: &Instruction) -> Pause
        ensures { moved_by instruction.now self.old ≡ moved_as result (joint_of instruction.now) self.new }
    {
        match instruction {
            Instruction::Run(steps) => self.run(steps.as_slice()),
            Instruction::Tick => self.tick(),
            Instruction::Take(_) => Pause::Wants,
            Instruction::Takes(series, k) => self.want(*series, *k),
            Instruction::Give(from, n) => self.give(*from, *n),
            Instruction::Gives(series) => self.give_next(*series),
            Instruction::Ahead(k) => self.skip(*k),
            Instruction::Again(k) => self.jump_back(*k),
            Instruction::Branch(cell, on, k) => self.branch(*cell, *on, *k),
            Instruction::Turn(cell, k) => self.turn(*cell, *k),
            Instruction::Enter(place, at) => self.enter(*place, *at),
            Instruction::Leave => self.leave(),
            Instruction::Pipe(_) => Pause::Forks,
            Instruction::Stop => Pause::Halts,
        }
    }

    /// Goes on so many instructions behind the next one.
    fn skip(&mut self, k: u32) -> Pause
        ensures { Going (onward k self.old) ≡ moved_as result None self.new }
    {
        self.place = index_of(self.place.wrapping_add(1), k);
        Pause::Goes
    }

    /// Goes on so many instructions back.
    fn jump_back(&mut self, k: u32) -> Pause
        ensures { Going (backward k self.old) ≡ moved_as result None self.new }
    {
        self.place = self.place.wrapping_sub(k as usize);
        Pause::Goes
    }

    /// Straight code.
    fn run(&mut self, steps: &[Step]) -> Pause
        ensures { after_steps (go_all steps.now self.old.base self.old.memory) (λ m. Going (next_with self.old m)) self.old
            ≡ moved_as result None self.new }
    {
        let ran = run(steps, &mut self.frame, self.base);
        self.pass(ran)
    }

    /// A tick.
    fn tick(&mut self) -> Pause
        ensures { after_steps (ticked self.old.memory) (λ m. Going (next_with self.old m)) self.old ≡ moved_as result None self.new }
    {
        let ran = self.frame.tick();
        self.pass(ran)
    }

    /// What follows straight code that ran.
    fn pass(&mut self, ran: Result<(), Halt>) -> Pause
        ensures { after_steps (ended ran self.old.memory) (λ m. Going (next_with self.old m)) self.old ≡ moved_as result None self.new }
    {
        match ran {
            Ok(()) => self.skip(0),
            Err(Halt::Trap) => Pause::Fails(self.frame.trap()),
            Err(Halt::Spent) => Pause::Spends,
        }
    }

    /// How many of a series have come.
    fn come(&self, series: Series) -> u64
        ensures value { result ≡ come series self.now }
        ensures within { result < 2 ^ 63 }
    {
        count_of(self.frame.cell(index_of(self.base, series.counter)))
    }

    /// The index of the next one of a series.
    fn next(&self, series: Series) -> usize
        ensures { result ≡ next_of series self.now }
    {
        let offset = self.come(series).wrapping_mul(u64::from(series.size));
        series.from.index(self.base).wrapping_add(offset as usize)
    }

    /// Goes on where all of a series have come, and wants one more before.
    fn want(&mut self, series: Series, k: u32) -> Pause
        ensures { moved_by (Takes series k) self.old ≡ moved_as result None self.new }
    {
        if self.come(series) < u64::from(series.count) {
            Pause::Wants
        } else {
            self.skip(k)
        }
    }

    /// Gives so many cells from a spot on.
    fn give(&mut self, from: Spot, n: u32) -> Pause
        ensures { moved_by (Give from n) self.old ≡ moved_as result None self.new }
    {
        let at = from.index(self.base);
        self.place = index_of(self.place.wrapping_add(1), 0);
        Pause::Offers(at, n)
    }

    /// Gives the next one of a series, if not all have come.
    fn give_next(&mut self, series: Series) -> Pause
        ensures { moved_by (GivesSeries series) self.old ≡ moved_as result None self.new }
    {
        if self.come(series) < u64::from(series.count) {
            self.give_one(series)
        } else {
            self.skip(0)
        }
    }

    /// A tick, and the next one of a series.
    fn give_one(&mut self, series: Series) -> Pause
        requires { come series self.old < series.count }
        ensures { one_given series self.old ≡ moved_as result None self.new }
    {
        let at = self.next(series);
        let ran = self.frame.tick();
        match ran {
            Ok(()) => {
                self.count(series);
                Pause::Offers(at, series.size)
            }
            Err(Halt::Trap) => Pause::Fails(self.frame.trap()),
            Err(Halt::Spent) => Pause::Spends,
        }
    }

    /// One more of a series has come.
    fn count(&mut self, series: Series)
        requires { come series self.old < series.count }
        ensures { self.new ≡ record self.old { memory = counted_on series self.old self.old.memory } }
    {
        let come = self.come(series);
        self.frame
            .put(index_of(self.base, series.counter), (come + 1) as i64);
    }

    /// Goes on so many instructions further on where a cell is set, or where it is not.
    fn branch(&mut self, cell: Spot, on: bool, k: u32) -> Pause
        ensures { moved_by (Branch cell on k) self.old ≡ moved_as result None self.new }
    {
        let set = self.frame.cell(cell.index(self.base)) != 0;
        if set == on {
            self.skip(k)
        } else {
            self.skip(0)
        }
    }

    /// One turn fewer, where one is left.
    fn turn(&mut self, cell: u32, k: u32) -> Pause
        ensures { moved_by (Turn cell k) self.old ≡ moved_as result None self.new }
    {
        let at = index_of(self.base, cell);
        let n = self.frame.cell(at);
        if n > 0 {
            self.frame.put(at, n - 1);
            self.skip(0)
        } else {
            self.skip(k)
        }
    }

    /// The body of an instance, if there may be one more call.
    fn enter(&mut self, place: u32, at: u32) -> Pause
        ensures { moved_by (Enter place at) self.old ≡ moved_as result None self.new }
    {
        if self.calls.depth() >= self.deep {
            return Pause::Spends;
        }
        self.calls.push(Caller {
            place: self.place.wrapping_add(1),
            base: self.base,
        });
        self.place = place as usize;
        self.base = index_of(self.base, at);
        Pause::Goes
    }

    /// Back to the innermost caller.
    fn leave(&mut self) -> Pause
        ensures { left_for self.old.calls self.old ≡ moved_as result None self.new }
    {
        match self.calls.pop() {
            Some(caller) => {
                self.place = caller.place;
                self.base = caller.base;
                Pause::Goes
            }
            None => Pause::Spends,
        }
    }

    /// Takes an element, if it wants one.
    pub fn feed(&mut self, code: &[Instruction], source: Source)
        ensures { fed code.now (cells_in source.entry) self.old ≡ self.new }
    {
        match code.get(self.place) {
            Some(instruction) => self.accept(instruction, source),
            None => {}
        }
    }

    /// Takes an element, if an instruction wants one.
    fn accept(&mut self, instruction: &Instruction, source: Source)
        ensures { fed_by (Some instruction.now) (cells_in source.entry) self.old ≡ self.new }
    {
        match instruction {
            Instruction::Take(to) => self.take(*to, source),
            Instruction::Takes(series, _) => self.take_next(*series, source),
            _ => {}
        }
    }

    /// Takes an element into the cells from here on.
    fn take(&mut self, to: u32, source: Source)
        ensures { fed_by (Some (Take to)) (cells_in source.entry) self.old ≡ self.new }
    {
        write(&mut self.frame, index_of(self.base, to), source);
        self.accepted();
    }

    /// Takes one more element of a series, if not all have come.
    fn take_next(&mut self, series: Series, source: Source)
        ensures { either_thread (nat_lt (come series self.old) series.count) (series_fed series (cells_in source.entry) self.old) self.old
            ≡ self.new }
    {
        if self.come(series) < u64::from(series.count) {
            self.take_one(series, source);
        }
    }

    /// Takes one more element of a series.
    fn take_one(&mut self, series: Series, source: Source)
        requires { come series self.old < series.count }
        ensures { series_fed series (cells_in source.entry) self.old ≡ self.new }
    {
        let come = self.come(series);
        let at = self.next(series);
        write(&mut self.frame, at, source);
        self.frame
            .put(index_of(self.base, series.counter), (come + 1) as i64);
        self.accepted();
    }

    /// One more element was taken.
    fn accepted(&mut self)
        ensures { self.new ≡ record (onward 0 self.old) { taken = after self.old.taken } }
    {
        self.place = index_of(self.place.wrapping_add(1), 0);
        self.taken = self.taken.wrapping_add(1);
    }
}

/// The count in a cell: none for what is below 0.
fn count_of(n: i64) -> u64
    ensures value { result ≡ count_in n }
    ensures within { result < 2 ^ 63 }
{
    if n <= 0 { 0 } else { n as u64 }
}

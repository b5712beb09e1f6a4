// Straight code over cells, nested at branches, loops and calls alone.

ghost use Rattle.std.specs.Prelude.{◌≡◌};
ghost use Rattle.zir_expr.specs.Memory.{ended, moved, place_of};
ghost use Rattle.zir_expr.specs.Running.{go, go_all, go_fork, go_loop, go_counting, turns_in};
ghost use Rattle.zir_expr.specs.Running.{number_to, copy_to, changed_to, operated_to, located_to, loaded_to, stored_to, complex_to};
ghost use Rattle.zir_expr.specs.Running.{put_or_trap, parts_at, put_parts, offset_of};

use crate::complex::{ComplexOperation, Parts};
use crate::frame::{Frame, Halt, Spot, index_of};
use crate::scalar::{Change, Operation};
use crate::whole::Whole;
use sqlite_items::Items;
use zir_shared::Shared;
use zir_tree::place::Place;

/// Where the elements of an array are looked for: each has so many cells, and an index is one of so many.
#[derive(Clone, Copy, Debug, PartialEq, Eq)]
pub struct Elements {
    pub room: u32,
    pub size: u32,
    /// The trap of an index that is outside, and its place.
    pub code: u8,
    pub at: Place,
}

/// A step of code. The first spot of each is where the answer goes.
#[cycle(steps)]
#[derive(Drop)]
pub enum Step {
    /// A number.
    Number(Spot, i64),
    /// The cell of another spot.
    Copy(Spot, Spot),
    /// So many cells from another spot on.
    Move(Spot, Spot, u32),
    /// A prefix or a conversion.
    Change(Change, Spot, Spot),
    /// An operator, with the place of its trap.
    Operate(Operation, Spot, Spot, Spot, Place),
    /// An operator at complex numbers.
    Complex(ComplexOperation, Spot, Spot, Spot),
    /// An offset, another one and an index: the offset of an element.
    Locate(Spot, Spot, Spot, Elements),
    /// So many cells, from a spot and the offset in another one on.
    Load(Spot, Spot, Spot, u32),
    /// So many cells into those from a spot and the offset in another one on; the cells to store stand last.
    Store(Spot, Spot, Spot, u32),
    /// A trap.
    Fail(u8, Place),
    /// A choice between two ways.
    Branch(Fork),
    /// A loop with a test.
    While(Turn),
    /// A loop that counts.
    Count(Counting),
    /// A call of code whose cells begin at an offset in those of the caller.
    Call(Shared<Code>, u32),
}

/// The code of a body.
#[cycle(steps)]
#[derive(Drop)]
pub struct Code {
    pub steps: Items<Step>,
}

/// The ways of a choice, the second where the cell is 0.
#[cycle(steps)]
#[derive(Drop)]
pub struct Fork {
    pub test: Spot,
    pub first: Items<Step>,
    pub second: Items<Step>,
}

/// A loop: the code of its test, the cell of the answer, and its body.
#[cycle(steps)]
#[derive(Drop)]
pub struct Turn {
    pub test: Items<Step>,
    pub cell: Spot,
    pub body: Items<Step>,
}

/// A loop that counts: the cell of its number of turns, that of its index, which holds the first index at the beginning, and its body.
#[cycle(steps)]
#[derive(Drop)]
pub struct Counting {
    pub turns: Spot,
    pub index: Spot,
    pub body: Items<Step>,
}

/// Steps one after the other.
#[cycle(going)]
#[inline(always)]
pub fn run(steps: &[Step], frame: &mut Frame, base: usize) -> Result<(), Halt>
    ensures { go_all steps.now base frame.old ≡ ended result frame.new }
{
    if steps.is_empty() {
        return Ok(());
    }
    run_each(steps, frame, base)
}

/// The same in one loop for all kinds of steps, so that a step costs no call.
#[cycle(going)]
#[inline(never)]
fn run_each(steps: &[Step], frame: &mut Frame, base: usize) -> Result<(), Halt>
    ensures { go_all steps.now base frame.old ≡ ended result frame.new }
{
    for step in steps {
        run_one(step, frame, base)?;
    }
    Ok(())
}

/// One step.
#[cycle(going)]
#[inline(always)]
fn run_one(step: &Step, frame: &mut Frame, base: usize) -> Result<(), Halt>
    ensures { go step.now base frame.old ≡ ended result frame.new }
{
    match step {
        Step::Number(to, n) => {
            number(*to, *n, frame, base);
            Ok(())
        }
        Step::Copy(to, from) => {
            copy(*to, *from, frame, base);
            Ok(())
        }
        Step::Move(to, from, n) => {
            move_cells(*to, *from, *n, frame, base);
            Ok(())
        }
        Step::Change(change, to, a) => {
            apply_change(*change, *to, *a, frame, base);
            Ok(())
        }
        Step::Operate(operation, to, a, b, at) => operate(
            *operation, *to, *a, *b, *at, frame, base,
        ),
        Step::Complex(operation, to, a, b) => {
            operate_complex(*operation, *to, *a, *b, frame, base);
            Ok(())
        }
        Step::Locate(to, from, index, elements) => locate(
            *to, *from, *index, *elements, frame, base,
        ),
        Step::Load(to, from, offset, n) => {
            load(*to, *from, *offset, *n, frame, base);
            Ok(())
        }
        Step::Store(to, offset, from, n) => {
            store(*to, *offset, *from, *n, frame, base);
            Ok(())
        }
        Step::Fail(code, at) => frame.fail(*code, *at),
        Step::Branch(fork) => choose(fork, frame, base),
        Step::While(turn) => take_turns(turn, frame, base),
        Step::Count(counting) => count_turns(counting, frame, base),
        Step::Call(code, at) => {
            frame.tick()?;
            run(code.get().steps.as_slice(), frame, index_of(base, *at))
        }
    }
}

/// One of the two ways of a choice.
#[cycle(going)]
#[inline(never)]
fn choose(fork: &Fork, frame: &mut Frame, base: usize) -> Result<(), Halt>
    ensures { go_fork fork.now base frame.old ≡ ended result frame.new }
{
    if frame.cell(fork.test.index(base)) != 0 {
        run(fork.first.as_slice(), frame, base)
    } else {
        run(fork.second.as_slice(), frame, base)
    }
}

/// A loop with a test, whose turns are at most as many as ticks are left.
#[cycle(going)]
#[inline(never)]
fn take_turns(turn: &Turn, frame: &mut Frame, base: usize) -> Result<(), Halt>
    ensures { go_loop turn.now base frame.old ≡ ended result frame.new }
{
    let left = frame.left();
    for past in 0..left {
        run(turn.test.as_slice(), frame, base)?;
        if frame.cell(turn.cell.index(base)) == 0 {
            return Ok(());
        }
        frame.tick()?;
        run(turn.body.as_slice(), frame, base)?;
    }
    run(turn.test.as_slice(), frame, base)?;
    if frame.cell(turn.cell.index(base)) == 0 {
        Ok(())
    } else {
        Err(Halt::Spent)
    }
}

/// A loop that counts.
#[cycle(going)]
#[inline(never)]
fn count_turns(counting: &Counting, frame: &mut Frame, base: usize) -> Result<(), Halt>
    ensures { go_counting counting.now base frame.old ≡ ended result frame.new }
{
    let turns = turns_of(frame.cell(counting.turns.index(base)));
    let at = counting.index.index(base);
    let mut i = frame.cell(at);
    for past in 0..turns {
        frame.tick()?;
        frame.put(at, i);
        run(counting.body.as_slice(), frame, base)?;
        i = Whole::ThirtyTwo.sum(i, 1);
    }
    Ok(())
}

/// So many turns, none below 1.
fn turns_of(n: i64) -> u64
    ensures { turns_in n ≡ result }
{
    if n <= 0 { 0 } else { n as u64 }
}

#[inline(always)]
fn number(to: Spot, n: i64, frame: &mut Frame, base: usize)
    ensures { number_to to n base frame.old ≡ frame.new }
{
    frame.put(to.index(base), n);
}

#[inline(always)]
fn copy(to: Spot, from: Spot, frame: &mut Frame, base: usize)
    ensures { copy_to to from base frame.old ≡ frame.new }
{
    let n = frame.cell(from.index(base));
    frame.put(to.index(base), n);
}

#[inline(never)]
fn move_cells(to: Spot, from: Spot, n: u32, frame: &mut Frame, base: usize)
    ensures { moved n (place_of base to) (place_of base from) frame.old ≡ frame.new }
{
    frame.copy(to.index(base), from.index(base), n);
}

#[inline(always)]
fn apply_change(change: Change, to: Spot, a: Spot, frame: &mut Frame, base: usize)
    ensures { changed_to change to a base frame.old ≡ frame.new }
{
    let n = change.apply(frame.cell(a.index(base)));
    frame.put(to.index(base), n);
}

#[inline(always)]
fn operate(
    operation: Operation,
    to: Spot,
    a: Spot,
    b: Spot,
    at: Place,
    frame: &mut Frame,
    base: usize,
) -> Result<(), Halt>
    ensures { operated_to operation to a b at base frame.old ≡ ended result frame.new }
{
    let m = frame.cell(a.index(base));
    let n = frame.cell(b.index(base));
    put_or_fail(operation.apply(m, n), to.index(base), at, frame)
}

/// A cell, or a trap.
#[inline(always)]
fn put_or_fail(answer: Result<i64, u8>, to: usize, at: Place, frame: &mut Frame) -> Result<(), Halt>
    ensures { put_or_trap answer to at frame.old ≡ ended result frame.new }
{
    match answer {
        Ok(n) => {
            frame.put(to, n);
            Ok(())
        }
        Err(code) => frame.fail(code, at),
    }
}

#[inline(never)]
fn operate_complex(
    operation: ComplexOperation,
    to: Spot,
    a: Spot,
    b: Spot,
    frame: &mut Frame,
    base: usize,
)
    ensures { complex_to operation to a b base frame.old ≡ frame.new }
{
    let m = parts(a.index(base), frame);
    let n = parts(b.index(base), frame);
    put_parts_at(to.index(base), operation.apply(m, n), frame);
}

fn parts(i: usize, frame: &Frame) -> Parts
    ensures { parts_at i frame.now ≡ result }
{
    Parts {
        real: frame.cell(i),
        imaginary: frame.cell(i.wrapping_add(1)),
    }
}

fn put_parts_at(i: usize, parts: Parts, frame: &mut Frame)
    ensures { put_parts i parts frame.old ≡ frame.new }
{
    frame.put(i, parts.real);
    frame.put(i.wrapping_add(1), parts.imaginary);
}

#[inline(always)]
fn locate(
    to: Spot,
    from: Spot,
    index: Spot,
    elements: Elements,
    frame: &mut Frame,
    base: usize,
) -> Result<(), Halt>
    ensures { located_to to from index elements base frame.old ≡ ended result frame.new }
{
    let offset = frame.cell(from.index(base));
    let k = frame.cell(index.index(base));
    put_or_fail(
        elements.offset(offset, k),
        to.index(base),
        elements.at,
        frame,
    )
}

impl Elements {
    /// The offset of the element at an index, which is tested first, or the number of a trap.
    #[inline(always)]
    fn offset(self, from: i64, k: i64) -> Result<i64, u8>
        ensures { offset_of from k self ≡ result }
    {
        if 0 <= k && k < i64::from(self.room) {
            Ok(Whole::SixtyFour.sum(from, Whole::SixtyFour.product(k, i64::from(self.size))))
        } else {
            Err(self.code)
        }
    }
}

#[inline(always)]
fn load(to: Spot, from: Spot, offset: Spot, n: u32, frame: &mut Frame, base: usize)
    ensures { loaded_to to from offset n base frame.old ≡ frame.new }
{
    let at = from.index_after(base, frame.cell(offset.index(base)));
    frame.copy(to.index(base), at, n);
}

#[inline(never)]
fn store(to: Spot, offset: Spot, from: Spot, n: u32, frame: &mut Frame, base: usize)
    ensures { stored_to to offset from n base frame.old ≡ frame.new }
{
    let at = to.index_after(base, frame.cell(offset.index(base)));
    frame.copy(at, from.index(base), n);
}

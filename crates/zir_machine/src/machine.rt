// A machine: a component with the elements that are handed to it.

ghost use Rattle.std.specs.Prelude.{ℕ, ◌≡◌, ◌≤◌, ◌+◌, ◌^◌, ◌∷◌, [], IfOk, OnOk, IfSome, Some, None};
ghost use Rattle.std.proofs.Props.{props};
ghost use Rattle.zir_chunk.specs.Contents.{IsSmall};
ghost use Rattle.zir_machine.specs.MachineKept.{Kept};
ghost use Rattle.zir_machine.specs.MachineStands.{next_after, base_after, offer_of};
ghost use Rattle.zir_steps.specs.Elements.{val_of, element_of, later as later_of};

use crate::build::build;
use crate::eval::is_one;
use crate::node::Node;
use crate::progress::{Focus, Progress};
use std::alloc::{AllocError, Global};
use zir_bit_tree::tree::Comp;
use zir_bit_tree::value::{Slot, Val};
use zir_chunk::Chunk;
use zir_steps::answer::Answer;
use zir_steps::worker::Worker;
use zir_tree::ends::{EndMark, Stamp};

/// The turns of loops that one call may begin.
const FUEL: u32 = 4096;

/// An element that was handed in, and how far its producer had run.
#[derive(Clone, Copy, Debug)]
pub struct Element {
    pub value: Val,
    pub stamp: Stamp,
}

/// Runs a component over the elements of chunks. Its ticks count on top of those of the element that it took last.
#[derive(Drop)]
pub struct Machine {
    node: Node,
    progress: Progress,
    store: Vec<Slot>,
    /// The stamp of the element that the component took last, and before the first one the start.
    base: Stamp,
    /// An element that was handed in and is not taken yet.
    next: Option<Element>,
    pushed: Stamp,
    limit: u64,
    last: Option<Answer>,
    ghost limited: { limit ≤ 2 ^ 48 },
    ghost base_small: { IsSmall base },
    ghost next_small: { IfSome next (λ element. IsSmall element.stamp) } by { Prim.hlevel props },
    ghost pushed_small: { IsSmall pushed },
    ghost kept: { Kept last node progress store.items base limit },
}

/// The value of an element: the bit whose cell is 1, and for every other element the bit 0.
fn read(cells: &[i64]) -> Val
    ensures { result ≡ val_of cells.now }
{
    Val::Bit(cells.len() == 1 && cells[0] == 1)
}

/// The element of an output.
fn write(v: Val) -> [i64; 1]
    ensures { element_of 1 v ≡ result }
{
    if is_one(v) { [1] } else { [0] }
}

/// Takes away an element that the component took from its offer, and stands at its stamp.
fn settle(next: &mut Option<Element>, base: &mut Stamp, offer: Option<Val>)
    ensures next { next.new ≡ next_after next.old offer }
    ensures base { base.new ≡ base_after next.old offer base.old }
{
    if offer.is_none()
        && let Some(element) = next.take()
    {
        *base = element.stamp;
    }
}

/// The value that is offered.
fn offered(next: &Option<Element>) -> Option<Val>
    ensures { result ≡ offer_of next.now }
{
    match next {
        None => None,
        Some(element) => Some(element.value),
    }
}

/// The later of two stamps in each part.
fn later(s: Stamp, t: Stamp) -> Stamp
    ensures { result ≡ later_of s t }
{
    Stamp {
        taken: s.taken.max(t.taken),
        ticks: s.ticks.max(t.ticks),
    }
}

impl Machine {
    ghost use Rattle.zir_machine.specs.MachineOf.{standing_of};
    ghost use Rattle.zir_machine.specs.MachineStands.{Stands, beginning, here_of, own_of};
    ghost use Rattle.zir_machine.specs.Nodes.{comp_of};
    ghost use Rattle.zir_steps.specs.History.{History, trace_of};
    ghost use Rattle.zir_steps.specs.Says.{MayTick, Works};
    ghost use Rattle.zir_steps.specs.declared.answer.Answer.TheVariants.{Done};
    ghost use Rattle.zir_bit_tree.specs.declared.ends.End.TheVariants.{Value};

    /// The machine of a component, before its first tick. It has no ticks until it is reset.
    pub fn open(alloc: Global, c: &Comp) -> Result<Machine, AllocError>
        ensures stands { IfOk result (λ machine. ⟦<Machine as Worker>⟧.stands_for machine (beginning c.now 0 0)) }
        ensures component { IfOk result (λ machine. ⟦<Machine as Worker>⟧.component machine ≡ c.now) }
        ensures last { IfOk result (λ machine. ⟦<Machine as Worker>⟧.last machine ≡ None) }
    {
        let node = build(alloc, c)?;
        let mut machine = Machine {
            node,
            progress: Progress {
                focus: Focus::Begin,
                taken: 0,
                ticks: 0,
                left: 0,
            },
            store: Vec::new(alloc),
            base: Stamp { taken: 0, ticks: 0 },
            next: None,
            pushed: Stamp { taken: 0, ticks: 0 },
            limit: 0,
            last: Some(Answer::Stopped),
        };
        machine.reset(0, 0)?;
        Ok(machine)
    }

    /// Brings it to the beginning of its component, after so many elements of the run and with so many ticks.
    pub fn reset(&mut self, start: u64, limit: u64) -> Result<(), AllocError>
        requires { start + limit ≤ 2 ^ 48 }
        ensures stands { OnOk result (⟦<Machine as Worker>⟧.stands_for self.new (beginning (⟦<Machine as Worker>⟧.component self.old) start limit)) }
        ensures last { OnOk result (⟦<Machine as Worker>⟧.last self.new ≡ None) }
        ensures component { ⟦<Machine as Worker>⟧.component self.new ≡ ⟦<Machine as Worker>⟧.component self.old }
    {
        self.last = Some(Answer::Stopped);
        self.progress.begin(0, 0, limit);
        self.store.clear();
        self.base = Stamp {
            taken: start,
            ticks: 0,
        };
        self.next = None;
        self.pushed = self.base;
        self.limit = limit;
        self.node.enter(&mut self.progress, &mut self.store)?;
        self.last = None;
        Ok(())
    }

    /// The value that the component ended with.
    pub fn value(&self) -> Val
        requires { ⟦<Machine as Worker>⟧.last self.now ≡ Some Done }
        ensures { (h : History) → ⟦<Machine as Worker>⟧.stands_for self.now h → (trace_of h).end ≡ Value result }
    {
        self.progress.value()
    }

    /// How far the component and what was handed to it had run.
    fn here(&self) -> Stamp
        ensures { result ≡ here_of (standing_of self.now) }
    {
        Stamp {
            taken: self.base.taken,
            ticks: self.base.ticks + self.progress.ticks,
        }
    }

    /// Works until the next event.
    fn work(&mut self) -> Result<Answer, AllocError>
        requires { MayTick (standing_of self.old).last }
        ensures stands { OnOk result ((h : History) → Stands (standing_of self.old) h → Stands (standing_of self.new) h) }
        ensures works { IfOk result (λ a. Works a (own_of (standing_of self.old)) (own_of (standing_of self.new))) }
        ensures last { IfOk result (λ a. (standing_of self.new).last ≡ Some a) }
        ensures counts { OnOk result (own_of (standing_of self.old) ≤ own_of (standing_of self.new)) }
        ensures pushed { (standing_of self.new).pushed ≡ (standing_of self.old).pushed }
        ensures component { comp_of (standing_of self.new).node ≡ comp_of (standing_of self.old).node }
    {
        self.last = Some(Answer::Stopped);
        let mut offer = offered(&self.next);
        let mut fuel = FUEL;
        let answer = self
            .node
            .step(&mut self.progress, &mut self.store, &mut offer, &mut fuel)?;
        settle(&mut self.next, &mut self.base, offer);
        let answer = if self.base.ticks + self.progress.ticks <= self.limit {
            answer
        } else {
            Answer::Stopped
        };
        self.last = Some(answer);
        Ok(answer)
    }
}

impl Worker for Machine {
    ghost use Rattle.zir_machine.specs.MachineOf.{standing_of};
    ghost use Rattle.zir_machine.specs.MachineStands.{Stands, own_of};
    ghost use Rattle.zir_machine.specs.MachineSays.{stands_front, stands_bounded};
    ghost use Rattle.zir_machine.specs.Nodes.{comp_of};

    ghost stands_for = { λ m h. Stands (standing_of m) h };

    ghost component = { λ m. comp_of m.node };

    ghost last = { λ m. m.last };

    ghost own = { λ m. own_of (standing_of m) };

    ghost pushed = { λ m. m.pushed };

    ghost cells = { λ m. 1 };

    ghost front = { λ m h s. stands_front (standing_of m) h s };

    ghost bounded = { λ m h s. stands_bounded (standing_of m) h s };

    ghost same = { λ m h s. s.component };

    fn tick(&mut self) -> Result<Answer, AllocError> {
        self.work()
    }

    fn process(&mut self, chunk: &Chunk, i: usize) -> Result<Answer, AllocError> {
        self.next = Some(Element {
            value: read(chunk.element(i)),
            stamp: chunk.stamp(i),
        });
        self.last = None;
        self.work()
    }

    fn take_out(&mut self, into: &mut Chunk) {
        let value = self.progress.output().unwrap();
        self.pushed = later(self.pushed, self.here());
        into.push(&write(value), self.pushed);
        self.progress.focus = Focus::Given;
        self.last = None;
    }

    fn end(&self) -> Option<(EndMark, Stamp)> {
        match self.last? {
            Answer::Done => Some((EndMark::Value, self.here())),
            Answer::Need => Some((EndMark::Starved, self.here())),
            Answer::Stopped => Some((EndMark::Spent, self.pushed)),
            Answer::Yield | Answer::Skip => None,
        }
    }

    fn size(&self) -> u32 {
        1
    }
}

#[cfg(test)]
mod tests;

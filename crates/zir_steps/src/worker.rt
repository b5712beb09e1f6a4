// The contract of a worker.

ghost use Rattle.std.specs.Prelude.{ℕ, ℤ, ◌≡◌, ◌+◌, ◌<◌, ◌≤◌, ◌⊎◌, ◌++◌, ◌∷◌, [], List, Option, Some, None, IfOk, OnOk, IfSome, is_some, length};
ghost use Rattle.zir_tree.specs.declared.ends.Stamp.{Stamp as StampOf};
ghost use Rattle.zir_bit_tree.specs.declared.tree.Comp.{Comp};
ghost use Rattle.zir_bit_meaning.specs.Trace.{Out};
ghost use Rattle.zir_chunk.specs.Contents.{AtMost, HasRoom, last_stamp};
ghost use Rattle.zir_steps.specs.declared.answer.Answer.{Answer as AnswerOf};
ghost use Rattle.zir_steps.specs.declared.answer.Answer.TheVariants.{Yield, Need};
ghost use Rattle.zir_steps.specs.History.{History, Rises, IsFront, receive, give, stamp_of};
ghost use Rattle.zir_steps.specs.Elements.{IsAt, element_of, later};
ghost use Rattle.zir_steps.specs.Says.{Says, MayTick, Works, tells_end, end_of};

use crate::answer::Answer;
use std::alloc::AllocError;
use zir_chunk::Chunk;
use zir_tree::ends::{EndMark, Stamp};

/// Runs a component over elements that are handed in one at a time. Each call does a bounded piece of work. What the
/// answers say holds where the stamps of the elements rise.
/// After a memory error nothing but `end` and `size` may be called.
pub trait Worker {
    // Whether it stands for this history.
    ghost stands_for: { Self → History → Type 0 };

    // The component that it runs.
    ghost component: { Self → Comp };

    // What it answered last, and nothing before the first answer and after `take_out`.
    ghost last: { Self → Option AnswerOf };

    // The ticks that it has counted. Work done ahead is not among them, and this never falls.
    ghost own: { Self → ℕ };

    // The last stamp that it pushed, and before the first one its start with no tick.
    ghost pushed: { Self → StampOf };

    // The cells of each of its outputs.
    ghost cells: { Self → ℕ };

    /// Works until an output waits, an element is needed, the end, or for a bounded number of ticks.
    fn tick(&mut self) -> Result<Answer, AllocError>
        requires { MayTick (last self.old) }
        ensures stands { OnOk result ((h : History) → stands_for self.old h → stands_for self.new h) }
        ensures says { IfOk result (λ a. (h : History) → stands_for self.old h → Rises h → Says a h) }
        ensures works { IfOk result (λ a. Works a (own self.old) (own self.new)) }
        ensures last { IfOk result (λ a. last self.new ≡ Some a) }
        ensures counts { OnOk result (own self.old ≤ own self.new) }
        ensures component { component self.new ≡ component self.old }
        ensures pushed { pushed self.new ≡ pushed self.old }
        ensures cells { cells self.new ≡ cells self.old };

    /// Receives an element of a chunk, counted from 0, and works as `tick` does. An element that is no bit counts as
    /// the bit 0.
    fn process(&mut self, chunk: &Chunk, i: usize) -> Result<Answer, AllocError>
        requires needed { last self.old ≡ Some Need }
        requires within { i < length chunk.now.elements }
        ensures stands { OnOk result ((h : History) (o : Out) → IsAt chunk.now i o → stands_for self.old h → stands_for self.new (receive h o)) }
        ensures says { IfOk result (λ a. (h : History) (o : Out) → IsAt chunk.now i o → stands_for self.old h → Rises (receive h o) → Says a (receive h o)) }
        ensures last { IfOk result (λ a. last self.new ≡ Some a) }
        ensures counts { OnOk result (own self.old ≤ own self.new) }
        ensures component { component self.new ≡ component self.old }
        ensures pushed { pushed self.new ≡ pushed self.old }
        ensures cells { cells self.new ≡ cells self.old };

    /// Pushes the output that waits. Its stamp is in each part the greater of its own and the last one pushed.
    fn take_out(&mut self, into: &mut Chunk)
        requires waits { last self.old ≡ Some Yield }
        requires room { HasRoom into.old }
        requires size { into.old.size ≡ cells self.old }
        requires rising { (into.old.elements ≡ []) ⊎ AtMost (last_stamp into.old) (pushed self.old) }
        ensures pushes { (element : List ℤ) × (into.new ≡ record into.old { elements = into.old.elements ++ record { cells = element; stamp = pushed self.new } ∷ [] }) }
        ensures last_stamp { last_stamp into.new ≡ pushed self.new }
        ensures gives { (h : History) → stands_for self.old h → ((o : Out) × stands_for self.new (give h o) × (into.new ≡ record into.old { elements = into.old.elements ++ record { cells = element_of (cells self.old) o.value; stamp = pushed self.new } ∷ [] }) × (pushed self.new ≡ later (pushed self.old) (stamp_of o)) × (Rises h → pushed self.new ≡ stamp_of o)) }
        ensures last { last self.new ≡ None }
        ensures counts { own self.new ≡ own self.old }
        ensures component { component self.new ≡ component self.old }
        ensures cells { cells self.new ≡ cells self.old };

    /// The end of the trace over what was received, after `Done`, `Need` and `Stopped`. The stamp of a spent end, which
    /// has no place of its own, is the last one that was pushed.
    fn end(&self) -> Option<(EndMark, Stamp)>
        ensures some { is_some result ≡ tells_end (last self.now) }
        ensures value { IfSome result (λ end. (h : History) → stands_for self.now h → Rises h → end ≡ end_of h (pushed self.now)) };

    /// The number of cells of each output.
    fn size(&self) -> u32
        ensures value { result ≡ cells self.now }
        ensures some { 1 ≤ result }
        ensures fits { result ≤ 4096 };

    // It runs the component of the history.
    ghost same: { (w : Self) (h : History) → stands_for w h → h.component ≡ component w };

    // What it gave is a front part of the outputs of the trace.
    ghost front: { (w : Self) (h : History) → stands_for w h → IsFront h };

    // It counts no more ticks than it has.
    ghost bounded: { (w : Self) (h : History) → stands_for w h → own w ≤ h.limit };
}

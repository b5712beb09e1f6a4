//! What drives a worker: an element goes in where the worker needs one, and an output goes out where one waits.

ghost use Rattle.std.specs.Prelude.{ℕ, List, Option, ◌+◌, ◌^◌, ◌≤◌, ◌≡◌, ◌⊎◌, [], true, false, Some, None, IfOk, OnOk, OnErr, IfSome, IsErrOf};
ghost use Rattle.zir_bit_tree.specs.declared.tree.Comp.{Comp};
ghost use Rattle.zir_bit_tree.specs.declared.value.Val.TheVariants.{Bit as BitVal};
ghost use Rattle.zir_bit_meaning.specs.Evaluation.{is_one as is_one_of};
ghost use Rattle.zir_bit_meaning.specs.Trace.{Out};
ghost use Rattle.zir_outside.specs.Causes.{HasCause, Rose};
ghost use Rattle.zir_steps.specs.declared.answer.Answer.TheVariants.{Yield, Need, Done};
ghost use Rattle.zir_steps.specs.Elements.{element_of, val_of};
ghost use Rattle.zir_steps.specs.History.{History, Rises, give as give_of, receive, trace_of as trace_over};
ghost use Rattle.zir_steps.specs.Says.{MayTick, Works, tells_end};
ghost use Rattle.zir_drive.specs.Runs.{Begins, OwnValue, Ran, RanPart, history, trace_of};
ghost use Rattle.zir_drive.specs.Driving.{Broke, Fed, Fits, Goes, Handed, IsFresh, Live, Moved, Over, PutOne, Tells, Turned, Worked, element_in};

use crate::{DriveError, Ended, Outcome};
use std::alloc::{AllocError, Global};
use zir_bit_samples::{BitReader, BitWriter};
use zir_chunk::Chunk;
use zir_outside::{Failed, Sink, Source};
use zir_steps::answer::Answer;
use zir_steps::worker::Worker;
use zir_tree::ends::{EndMark, Stamp};

/// The bits that were read ahead and that are not written yet, a chunk for an element on its way in and one for an
/// output on its way out, and how many elements were handed in and given out.
#[derive(Debug, Drop)]
pub struct Driver {
    reader: BitReader,
    writer: BitWriter,
    next: Chunk,
    made: Chunk,
    handed: u64,
    given: u64,
}

/// Whether the cells of an element are those of the bit 1.
fn is_one(cells: &[i64]) -> bool
    ensures { result ≡ is_one_of (val_of cells.now) }
{
    cells.len() == 1 && cells[0] == 1
}

/// The cells of a bit's element.
fn cells_of(bit: bool) -> [i64; 1]
    ensures { element_of 1 (BitVal bit) ≡ result }
{
    if bit { [1] } else { [0] }
}

/// Works until the next event.
fn work<W: Worker>(worker: &mut W) -> Result<Option<Answer>, DriveError>
    requires { MayTick (W.last worker.old) }
    ensures worked { Worked (λ h. h) (W.stands_for worker.old) (W.stands_for worker.new) result }
    ensures last { IfOk result (λ next. W.last worker.new ≡ next) }
    ensures works { IfOk result (λ next. IfSome next (λ a. Works a (W.own worker.old) (W.own worker.new))) }
    ensures counts { OnOk result (W.own worker.old ≤ W.own worker.new) }
    ensures component { W.component worker.new ≡ W.component worker.old }
    ensures cells { W.cells worker.new ≡ W.cells worker.old }
{
    Ok(Some(worker.tick()?))
}

/// How the component of a worker ended, and how many elements it took.
fn end_of<W: Worker>(worker: &W) -> (Ended, u64)
    requires { tells_end (W.last worker.now) ≡ true }
    ensures { (h : History) → W.stands_for worker.now h → Rises h → Tells result (trace_over h) }
{
    match worker.end() {
        Some((EndMark::Value, stamp)) => (Ended::Value, stamp.taken),
        Some((EndMark::Starved, stamp)) => (Ended::Starved, stamp.taken),
        Some((EndMark::Trap(trap), stamp)) => (Ended::Trap(trap), stamp.taken),
        Some((EndMark::Spent, stamp)) => (Ended::Spent, stamp.taken),
        None => unreachable!(),
    }
}

impl Driver {
    /// Nothing was read or written yet.
    pub fn open(alloc: Global) -> Result<Driver, AllocError>
        ensures { IfOk result IsFresh }
    {
        Ok(Driver {
            reader: BitReader::open(alloc)?,
            writer: BitWriter::open(alloc)?,
            next: Chunk::open(alloc)?,
            made: Chunk::open(alloc)?,
            handed: 0,
            given: 0,
        })
    }

    /// Drives a worker to its end.
    pub fn run<W: Worker, S: Source, K: Sink>(
        mut self,
        worker: &mut W,
        input: &mut S,
        out: &mut K,
    ) -> Result<Outcome, DriveError>
        requires new { IsFresh self }
        requires fresh { W.last worker.old ≡ None }
        requires bits { W.cells worker.old ≡ 1 }
        requires begins { Begins (W.stands_for worker.old) (W.component worker.old) }
        ensures done { (n : ℕ) (bytes : List ℕ) → W.stands_for worker.old (history (W.component worker.old) n [] []) → S.left input.old ≡ Some bytes → IfOk result (λ outcome. Ran outcome (trace_of (W.component worker.old) n bytes) (K.stands_for out.old) (K.stands_for out.new)) }
        ensures value { (n : ℕ) (bytes : List ℕ) → W.stands_for worker.old (history (W.component worker.old) n [] []) → S.left input.old ≡ Some bytes → IfOk result (λ outcome. OwnValue (W.stands_for worker.new) (trace_of (W.component worker.old) n bytes)) }
        ensures ended { IfOk result (λ outcome. outcome.end ≡ Ended.Value → W.last worker.new ≡ Some Done) }
        ensures failed { (n : ℕ) (bytes : List ℕ) → W.stands_for worker.old (history (W.component worker.old) n [] []) → S.left input.old ≡ Some bytes → OnErr result (RanPart (trace_of (W.component worker.old) n bytes) (K.stands_for out.old) (K.stands_for out.new)) }
        ensures read { IsErrOf result DriveError.Read → Rose (S.faults input.old) (S.faults input.new) }
        ensures write { IsErrOf result DriveError.Write → Rose (K.faults out.old) (K.faults out.new) }
    {
        let mut answer = Answer::Skip;
        'turns: loop {
            match self.turn(answer, worker, input, out) {
                Ok(Some(next)) => answer = next,
                Ok(None) => return self.finish(worker, out),
                Err(why) => return Err(self.break_off(why, out)),
            }
        }
    }

    /// Does what the last answer of the worker asks for. None where the run is at its end.
    fn turn<W: Worker, S: Source, K: Sink>(
        &mut self,
        answer: Answer,
        worker: &mut W,
        input: &mut S,
        out: &mut K,
    ) -> Result<Option<Answer>, DriveError>
        requires fits { Fits answer (W.last worker.old) }
        requires bits { W.cells worker.old ≡ 1 }
        requires live { Live (W.stands_for worker.old) self.old (W.component worker.old) answer }
        requires reads { self.old.reader.failed ≡ false }
        ensures turned { (before : K) (told : Option (List ℕ)) (n : ℕ) → Goes (W.stands_for worker.old) K.stands_for before out.old told (S.left input.old) self.old (W.component worker.old) n answer → Turned (W.stands_for worker.new) K.stands_for before out.new told (S.left input.new) self.new (W.component worker.old) n (W.last worker.new) result }
        ensures moved { Moved answer (W.last worker.new) self.old self.new (W.own worker.old) (W.own worker.new) result }
        ensures component { W.component worker.new ≡ W.component worker.old }
        ensures cells { W.cells worker.new ≡ W.cells worker.old }
        ensures reads { IfOk result (λ next. IfSome next (λ a. self.new.reader.failed ≡ false)) }
        ensures read { IsErrOf result DriveError.Read → Rose (S.faults input.old) (S.faults input.new) }
        ensures write { IsErrOf result DriveError.Write → Rose (K.faults out.old) (K.faults out.new) }
        ensures reads_later { S.faults input.old ≤ S.faults input.new }
        ensures writes_later { K.faults out.old ≤ K.faults out.new }
    {
        match answer {
            Answer::Skip => work(worker),
            Answer::Yield => self.give(worker, out),
            Answer::Need => self.hand(worker, input),
            Answer::Done | Answer::Stopped => Ok(None),
        }
    }

    /// Writes the output that waits, and works on.
    fn give<W: Worker, K: Sink>(
        &mut self,
        worker: &mut W,
        out: &mut K,
    ) -> Result<Option<Answer>, DriveError>
        requires waits { W.last worker.old ≡ Some Yield }
        requires bits { W.cells worker.old ≡ 1 }
        requires live { Live (W.stands_for worker.old) self.old (W.component worker.old) Yield }
        ensures turned { (before : K) (told left : Option (List ℕ)) (n : ℕ) → Goes (W.stands_for worker.old) K.stands_for before out.old told left self.old (W.component worker.old) n Yield → Turned (W.stands_for worker.new) K.stands_for before out.new told left self.new (W.component worker.old) n (W.last worker.new) result }
        ensures moved { Moved Yield (W.last worker.new) self.old self.new (W.own worker.old) (W.own worker.new) result }
        ensures component { W.component worker.new ≡ W.component worker.old }
        ensures cells { W.cells worker.new ≡ W.cells worker.old }
        ensures reader { self.new.reader ≡ self.old.reader }
        ensures read { IsErrOf result DriveError.Read → ⊥ }
        ensures write { IsErrOf result DriveError.Write → Rose (K.faults out.old) (K.faults out.new) }
        ensures later { K.faults out.old ≤ K.faults out.new }
    {
        match self.put(worker, out) {
            Ok(()) => work(worker),
            Err(Failed) => Err(DriveError::Write),
        }
    }

    /// Writes the output that waits.
    fn put<W: Worker, K: Sink>(&mut self, worker: &mut W, out: &mut K) -> Result<(), Failed>
        requires waits { W.last worker.old ≡ Some Yield }
        requires bits { W.cells worker.old ≡ 1 }
        requires few { self.old.given ≤ 2 ^ 48 }
        ensures put { (h : History) → W.stands_for worker.old h → ((o : Out) × W.stands_for worker.new (give_of h o) × PutOne K.stands_for out.old out.new self.old.writer self.new.writer o result) }
        ensures last { W.last worker.new ≡ None }
        ensures counts { W.own worker.new ≡ W.own worker.old }
        ensures component { W.component worker.new ≡ W.component worker.old }
        ensures cells { W.cells worker.new ≡ W.cells worker.old }
        ensures reader { self.new.reader ≡ self.old.reader }
        ensures handed { self.new.handed ≡ self.old.handed }
        ensures given { self.new.given ≡ self.old.given + 1 }
        ensures cause { HasCause (K.faults out.old) (K.faults out.new) result }
    {
        self.made.clear(1);
        worker.take_out(&mut self.made);
        self.given += 1;
        self.writer.push(is_one(self.made.element(0)), out)
    }

    /// Hands the next bit of the input in. None at the end of the input.
    fn hand<W: Worker, S: Source>(
        &mut self,
        worker: &mut W,
        input: &mut S,
    ) -> Result<Option<Answer>, DriveError>
        requires needed { W.last worker.old ≡ Some Need }
        requires live { Live (W.stands_for worker.old) self.old (W.component worker.old) Need }
        requires reads { self.old.reader.failed ≡ false }
        ensures handed { (told : Option (List ℕ)) (n : ℕ) (os : List Out) → Fed (W.stands_for worker.old) told (S.left input.old) self.old (W.component worker.old) n Need os → Handed (W.stands_for worker.new) told (S.left input.new) self.new (W.component worker.old) n (W.last worker.new) os result }
        ensures writer { self.new.writer ≡ self.old.writer }
        ensures moved { Moved Need (W.last worker.new) self.old self.new (W.own worker.old) (W.own worker.new) result }
        ensures component { W.component worker.new ≡ W.component worker.old }
        ensures cells { W.cells worker.new ≡ W.cells worker.old }
        ensures reads { IfOk result (λ next. IfSome next (λ a. self.new.reader.failed ≡ false)) }
        ensures read { IsErrOf result DriveError.Read → Rose (S.faults input.old) (S.faults input.new) }
        ensures write { IsErrOf result DriveError.Write → ⊥ }
        ensures later { S.faults input.old ≤ S.faults input.new }
    {
        match self.reader.next(input) {
            Ok(Some(bit)) => self.pass(bit, worker),
            Ok(None) => Ok(None),
            Err(Failed) => Err(DriveError::Read),
        }
    }

    /// Hands a bit in.
    fn pass<W: Worker>(&mut self, bit: bool, worker: &mut W) -> Result<Option<Answer>, DriveError>
        requires needed { W.last worker.old ≡ Some Need }
        requires few { self.old.handed ≤ 2 ^ 48 }
        ensures worked { Worked (λ h. receive h (element_in (self.old.handed + 1) bit)) (W.stands_for worker.old) (W.stands_for worker.new) result }
        ensures last { IfOk result (λ next. W.last worker.new ≡ next) }
        ensures counts { OnOk result (W.own worker.old ≤ W.own worker.new) }
        ensures component { W.component worker.new ≡ W.component worker.old }
        ensures cells { W.cells worker.new ≡ W.cells worker.old }
        ensures reader { self.new.reader ≡ self.old.reader }
        ensures writer { self.new.writer ≡ self.old.writer }
        ensures handed { self.new.handed ≡ self.old.handed + 1 }
        ensures given { self.new.given ≡ self.old.given }
    {
        self.handed += 1;
        self.next.clear(1);
        let stamp = Stamp {
            taken: self.handed,
            ticks: 0,
        };
        self.next.push(&cells_of(bit), stamp);
        Ok(Some(worker.process(&self.next, 0)?))
    }

    /// Writes all that is left, padded once, and tells how the run ended.
    fn finish<W: Worker, K: Sink>(&mut self, worker: &W, out: &mut K) -> Result<Outcome, DriveError>
        requires { tells_end (W.last worker.now) ≡ true }
        ensures done { (before : K) (told left : Option (List ℕ)) (c : Comp) (n : ℕ) (bytes : List ℕ) → told ≡ Some bytes → Over (W.stands_for worker.now) K.stands_for before out.old told left self.old c n (W.last worker.now) → IfOk result (λ outcome. Ran outcome (trace_of c n bytes) (K.stands_for before) (K.stands_for out.new)) }
        ensures ended { (before : K) (told left : Option (List ℕ)) (c : Comp) (n : ℕ) → Over (W.stands_for worker.now) K.stands_for before out.old told left self.old c n (W.last worker.now) → IfOk result (λ outcome. outcome.end ≡ Ended.Value → W.last worker.now ≡ Some Done) }
        ensures failed { (before : K) (told left : Option (List ℕ)) (c : Comp) (n : ℕ) (bytes : List ℕ) → told ≡ Some bytes → Over (W.stands_for worker.now) K.stands_for before out.old told left self.old c n (W.last worker.now) → OnErr result (RanPart (trace_of c n bytes) (K.stands_for before) (K.stands_for out.new)) }
        ensures read { IsErrOf result DriveError.Read → ⊥ }
        ensures write { IsErrOf result DriveError.Write → Rose (K.faults out.old) (K.faults out.new) }
        ensures later { K.faults out.old ≤ K.faults out.new }
    {
        let (end, taken) = end_of(worker);
        match self.writer.finish(out) {
            Ok(()) => Ok(Outcome {
                end,
                taken,
                written: self.given,
            }),
            Err(Failed) => Err(DriveError::Write),
        }
    }

    /// Writes the whole bytes that are left, unless a put failed. A put that fails here goes before any other error.
    fn break_off<K: Sink>(&mut self, why: DriveError, out: &mut K) -> DriveError
        ensures part { (before : K) (told : Option (List ℕ)) (c : Comp) (n : ℕ) (bytes : List ℕ) → told ≡ Some bytes → Broke K.stands_for before out.old told self.old.writer c n why → RanPart (trace_of c n bytes) (K.stands_for before) (K.stands_for out.new) }
        ensures cause { (result ≡ why) ⊎ ((result ≡ DriveError.Write) × Rose (K.faults out.old) (K.faults out.new)) }
        ensures later { K.faults out.old ≤ K.faults out.new }
    {
        if why == DriveError::Write {
            return why;
        }
        match self.writer.flush_whole(out) {
            Ok(()) => why,
            Err(Failed) => DriveError::Write,
        }
    }
}

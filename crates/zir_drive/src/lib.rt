//! Runs a worker over a source of bits and a sink for bits.
#![tactic(auto)]

mod driver;

ghost use Rattle.std.specs.Prelude.{ℕ, List, ◌≡◌, [], Some, None, IfOk, OnErr, IsErrOf};
ghost use Rattle.zir_outside.specs.Causes.{Rose};
ghost use Rattle.zir_steps.specs.declared.answer.Answer.TheVariants.{Done};
ghost use Rattle.zir_drive.specs.Runs.{Begins, OwnValue, Ran, RanPart, history, trace_of};

use driver::Driver;
use std::alloc::{AllocError, Global};
use zir_outside::{Sink, Source};
use zir_steps::worker::Worker;
use zir_tree::ends::Trap;

/// How a run ended.
#[derive(Clone, Copy, Debug, PartialEq, Eq)]
pub enum Ended {
    /// With the control value of its component.
    Value,
    /// It needed an element behind the end of the input.
    Starved,
    /// In a trap.
    Trap(Trap),
    /// It needed a tick, and none was left.
    Spent,
}

/// Why a run broke off.
#[derive(Clone, Copy, Debug, PartialEq, Eq)]
pub enum DriveError {
    /// A read failed.
    Read,
    /// A put failed.
    Write,
    /// There was no memory.
    Memory,
}

impl From<AllocError> for DriveError {
    ghost use Rattle.zir_drive.specs.declared.DriveError.TheVariants.{Memory as NoMemory};

    ghost from_gives = { λ _ e. e ≡ NoMemory };

    fn from(_error: AllocError) -> DriveError {
        DriveError::Memory
    }
}

/// How a run ended, and how many elements its component took and gave. A run whose ticks were spent has no place, so
/// `taken` says nothing of it.
#[derive(Clone, Copy, Debug, PartialEq, Eq)]
pub struct Outcome {
    pub end: Ended,
    pub taken: u64,
    pub written: u64,
}

/// Runs a worker, which nothing was handed to yet, over the bits of `input`, and writes its outputs as bits to `out`. A
/// bit is read only where the component needs it. The last byte is padded once where the run ended. Where a read failed
/// or memory ran out, the whole bytes of the outputs were written.
pub fn drive<W: Worker, S: Source, K: Sink>(
    alloc: Global,
    worker: &mut W,
    input: &mut S,
    out: &mut K,
) -> Result<Outcome, DriveError>
    requires fresh { W.last worker.old ≡ None }
    requires bits { W.cells worker.old ≡ 1 }
    requires begins { Begins (W.stands_for worker.old) (W.component worker.old) }
    ensures done { (n : ℕ) (bytes : List ℕ) → W.stands_for worker.old (history (W.component worker.old) n [] []) → S.left input.old ≡ Some bytes → IfOk result (λ outcome. Ran outcome (trace_of (W.component worker.old) n bytes) (K.stands_for out.old) (K.stands_for out.new)) }
    ensures value { (n : ℕ) (bytes : List ℕ) → W.stands_for worker.old (history (W.component worker.old) n [] []) → S.left input.old ≡ Some bytes → IfOk result (λ outcome. OwnValue (W.stands_for worker.new) (trace_of (W.component worker.old) n bytes)) }
    ensures ended { IfOk result (λ outcome. outcome.end ≡ Ended.Value → W.last worker.new ≡ Some Done) }
    ensures failed { (n : ℕ) (bytes : List ℕ) → W.stands_for worker.old (history (W.component worker.old) n [] []) → S.left input.old ≡ Some bytes → OnErr result (RanPart (trace_of (W.component worker.old) n bytes) (K.stands_for out.old) (K.stands_for out.new)) }
    ensures read { IsErrOf result DriveError.Read → Rose (S.faults input.old) (S.faults input.new) }
    ensures write { IsErrOf result DriveError.Write → Rose (K.faults out.old) (K.faults out.new) }
{
    let driver = Driver::open(alloc)?;
    driver.run(worker, input, out)
}

// The run of a program, and the note on how it ended.

ghost use Rattle.std.specs.Prelude.{ℕ, List, ◌≡◌, ◌≤◌, ◌^◌, ◌⊎◌, ◌↔◌, Some, None, IfOk};
ghost use Rattle.zir_bits.specs.Answers.{bits_answer};
ghost use Rattle.zir_drive.specs.Runs.{TellsEnd, OwnValue};
ghost use Rattle.zir_machine.specs.MachineStands.{beginning};
ghost use Rattle.zir_bit_meaning.specs.Answer.{status_of as status_of_end};
ghost use Rattle.zir_bit_meaning.specs.Run.{run_end};
ghost use Rattle.zir_bit_meaning.specs.Samples.{Ended as RunEnded};
ghost use Rattle.zir_bit_meaning.specs.Trace.{Trace};
ghost use Rattle.zir_notes.specs.Endings.{run_end_of};
ghost use Rattle.zir_outside.specs.Causes.{Rose};
ghost use Rattle.zir_outside.specs.Sinks.{Grew, GrewPart};
ghost use Rattle.zir_run.specs.Claim.{EndsAs, IsTold, IsEnded, IsBroken, IsQuietRun};
ghost use Rattle.zir_run.specs.Reports.{TellsRun, IsNoteOf, status_over, note_over};
ghost use Rattle.zir_steps.specs.declared.answer.Answer.TheVariants.{Done};

use std::alloc::{AllocError, Global};
use zir_bit_tree::tree::{Comp, Prog};
use zir_drive::{DriveError, Ended, Outcome, drive};
use zir_machine::machine::Machine;
use zir_notes::{Ending, write_end};
use zir_outside::{Failed, Sink, Source};
use zir_steps::worker::Worker;

/// The status of a run that ended with its value or its input.
const ENDED: u8 = 0;
/// The status of a run that ended in a trap.
const TRAPPED: u8 = 4;
/// The status of a run whose ticks were spent.
const SPENT: u8 = 5;
/// The status of a failed read.
const READ_FAULT: u8 = 7;
/// The status of a failed put.
const WRITE_FAULT: u8 = 8;
/// The status of want of memory.
const NO_MEMORY: u8 = 9;

/// Runs a program with so many ticks over the bits of `input`, writes its outputs as bits to `out` and the note on its
/// end to `notes`, and answers the status.
pub fn run<S: Source, K: Sink, N: Sink>(
    alloc: Global,
    program: &Prog,
    ticks: u64,
    input: &mut S,
    out: &mut K,
    notes: &mut N,
) -> u8
    requires { ticks ≤ 2 ^ 48 }
    ensures ended { (bytes : List ℕ) → S.left input.old ≡ Some bytes → IsEnded result
        → EndsAs result (bits_answer ticks program.now bytes)
        (K.stands_for out.old) (K.stands_for out.new) (N.stands_for notes.old) (N.stands_for notes.new) }
    ensures prefix { (bytes : List ℕ) → S.left input.old ≡ Some bytes → IsBroken result
        → GrewPart (bits_answer ticks program.now bytes).out (K.stands_for out.old) (K.stands_for out.new) }
    ensures whole { (bytes : List ℕ) → S.left input.old ≡ Some bytes → result ≡ 8
        → Rose (K.faults out.old) (K.faults out.new)
        ⊎ Grew (K.stands_for out.old) (K.stands_for out.new) (bits_answer ticks program.now bytes).out }
    ensures note_prefix { (bytes : List ℕ) → S.left input.old ≡ Some bytes → result ≡ 8
        → GrewPart (bits_answer ticks program.now bytes).notes (N.stands_for notes.old) (N.stands_for notes.new) }
    ensures told { (bytes : List ℕ) → S.left input.old ≡ Some bytes
        → IsTold result (bits_answer ticks program.now bytes) }
    ensures statuses { IsEnded result ⊎ IsBroken result }
    ensures read_fault { result ≡ 7 → Rose (S.faults input.old) (S.faults input.new) }
    ensures write_fault { result ≡ 8
        → Rose (K.faults out.old) (K.faults out.new) ⊎ Rose (N.faults notes.old) (N.faults notes.new) }
    ensures quiet { IsQuietRun result → notes.new ≡ notes.old }
{
    let Ok(mut machine) = prepare(alloc, &program.main, ticks) else {
        return NO_MEMORY;
    };
    match drive(alloc, &mut machine, input, out) {
        Ok(outcome) => report(&outcome, &machine, ticks, notes),
        Err(error) => status_of_error(error),
    }
}

/// A machine at the beginning of a component, with so many ticks.
fn prepare(alloc: Global, main: &Comp, ticks: u64) -> Result<Machine, AllocError>
    requires { ticks ≤ 2 ^ 48 }
    ensures stands { IfOk result (λ machine. ⟦<Machine as Worker>⟧.stands_for machine (beginning main.now 0 ticks)) }
    ensures component { IfOk result (λ machine. ⟦<Machine as Worker>⟧.component machine ≡ main.now) }
    ensures last { IfOk result (λ machine. ⟦<Machine as Worker>⟧.last machine ≡ None) }
{
    let mut machine = Machine::open(alloc, main)?;
    machine.reset(0, ticks)?;
    Ok(machine)
}

/// Puts the note on how a run ended, but none at a trap, and answers its status.
fn report<N: Sink>(outcome: &Outcome, machine: &Machine, ticks: u64, notes: &mut N) -> u8
    requires { outcome.now.end ≡ Ended.Value → ⟦<Machine as Worker>⟧.last machine.now ≡ Some Done }
    ensures ended { (t : Trace) → IsEnded result
        → TellsRun (⟦<Machine as Worker>⟧.stands_for machine.now) outcome.now t
        → Grew (N.stands_for notes.old) (N.stands_for notes.new) (note_over ticks t) }
    ensures failed { (t : Trace) → result ≡ 8
        → TellsRun (⟦<Machine as Worker>⟧.stands_for machine.now) outcome.now t
        → GrewPart (note_over ticks t) (N.stands_for notes.old) (N.stands_for notes.new) }
    ensures told { (t : Trace) → TellsRun (⟦<Machine as Worker>⟧.stands_for machine.now) outcome.now t
        → (result ≡ status_over t) ⊎ (result ≡ 8) }
    ensures statuses { IsEnded result ⊎ (result ≡ 8) }
    ensures fault { result ≡ 8 → Rose (N.faults notes.old) (N.faults notes.new) }
    ensures quiet { result ≡ 4 → notes.new ≡ notes.old }
{
    let Some(ending) = ending_of(outcome.end, machine) else {
        return TRAPPED;
    };
    match write_end(&ending, ticks, outcome.taken, outcome.written, notes) {
        Ok(()) => status_of(&ending),
        Err(Failed) => WRITE_FAULT,
    }
}

/// How a run ended, where a note tells of it: at each end but a trap.
fn ending_of(end: Ended, machine: &Machine) -> Option<Ending>
    requires { end ≡ Ended.Value → ⟦<Machine as Worker>⟧.last machine.now ≡ Some Done }
    ensures { (t : Trace) → TellsEnd end t.end → OwnValue (⟦<Machine as Worker>⟧.stands_for machine.now) t
        → IsNoteOf result (run_end RunEnded t.end) }
{
    match end {
        Ended::Value => Some(Ending::Value(machine.value())),
        Ended::Starved => Some(Ending::Input),
        Ended::Spent => Some(Ending::Spent),
        Ended::Trap(_) => None,
    }
}

/// The status of a run with a note.
fn status_of(ending: &Ending) -> u8
    ensures value { result ≡ status_of_end (run_end_of ending.now) }
    ensures ended { (result ≡ 0) ⊎ (result ≡ 5) }
{
    match ending {
        Ending::Value(_) | Ending::Input => ENDED,
        Ending::Spent => SPENT,
    }
}

/// The status of a run that broke off.
fn status_of_error(error: DriveError) -> u8
    ensures broken { IsBroken result }
    ensures read { (result ≡ 7) ↔ (error ≡ DriveError.Read) }
    ensures write { (result ≡ 8) ↔ (error ≡ DriveError.Write) }
{
    match error {
        DriveError::Read => READ_FAULT,
        DriveError::Write => WRITE_FAULT,
        DriveError::Memory => NO_MEMORY,
    }
}

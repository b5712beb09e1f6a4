// What is done with a text: its program is run, checked or shown, and a refused text is noted.

ghost use Rattle.std.specs.Prelude.{ℕ, List, ◌≡◌, ◌≤◌, ◌^◌, ◌⊎◌, Option, Err};
ghost use Rattle.zir_accept.specs.Accepting.{Tells, judged};
ghost use Rattle.zir_meaning.specs.Answer.{Answer};
ghost use Rattle.zir_narrow.specs.Narrow.{narrow};
ghost use Rattle.zir_outside.specs.Causes.{Rose};
ghost use Rattle.zir_outside.specs.Sinks.{Grew, GrewPart};
ghost use Rattle.zir_print.specs.Text.{canonical_text};
ghost use Rattle.zir_read.specs.Reading.{IsTold as IsVerdict};
ghost use Rattle.zir_run.specs.Claim.{AsksNoRun, Follows, IsBroken, IsQuietRun, IsRefused, IsSettled, MeansOf, built, for_asked, verdict_on};
ghost use Rattle.zir_run.specs.Keeping.{HasBudget, HasFault, Keeps};
ghost use Rattle.zir_words.specs.Words.{ForRun, asked_of};
ghost use Rattle.zir_notes.specs.Refusals.{refusal_note};
ghost use Rattle.zir_notes.specs.Reports.{report_text};

use crate::run::run;
use std::alloc::{AllocError, Global};
use zir_accept::{Accepted, judge};
use zir_bits::same_answers;
use zir_narrow::{NarrowError, narrow_is_over, narrow_program};
use zir_notes::reports::report;
use zir_notes::{put_in_pieces, write_refusal};
use zir_outside::{Failed, Sink, Source};
use zir_read::{one_verdict, read_program};
use zir_show::canonical::print;
use zir_tree::program::{Core, Prog};
use zir_tree::refusal::Refusal;
use zir_words::{Job, RunWords};

/// The status of a text that was put out.
const DONE: u8 = 0;
/// The status of a refused text.
const REFUSED: u8 = 2;
/// The status of a failed put.
const WRITE_FAULT: u8 = 8;
/// The status of want of memory.
const NO_MEMORY: u8 = 9;

/// Does what is asked of a text, or notes why it is refused, and answers the status.
pub fn perform_text<S: Source, K: Sink, N: Sink>(
    alloc: Global,
    job: Job<'_>,
    text: &[u8],
    input: &mut S,
    out: &mut K,
    notes: &mut N,
) -> u8
    requires { HasBudget (asked_of job) }
    ensures keeps { (a : Answer) → MeansOf (asked_of job.entry) text.now (S.left input.old) a
        → Keeps result a
        (K.stands_for out.old) (K.stands_for out.new) (K.faults out.old) (K.faults out.new)
        (N.stands_for notes.old) (N.stands_for notes.new) }
    ensures refused { result ≡ 2 → IsRefused (asked_of job.entry) text.now }
    ensures statuses { IsSettled result ⊎ IsBroken result }
    ensures read_fault { result ≡ 7 → Rose (S.faults input.old) (S.faults input.new) }
    ensures write_fault { result ≡ 8
        → Rose (K.faults out.old) (K.faults out.new) ⊎ Rose (N.faults notes.old) (N.faults notes.new) }
    ensures untouched { result ≡ 2 → (input.new ≡ input.old) × (out.new ≡ out.old) }
    ensures quiet { IsQuietRun result → notes.new ≡ notes.old }
    ensures unread { AsksNoRun (asked_of job.entry) → input.new ≡ input.old }
{
    one_verdict();
    match read_program(alloc, text) {
        Ok(program) => perform(alloc, job, &program, input, out, notes),
        Err(why) => note(job.name(), &why, notes),
    }
}

/// Does what is asked of a program, or notes why it is refused, and answers the status.
fn perform<S: Source, K: Sink, N: Sink>(
    alloc: Global,
    job: Job<'_>,
    program: &Prog,
    input: &mut S,
    out: &mut K,
    notes: &mut N,
) -> u8
    requires { HasBudget (asked_of job) }
    ensures keeps { (a : Answer) → Follows (asked_of job.entry) program.now (verdict_on (asked_of job.entry) program.now) (S.left input.old) a
        → Keeps result a
        (K.stands_for out.old) (K.stands_for out.new) (K.faults out.old) (K.faults out.new)
        (N.stands_for notes.old) (N.stands_for notes.new) }
    ensures refused { result ≡ 2 → HasFault (verdict_on (asked_of job.entry) program.now) }
    ensures statuses { IsSettled result ⊎ IsBroken result }
    ensures read_fault { result ≡ 7 → Rose (S.faults input.old) (S.faults input.new) }
    ensures write_fault { result ≡ 8
        → Rose (K.faults out.old) (K.faults out.new) ⊎ Rose (N.faults notes.old) (N.faults notes.new) }
    ensures untouched { result ≡ 2 → (input.new ≡ input.old) × (out.new ≡ out.old) }
    ensures quiet { IsQuietRun result → notes.new ≡ notes.old }
    ensures unread { AsksNoRun (asked_of job.entry) → input.new ≡ input.old }
{
    let verdict = judge(alloc, program);
    let status = perform_judged(alloc, job, program, &verdict, input, out, notes);
    drop(verdict);
    status
}

/// Does what is asked of a program with the verdict on it, or notes why it is refused, and answers the status.
fn perform_judged<S: Source, K: Sink, N: Sink>(
    alloc: Global,
    job: Job<'_>,
    program: &Prog,
    verdict: &Result<Accepted, Refusal>,
    input: &mut S,
    out: &mut K,
    notes: &mut N,
) -> u8
    requires budget { HasBudget (asked_of job) }
    requires told { Tells (judged program.now) verdict.now }
    ensures keeps { (a : Answer) → Follows (asked_of job.entry) program.now (verdict_on (asked_of job.entry) program.now) (S.left input.old) a
        → Keeps result a
        (K.stands_for out.old) (K.stands_for out.new) (K.faults out.old) (K.faults out.new)
        (N.stands_for notes.old) (N.stands_for notes.new) }
    ensures refused { result ≡ 2 → HasFault (verdict_on (asked_of job.entry) program.now) }
    ensures statuses { IsSettled result ⊎ IsBroken result }
    ensures read_fault { result ≡ 7 → Rose (S.faults input.old) (S.faults input.new) }
    ensures write_fault { result ≡ 8
        → Rose (K.faults out.old) (K.faults out.new) ⊎ Rose (N.faults notes.old) (N.faults notes.new) }
    ensures untouched { result ≡ 2 → (input.new ≡ input.old) × (out.new ≡ out.old) }
    ensures quiet { IsQuietRun result → notes.new ≡ notes.old }
    ensures unread { AsksNoRun (asked_of job.entry) → input.new ≡ input.old }
{
    match verdict {
        Ok(accepted) => perform_accepted(alloc, job, program, accepted, input, out, notes),
        Err(why) => note(job.name(), why, notes),
    }
}

/// Does what is asked of an accepted program, and answers the status.
fn perform_accepted<S: Source, K: Sink, N: Sink>(
    alloc: Global,
    job: Job<'_>,
    program: &Prog,
    accepted: &Accepted,
    input: &mut S,
    out: &mut K,
    notes: &mut N,
) -> u8
    requires { HasBudget (asked_of job) }
    ensures keeps { (a : Answer) → Follows (asked_of job.entry) program.now (for_asked (asked_of job.entry) program.now accepted.now) (S.left input.old) a
        → Keeps result a
        (K.stands_for out.old) (K.stands_for out.new) (K.faults out.old) (K.faults out.new)
        (N.stands_for notes.old) (N.stands_for notes.new) }
    ensures refused { result ≡ 2 → HasFault (for_asked (asked_of job.entry) program.now accepted.now) }
    ensures statuses { IsSettled result ⊎ IsBroken result }
    ensures read_fault { result ≡ 7 → Rose (S.faults input.old) (S.faults input.new) }
    ensures write_fault { result ≡ 8
        → Rose (K.faults out.old) (K.faults out.new) ⊎ Rose (N.faults notes.old) (N.faults notes.new) }
    ensures untouched { result ≡ 2 → (input.new ≡ input.old) × (out.new ≡ out.old) }
    ensures quiet { IsQuietRun result → notes.new ≡ notes.old }
    ensures unread { AsksNoRun (asked_of job.entry) → input.new ≡ input.old }
{
    match job {
        Job::Run(words) => run_accepted(alloc, words, program, accepted, input, out, notes),
        Job::Check(_) => check(alloc, &accepted.core, out),
        Job::Show(_) => show(alloc, program, out),
    }
}

/// Runs an accepted program, or notes the first form that nothing runs yet, and answers the status.
fn run_accepted<S: Source, K: Sink, N: Sink>(
    alloc: Global,
    words: RunWords<'_>,
    program: &Prog,
    accepted: &Accepted,
    input: &mut S,
    out: &mut K,
    notes: &mut N,
) -> u8
    requires { words.ticks ≤ 2 ^ 48 }
    ensures keeps { (a : Answer) → Follows (ForRun words.entry.ticks words.entry.name.now) program.now
        (built (narrow program.now accepted.now.core) accepted.now) (S.left input.old) a
        → Keeps result a
        (K.stands_for out.old) (K.stands_for out.new) (K.faults out.old) (K.faults out.new)
        (N.stands_for notes.old) (N.stands_for notes.new) }
    ensures refused { result ≡ 2 → HasFault (built (narrow program.now accepted.now.core) accepted.now) }
    ensures statuses { IsSettled result ⊎ IsBroken result }
    ensures read_fault { result ≡ 7 → Rose (S.faults input.old) (S.faults input.new) }
    ensures write_fault { result ≡ 8
        → Rose (K.faults out.old) (K.faults out.new) ⊎ Rose (N.faults notes.old) (N.faults notes.new) }
    ensures untouched { result ≡ 2 → (input.new ≡ input.old) × (out.new ≡ out.old) }
    ensures quiet { IsQuietRun result → notes.new ≡ notes.old }
{
    narrow_is_over();
    same_answers();
    match narrow_program(alloc, program, &accepted.core) {
        Ok(narrowed) => run(alloc, &narrowed, words.ticks, input, out, notes),
        Err(NarrowError::Unbuilt(at)) => refuse(words.name, &Refusal::Unbuilt(at), notes),
        Err(NarrowError::Memory) => NO_MEMORY,
    }
}

/// Puts the note on a refused text, and answers the status.
pub fn refuse<N: Sink>(name: &str, why: &Refusal, notes: &mut N) -> u8
    ensures noted { result ≡ 2
        → Grew (N.stands_for notes.old) (N.stands_for notes.new) (refusal_note name.now why.now) }
    ensures failed { result ≡ 8
        → GrewPart (refusal_note name.now why.now) (N.stands_for notes.old) (N.stands_for notes.new) }
    ensures fault { result ≡ 8 → Rose (N.faults notes.old) (N.faults notes.new) }
    ensures status { (result ≡ 2) ⊎ (result ≡ 8) }
{
    match write_refusal(name.as_bytes(), why, notes) {
        Ok(()) => REFUSED,
        Err(Failed) => WRITE_FAULT,
    }
}

/// Notes why a text is refused, unless memory ran out, and answers the status.
fn note<N: Sink>(name: &str, why: &Refusal, notes: &mut N) -> u8
    ensures noted { result ≡ 2
        → Grew (N.stands_for notes.old) (N.stands_for notes.new) (refusal_note name.now why.now) }
    ensures failed { result ≡ 8
        → GrewPart (refusal_note name.now why.now) (N.stands_for notes.old) (N.stands_for notes.new) }
    ensures fault { result ≡ 8 → Rose (N.faults notes.old) (N.faults notes.new) }
    ensures quiet { result ≡ 9 → notes.new ≡ notes.old }
    ensures verdict { (result ≡ 9) ⊎ IsVerdict (Err why.now) }
    ensures status { (result ≡ 2) ⊎ (result ≡ 8) ⊎ (result ≡ 9) }
{
    match why {
        Refusal::Memory => NO_MEMORY,
        other => refuse(name, other, notes),
    }
}

/// Puts out the report on a program, and answers the status.
fn check<K: Sink>(alloc: Global, core: &Core, out: &mut K) -> u8
    ensures written { result ≡ 0 → Grew (K.stands_for out.old) (K.stands_for out.new) (report_text core.now) }
    ensures failed { result ≡ 8 → GrewPart (report_text core.now) (K.stands_for out.old) (K.stands_for out.new) }
    ensures fault { result ≡ 8 → Rose (K.faults out.old) (K.faults out.new) }
    ensures untouched { result ≡ 9 → out.new ≡ out.old }
    ensures status { (result ≡ 0) ⊎ (result ≡ 8) ⊎ (result ≡ 9) }
{
    match report(alloc, core) {
        Ok(text) => write(&text, out),
        Err(AllocError) => NO_MEMORY,
    }
}

/// Puts out the canonical text of a program, and answers the status.
fn show<K: Sink>(alloc: Global, program: &Prog, out: &mut K) -> u8
    ensures written { result ≡ 0 → Grew (K.stands_for out.old) (K.stands_for out.new) (canonical_text program.now) }
    ensures failed { result ≡ 8 → GrewPart (canonical_text program.now) (K.stands_for out.old) (K.stands_for out.new) }
    ensures fault { result ≡ 8 → Rose (K.faults out.old) (K.faults out.new) }
    ensures untouched { result ≡ 9 → out.new ≡ out.old }
    ensures status { (result ≡ 0) ⊎ (result ≡ 8) ⊎ (result ≡ 9) }
{
    match print(alloc, program) {
        Ok(text) => write(&text, out),
        Err(AllocError) => NO_MEMORY,
    }
}

/// Puts a text out, and answers the status.
fn write<K: Sink>(text: &[u8], out: &mut K) -> u8
    ensures written { result ≡ 0 → Grew (K.stands_for out.old) (K.stands_for out.new) text.now }
    ensures failed { result ≡ 8 → GrewPart text.now (K.stands_for out.old) (K.stands_for out.new) }
    ensures fault { result ≡ 8 → Rose (K.faults out.old) (K.faults out.new) }
    ensures status { (result ≡ 0) ⊎ (result ≡ 8) }
{
    match put_in_pieces(text, out) {
        Ok(()) => DONE,
        Err(Failed) => WRITE_FAULT,
    }
}

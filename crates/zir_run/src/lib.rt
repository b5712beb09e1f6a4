//! The whole of a run: the words, the text that they name, and its program over the input and the output, the report on it, or
//! its canonical text.
#![tactic(auto)]

ghost use Rattle.std.specs.Prelude.{ℕ, List, Option, ◌≡◌, ◌≤◌, ◌^◌, ◌⊎◌, ◌↔◌, map, string_bytes};
ghost use Rattle.zir_meaning.specs.Answer.{Answer};
ghost use Rattle.zir_outside.specs.Causes.{Rose};
ghost use Rattle.zir_outside.specs.Loads.{IsAbsent};
ghost use Rattle.zir_outside.specs.Sinks.{Grew, GrewPart};
ghost use Rattle.zir_words.specs.Words.{AreBad, Asked, asked_of, name_of};
ghost use Rattle.zir_run.specs.Claim.{LacksText, Names, AsksNoRun, IsRefused, Means, MeansOf, EndsAs, IsTold, IsSettled, IsEnded, IsBroken, IsUnrun, IsQuiet, IsQuietRun};
ghost use Rattle.zir_run.specs.Keeping.{HasBudget, Keeps};
ghost use Rattle.zir_run.specs.Loading.{Has};

mod load;
mod perform;
mod run;

use load::{Unloaded, load};
use perform::{perform_text, refuse};
use std::alloc::Global;
use zir_outside::{Gate, Shelf, Sink, Source};
use zir_read::one_verdict;
use zir_tree::refusal::Refusal;
use zir_words::{Job, ask_once, read_words};

/// The status of bad words.
const BAD_WORDS: u8 = 1;
/// The status of a text that was not loaded.
const NOT_LOADED: u8 = 3;
/// The status of want of memory.
const NO_MEMORY: u8 = 9;

/// Does all that the program does. On the words `run --ticks N NAME` it loads the text NAME from the shelf, runs its program over
/// the bits of `input` with N ticks, writes the bits of its output to `out`, and puts a note on how the run ended to
/// `notes`. On the words `check NAME` it writes to `out` what the program reads, writes and is, and on `show NAME` its canonical
/// text. A text that is refused is noted with the place and the reason. It answers the status.
pub fn ziria<H: Shelf, S: Source + Send, K: Sink + Send, N: Sink, G: Gate + Sync>(
    alloc: Global,
    words: &[String],
    shelf: &mut H,
    input: &mut S,
    out: &mut K,
    notes: &mut N,
    gate: &G,
) -> u8
    // 1 comes exactly where the words are of no form.
    ensures bad_words { (result ≡ 1) ↔ AreBad (map string_bytes words.now) }
    // 3 comes only where the shelf failed, or tells its texts and has none of the name, and there always.
    ensures not_loaded { result ≡ 3
        → Rose (H.faults shelf.old) (H.faults shelf.new) ⊎ LacksText (map string_bytes words.now) (H.texts shelf.old) }
    ensures absent { LacksText (map string_bytes words.now) (H.texts shelf.old) → result ≡ 3 }
    // 2 comes only where the text is refused for what is asked.
    ensures refused { (asked : Asked) (text : List ℕ) → result ≡ 2
        → Names (map string_bytes words.now) (H.texts shelf.old) asked text
        → IsRefused asked text }
    // 0, 2, 4 and 5 come only where the definition says so, and the output and the notes grew by exactly its bytes.
    ensures ended { (a : Answer) → IsSettled result
        → Means (map string_bytes words.now) (H.texts shelf.old) (S.left input.old) a
        → EndsAs result a (K.stands_for out.old) (K.stands_for out.new)
        (N.stands_for notes.old) (N.stands_for notes.new) }
    // 7 comes only where a read failed, 8 only where a put failed, of the output or of the notes.
    ensures read_fault { result ≡ 7 → Rose (S.faults input.old) (S.faults input.new) }
    ensures write_fault { result ≡ 8
        → Rose (K.faults out.old) (K.faults out.new) ⊎ Rose (N.faults notes.old) (N.faults notes.new) }
    // At 7, 8 and 9 the output grew by a front part of the definition's bytes.
    ensures prefix { (a : Answer) → IsBroken result
        → Means (map string_bytes words.now) (H.texts shelf.old) (S.left input.old) a
        → GrewPart a.out (K.stands_for out.old) (K.stands_for out.new) }
    // At 8 without a failed put of the output it is whole.
    ensures whole { (a : Answer) → result ≡ 8
        → Means (map string_bytes words.now) (H.texts shelf.old) (S.left input.old) a
        → Rose (K.faults out.old) (K.faults out.new) ⊎ Grew (K.stands_for out.old) (K.stands_for out.new) a.out }
    // At 8 the notes grew by a front part of the definition's.
    ensures note_prefix { (a : Answer) → result ≡ 8
        → Means (map string_bytes words.now) (H.texts shelf.old) (S.left input.old) a
        → GrewPart a.notes (N.stands_for notes.old) (N.stands_for notes.new) }
    // Where nothing failed and memory was there, the status is the definition's.
    ensures complete { (a : Answer) → Means (map string_bytes words.now) (H.texts shelf.old) (S.left input.old) a
        → IsTold result a }
    // No other status comes.
    ensures status { IsUnrun result ⊎ IsEnded result ⊎ IsBroken result }
    // At 1, 2 and 3 nothing was read from the input or put on the output, and but for 0, 2, 5 and 8 no note was put.
    ensures untouched { IsUnrun result → (input.new ≡ input.old) × (out.new ≡ out.old) }
    ensures quiet { IsQuiet result → notes.new ≡ notes.old }
    // To check and to show a program nothing is read from the input.
    ensures unread { (asked : Asked) (text : List ℕ) → AsksNoRun asked
        → Names (map string_bytes words.now) (H.texts shelf.old) asked text
        → input.new ≡ input.old }
    // The texts stay.
    ensures texts { H.texts shelf.new ≡ H.texts shelf.old }
{
    ask_once();
    match read_words(words) {
        None => BAD_WORDS,
        Some(job) => perform_named(alloc, job, shelf, input, out, notes),
    }
}

/// Does what is asked of the text of a name, and answers the status.
fn perform_named<H: Shelf, S: Source, K: Sink, N: Sink>(
    alloc: Global,
    job: Job<'_>,
    shelf: &mut H,
    input: &mut S,
    out: &mut K,
    notes: &mut N,
) -> u8
    requires { HasBudget (asked_of job) }
    ensures not_loaded { result ≡ 3
        → Rose (H.faults shelf.old) (H.faults shelf.new) ⊎ IsAbsent (H.texts shelf.old) (name_of (asked_of job.entry)) }
    ensures absent { IsAbsent (H.texts shelf.old) (name_of (asked_of job.entry)) → result ≡ 3 }
    ensures refused { (text : List ℕ) → result ≡ 2 → Has (H.texts shelf.old) (name_of (asked_of job.entry)) text
        → IsRefused (asked_of job.entry) text }
    ensures keeps { (text : List ℕ) (a : Answer) → Has (H.texts shelf.old) (name_of (asked_of job.entry)) text
        → MeansOf (asked_of job.entry) text (S.left input.old) a
        → Keeps result a
        (K.stands_for out.old) (K.stands_for out.new) (K.faults out.old) (K.faults out.new)
        (N.stands_for notes.old) (N.stands_for notes.new) }
    ensures status { (result ≡ 3) ⊎ IsSettled result ⊎ IsBroken result }
    ensures read_fault { result ≡ 7 → Rose (S.faults input.old) (S.faults input.new) }
    ensures write_fault { result ≡ 8
        → Rose (K.faults out.old) (K.faults out.new) ⊎ Rose (N.faults notes.old) (N.faults notes.new) }
    ensures untouched { (result ≡ 2) ⊎ (result ≡ 3) → (input.new ≡ input.old) × (out.new ≡ out.old) }
    ensures quiet { (result ≡ 3) ⊎ IsQuietRun result → notes.new ≡ notes.old }
    ensures unread { AsksNoRun (asked_of job.entry) → input.new ≡ input.old }
    ensures texts { H.texts shelf.new ≡ H.texts shelf.old }
{
    one_verdict();
    let name = job.name();
    match load(alloc, name, shelf) {
        Ok(text) => perform_text(alloc, job, text.as_slice(), input, out, notes),
        Err(Unloaded::TooLong) => refuse(name, &Refusal::TooLong, notes),
        Err(Unloaded::NotLoaded) => NOT_LOADED,
        Err(Unloaded::Memory) => NO_MEMORY,
    }
}

#[cfg(test)]
mod tests;

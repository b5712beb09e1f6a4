//! The notes that say how a run ended and why a text is refused, and texts that go to a sink in pieces.
#![tactic(auto)]

ghost use Rattle.std.specs.Prelude.{◌≡◌, ◌+◌, ◌≤◌, ◌++◌, codes, length, OnErr, OnOk};
ghost use Rattle.arrayvec.specs.ArrayString.{array_string_len};
ghost use Rattle.zir_outside.specs.Causes.{HasCause};
ghost use Rattle.zir_outside.specs.Sinks.{Grew, GrewPart, Tells};
ghost use Rattle.zir_bit_meaning.specs.Notes.{counts_of, line_of, note_of, number_line, spelling_of};
ghost use Rattle.zir_notes.specs.Endings.{run_end_of};

mod put;
mod refused;
pub mod reports;

use arrayvec::ArrayString;
use itoa::Buffer;
pub use put::put_in_pieces;
pub use refused::write_refusal;
use zir_bit_tree::value::Val;
use zir_outside::{Failed, Sink};

/// How a run ended that has a note.
#[derive(Clone, Copy, Debug)]
pub enum Ending {
    /// With the control value of its program.
    Value(Val),
    /// With the end of its input.
    Input,
    /// With its budget of ticks used up.
    Spent,
}

/// Room for a note, the longest of which has 68 bytes.
const ROOM: usize = 128;

type Note = ArrayString<ROOM>;

/// Puts the note on how a run ended, in one piece. `ticks` is the budget of the run, and `taken` and `written` count
/// the elements of its input and its output. After `Failed` a front part of the note may have been put.
pub fn write_end<N: Sink>(
    end: &Ending,
    ticks: u64,
    taken: u64,
    written: u64,
    notes: &mut N,
) -> Result<(), Failed>
    ensures ok { OnOk result (Grew (N.stands_for notes.old) (N.stands_for notes.new) (note_of (run_end_of end.now) ticks taken written)) }
    ensures failed { OnErr result (GrewPart (note_of (run_end_of end.now) ticks taken written) (N.stands_for notes.old) (N.stands_for notes.new)) }
    ensures untold { Tells (N.stands_for notes.new) → Tells (N.stands_for notes.old) }
    ensures cause { HasCause (N.faults notes.old) (N.faults notes.new) result }
{
    let note = end_note(end, ticks, taken, written);
    notes.put(note.as_bytes())
}

fn end_note(end: &Ending, ticks: u64, taken: u64, written: u64) -> Note
    ensures { result.bytes ≡ note_of (run_end_of end.now) ticks taken written }
{
    match end {
        Ending::Value(value) => value_note(*value, taken, written),
        Ending::Input => input_note(taken, written),
        Ending::Spent => spent_note(ticks, written),
    }
}

fn value_note(value: Val, taken: u64, written: u64) -> Note
    ensures { result.bytes ≡ line_of (codes "ended " ++ spelling_of value) ++ counts_of taken written }
{
    let mut note = Note::new();
    note.push_str("ended ");
    note.push_str(spelling(value));
    note.push_str("\n");
    push_counts(&mut note, taken, written);
    note
}

fn input_note(taken: u64, written: u64) -> Note
    ensures { result.bytes ≡ line_of (codes "input ended") ++ counts_of taken written }
{
    let mut note = Note::new();
    note.push_str("input ended\n");
    push_counts(&mut note, taken, written);
    note
}

fn spent_note(ticks: u64, written: u64) -> Note
    ensures { result.bytes ≡ number_line (codes "out of ticks ") ticks ++ number_line (codes "written ") written }
{
    let mut note = Note::new();
    push_line(&mut note, "out of ticks ", ticks);
    push_line(&mut note, "written ", written);
    note
}

fn push_counts(note: &mut Note, taken: u64, written: u64)
    requires { array_string_len note.old + 64 ≤ ROOM }
    ensures { note.new.bytes ≡ note.old.bytes ++ counts_of taken written }
{
    push_line(note, "taken ", taken);
    push_line(note, "written ", written);
}

fn push_line(note: &mut Note, words: &str, number: u64)
    requires { array_string_len note.old + length words.now + 21 ≤ ROOM }
    ensures line { note.new.bytes ≡ note.old.bytes ++ number_line words.now number }
    ensures short { array_string_len note.new ≤ array_string_len note.old + length words.now + 21 }
{
    let mut digits = Buffer::new();
    note.push_str(words);
    note.push_str(digits.format(number));
    note.push_str("\n");
}

fn spelling(value: Val) -> &'static str
    ensures spelling { result.now ≡ spelling_of value }
    ensures short { length result.now ≤ 2 }
{
    match value {
        Val::Unit => "()",
        Val::Bit(false) => "'0",
        Val::Bit(true) => "'1",
    }
}

#[cfg(test)]
mod tests {
    use super::*;
    use std::test::Fail;
    use zir_outside::memory::MemSink;

    #[test]
    fn a_fault_is_answered_once(rt: HostRuntime) -> Result<(), Fail> {
        let failing = vec![in rt.alloc(); 1]?;
        let mut notes = MemSink::new(rt.alloc(), 200, failing)?;
        let value = Ending::Value(Val::Bit(false));
        assert_eq!(rt; write_end(&value, 9, 2, 1, &mut notes), Err(Failed));
        assert_eq!(rt; notes.bytes(), b"".as_slice());
        assert_eq!(rt; write_end(&value, 9, 2, 1, &mut notes), Ok(()));
        assert_eq!(rt; notes.bytes(), b"ended '0\ntaken 2\nwritten 1\n".as_slice());
        Ok(())
    }

    #[test]
    fn there_is_room_for_the_longest_note(rt: HostRuntime) -> Result<(), Fail> {
        let mut notes = MemSink::new(rt.alloc(), 200, Vec::new(rt.alloc()))?;
        let put = write_end(&Ending::Input, 1, u64::MAX, u64::MAX, &mut notes);
        assert_eq!(rt; put, Ok(()));
        assert_eq!(rt; notes.bytes().len(), 68);
        Ok(())
    }
}

// The words and numbers of the notes.

ghost use Rattle.std.specs.Prelude.{◌≡◌, ◌+◌, ◌≤◌, ◌++◌, codes, decimal, length};
ghost use Rattle.std.specs.Fmt.{signed_decimal};
ghost use Rattle.zir_end_notes.specs.Parts.{pair_words};
ghost use Rattle.arrayvec.specs.ArrayString.{array_string_len};
ghost use Rattle.zir_meaning.specs.Notes.{bit_text, counts_of, input_note, malformed_note, number_line, place_text, spent_note, truth_text};

use arrayvec::ArrayString;
use itoa::Buffer;
use zir_tree::place::Place;

/// Room for the words and numbers of a note, of which the longest has 100 bytes.
const ROOM: usize = 128;

pub type Text = ArrayString<ROOM>;

/// What stands behind the value in the note on a run that ended with one.
pub fn counts_text(taken: u64, written: u64) -> Text
    ensures { result.bytes ≡ codes "\n" ++ counts_of taken written }
{
    let mut text = Text::new();
    text.push_str("\n");
    push_counts(&mut text, taken, written);
    text
}

/// A bit as a program spells it.
pub fn bit_words(bit: bool) -> &'static str
    ensures { result.now ≡ bit_text bit }
{
    if bit { "'1" } else { "'0" }
}

/// A truth value as a program spells it.
pub fn truth_words(truth: bool) -> &'static str
    ensures { result.now ≡ truth_text truth }
{
    if truth { "true" } else { "false" }
}

/// A whole number.
pub fn signed_text(number: i64) -> Text
    ensures { result.bytes ≡ signed_decimal number }
{
    let mut text = Text::new();
    push_signed(&mut text, number);
    text
}

/// A complex number.
pub fn pair_text(re: i32, im: i32) -> Text
    ensures { result.bytes ≡ pair_words re im }
{
    let mut text = Text::new();
    push_pair(&mut text, i64::from(re), i64::from(im));
    text
}

/// Adds a complex number.
fn push_pair(text: &mut Text, re: i64, im: i64)
    requires { array_string_len text.old + 43 ≤ ROOM }
    ensures { text.new.bytes ≡ text.old.bytes ++ pair_words re im }
{
    text.push_str("(");
    push_signed(text, re);
    text.push_str(",");
    push_signed(text, im);
    text.push_str(")");
}

/// Adds a whole number.
fn push_signed(text: &mut Text, number: i64)
    requires { array_string_len text.old + 20 ≤ ROOM }
    ensures bytes { text.new.bytes ≡ text.old.bytes ++ signed_decimal number }
    ensures short { array_string_len text.new ≤ array_string_len text.old + 20 }
{
    let mut digits = Buffer::new();
    text.push_str(digits.format(number));
}

/// The note on a run that ended with its input.
pub fn input_text(taken: u64, written: u64) -> Text
    ensures { result.bytes ≡ input_note taken written }
{
    let mut text = Text::new();
    text.push_str("input ended\n");
    push_counts(&mut text, taken, written);
    text
}

/// The note on a run whose budget of so many ticks was spent.
pub fn spent_text(ticks: u64, written: u64) -> Text
    ensures { result.bytes ≡ spent_note ticks written }
{
    let mut text = Text::new();
    push_line(&mut text, "out of ticks ", ticks);
    push_line(&mut text, "written ", written);
    text
}

/// The note on a run that needed an element where malformed input stands.
pub fn malformed_text(at: u64, taken: u64, written: u64) -> Text
    ensures { result.bytes ≡ malformed_note at taken written }
{
    let mut text = Text::new();
    push_line(&mut text, "malformed input at ", at);
    push_counts(&mut text, taken, written);
    text
}

/// What stands before the program's name in the note on a trap.
pub fn trap_front(code: u8) -> Text
    ensures { result.bytes ≡ codes "trap " ++ decimal code ++ codes " in " }
{
    let mut text = Text::new();
    text.push_str("trap ");
    push_number(&mut text, u64::from(code));
    text.push_str(" in ");
    text
}

/// What stands behind the program's name in the note on a trap.
pub fn trap_back(at: Place, taken: u64, written: u64) -> Text
    ensures { result.bytes ≡ codes " at " ++ place_text at ++ codes "\n" ++ counts_of taken written }
{
    let mut text = Text::new();
    text.push_str(" at ");
    push_place(&mut text, at);
    text.push_str("\n");
    push_counts(&mut text, taken, written);
    text
}

/// Adds a place: its line before its column.
fn push_place(text: &mut Text, at: Place)
    requires { array_string_len text.old + 41 ≤ ROOM }
    ensures bytes { text.new.bytes ≡ text.old.bytes ++ place_text at }
    ensures short { array_string_len text.new ≤ array_string_len text.old + 41 }
{
    push_number(text, u64::from(at.line));
    text.push_str(":");
    push_number(text, u64::from(at.col));
}

/// Adds the lines on how many elements were taken and written.
fn push_counts(text: &mut Text, taken: u64, written: u64)
    requires { array_string_len text.old + 64 ≤ ROOM }
    ensures { text.new.bytes ≡ text.old.bytes ++ counts_of taken written }
{
    push_line(text, "taken ", taken);
    push_line(text, "written ", written);
}

/// Adds a line of words and a number.
fn push_line(text: &mut Text, words: &str, number: u64)
    requires { array_string_len text.old + length words.now + 21 ≤ ROOM }
    ensures line { text.new.bytes ≡ text.old.bytes ++ number_line words.now number }
    ensures short { array_string_len text.new ≤ array_string_len text.old + length words.now + 21 }
{
    text.push_str(words);
    push_number(text, number);
    text.push_str("\n");
}

/// Adds a number.
fn push_number(text: &mut Text, number: u64)
    requires { array_string_len text.old + 20 ≤ ROOM }
    ensures bytes { text.new.bytes ≡ text.old.bytes ++ decimal number }
    ensures short { array_string_len text.new ≤ array_string_len text.old + 20 }
{
    let mut digits = Buffer::new();
    text.push_str(digits.format(number));
}

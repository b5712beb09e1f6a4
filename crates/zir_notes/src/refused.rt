// The note on a text that is refused.

ghost use Rattle.std.specs.Prelude.{◌≡◌, ◌+◌, ◌≤◌, ◌++◌, ◌⊎◌, codes, decimal, length, OnErr, OnOk};
ghost use Rattle.arrayvec.specs.ArrayString.{array_string_len};
ghost use Rattle.zir_outside.specs.Causes.{HasCause};
ghost use Rattle.zir_outside.specs.Sinks.{Grew, GrewPart, Tells};
ghost use Rattle.zir_notes.specs.Refusals.{NamesVariable, head_of, limit_words, refusal_note, refusal_place, refusal_words};

use crate::put::put_two;
use arrayvec::ArrayString;
use itoa::Buffer;
use zir_outside::{Failed, Sink};
use zir_tree::place::Place;
use zir_tree::refusal::{LimitKind, Refusal};

/// Room for what stands between a text's name and the variable of a refusal: a place and at most 30 bytes of words.
const ROOM: usize = 64;

type Head = ArrayString<ROOM>;

/// The words of a refusal: those before the name of a variable, that name, and those behind it.
#[derive(Clone, Copy, Debug)]
struct Words<'a> {
    before: &'static str,
    variable: &'a [u8],
    behind: &'static str,
}

/// Puts the note on the text of this name: the name, the place and why the text is refused there.
pub fn write_refusal<N: Sink>(name: &[u8], why: &Refusal, notes: &mut N) -> Result<(), Failed>
    ensures ok { OnOk result (Grew (N.stands_for notes.old) (N.stands_for notes.new) (refusal_note name.now why.now)) }
    ensures failed { OnErr result (GrewPart (refusal_note name.now why.now) (N.stands_for notes.old) (N.stands_for notes.new)) }
    ensures untold { Tells (N.stands_for notes.new) → Tells (N.stands_for notes.old) }
    ensures cause { HasCause (N.faults notes.old) (N.faults notes.new) result }
{
    let words = words_of(why);
    let head = head(place_of(why), words.before);
    put_two(name, head.as_bytes(), notes)?;
    put_two(words.variable, words.behind.as_bytes(), notes)
}

/// What stands behind the name: the place and the first words.
fn head(place: Option<Place>, before: &str) -> Head
    requires { length before.now ≤ 30 }
    ensures { result.bytes ≡ head_of place ++ before.now }
{
    let mut head = Head::new();
    if let Some(at) = place {
        push_number(&mut head, at.line);
        push_number(&mut head, at.col);
    }
    head.push_str(": ");
    head.push_str(before);
    head
}

fn push_number(head: &mut Head, number: u32)
    requires { array_string_len head.old ≤ 11 }
    ensures bytes { head.new.bytes ≡ head.old.bytes ++ codes ":" ++ decimal number }
    ensures short { array_string_len head.new ≤ array_string_len head.old + 11 }
{
    let mut digits = Buffer::new();
    head.push_str(":");
    head.push_str(digits.format(number));
}

/// The place of a refusal, where it has one.
fn place_of(why: &Refusal) -> Option<Place>
    ensures { result ≡ refusal_place why.now }
{
    match why {
        Refusal::TooLong | Refusal::Memory => None,
        Refusal::BadByte(at)
        | Refusal::BadNumber(at)
        | Refusal::Syntax(at)
        | Refusal::TooDeep(at)
        | Refusal::Unknown(at)
        | Refusal::Twice(at)
        | Refusal::Recursive(at)
        | Refusal::Mismatch(at)
        | Refusal::TwoComputers(at)
        | Refusal::NotUnit(at)
        | Refusal::NotComputer(at)
        | Refusal::NotStreamType(at)
        | Refusal::Shared(_, at)
        | Refusal::SplitPlace(at)
        | Refusal::OuterAssign(_, at)
        | Refusal::Limit(_, at)
        | Refusal::Unbuilt(at) => Some(*at),
    }
}

/// The words of a refusal, and the newline.
fn words_of(why: &Refusal) -> Words<'_>
    ensures words { result.before.now ++ (result.variable.now ++ result.behind.now) ≡ refusal_words why.now ++ codes "\n" }
    ensures short { length result.before.now ≤ 30 }
{
    match why {
        Refusal::Shared(x, _) => Words {
            before: "shared variable ",
            variable: x.as_slice(),
            behind: "\n",
        },
        Refusal::OuterAssign(x, _) => Words {
            before: "outer variable ",
            variable: x.as_slice(),
            behind: " assigned before the last stage\n",
        },
        other => Words {
            before: plain_words(other),
            variable: b"",
            behind: "\n",
        },
    }
}

/// The words of a refusal that names no variable.
fn plain_words(why: &Refusal) -> &'static str
    ensures words { NamesVariable why.now ⊎ (result.now ≡ refusal_words why.now) }
    ensures short { length result.now ≤ 30 }
{
    match why {
        Refusal::TooLong => "too long",
        Refusal::BadByte(_) => "bad byte",
        Refusal::BadNumber(_) => "bad number",
        Refusal::Syntax(_) => "syntax",
        Refusal::TooDeep(_) => "too deep",
        Refusal::Unknown(_) => "no such name here",
        Refusal::Twice(_) => "declared twice",
        Refusal::Recursive(_) => "recursive",
        Refusal::Mismatch(_) => "types differ",
        Refusal::TwoComputers(_) => "two computers",
        Refusal::NotUnit(_) => "not a unit computer",
        Refusal::NotComputer(_) => "not a computer",
        Refusal::NotStreamType(_) => "not a stream type",
        Refusal::SplitPlace(_) => "split not on the spine",
        Refusal::Limit(kind, _) => limit_name(*kind),
        Refusal::Unbuilt(_) => "not built yet",
        Refusal::Memory => "out of memory",
        Refusal::Shared(_, _) | Refusal::OuterAssign(_, _) => "",
    }
}

/// The words of a limit that is passed.
fn limit_name(kind: LimitKind) -> &'static str
    ensures words { result.now ≡ limit_words kind }
    ensures short { length result.now ≤ 30 }
{
    match kind {
        LimitKind::Length => "limit length",
        LimitKind::Cells => "limit cells",
        LimitKind::Element => "limit element",
        LimitKind::Depth => "limit depth",
        LimitKind::Need => "limit need",
        LimitKind::Stages => "limit stages",
        LimitKind::Instances => "limit instances",
    }
}

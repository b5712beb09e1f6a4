// The texts of values.

ghost use Rattle.std.specs.Prelude.{◌≡◌, ℕ, [], ◌∷◌, List, MatchOption, None, OnErr, OnOk, Some};
ghost use Rattle.zir_outside.specs.Causes.{HasCause};
ghost use Rattle.zir_outside.specs.Sinks.{Tells};
ghost use Rattle.zir_end_notes.specs.Parts.{comma_before, field_at, framed, Frames, kind_at, texts_from};
ghost use Rattle.zir_end_notes.specs.Pieces.{Adds, AddsPart};
ghost use Rattle.zir_tree.specs.declared.types.StructDef.{StructDef};
ghost use Rattle.zir_meaning.specs.Notes.{struct_of, value_text, with_commas};

use crate::pieces::{Held, add};
use crate::texts::{bit_words, pair_text, signed_text, truth_words};
use zir_outside::{Failed, Sink};
use zir_tree::types::{Base, FieldDef, StructDef, Ty};
use zir_tree::value::Val;

/// A type: the lengths of its arrays, the outermost first, and what the innermost holds.
#[derive(Clone, Copy, Debug)]
pub struct Kind<'a> {
    pub lengths: &'a [u64],
    pub base: Base,
}

/// The types of the parts of a value.
#[derive(Clone, Copy, Debug)]
enum PartKinds<'a> {
    /// Elements of an array, all of one type.
    Elements(Kind<'a>),
    /// The fields of a struct.
    Fields(&'a [FieldDef]),
}

/// What stands round the parts of a value, and their types.
#[derive(Clone, Copy, Debug)]
struct Frame<'a> {
    name: &'a [u8],
    before: &'static str,
    kinds: PartKinds<'a>,
    behind: &'static str,
}

/// The type of the part at a place.
fn part_kind(kinds: PartKinds<'_>, place: usize) -> Option<Kind<'_>>
    ensures { MatchOption result (kind_at kinds.entry place ≡ None) (λ kind. kind_at kinds.entry place ≡ Some (kind.lengths.now, kind.base)) }
{
    match kinds {
        PartKinds::Elements(kind) => Some(kind),
        PartKinds::Fields(fields) => field_kind(fields, place),
    }
}

/// The type of the field at a place.
fn field_kind(fields: &[FieldDef], place: usize) -> Option<Kind<'_>>
    ensures { MatchOption result (field_at fields.now place ≡ None) (λ kind. field_at fields.now place ≡ Some (kind.lengths.now, kind.base)) }
{
    match fields.get(place) {
        Some(field) => Some(kind_of(&field.ty)),
        None => None,
    }
}

/// The parts of a type.
pub fn kind_of(ty: &Ty) -> Kind<'_>
    ensures lengths { result.lengths.now ≡ ty.now.lengths }
    ensures base { result.base ≡ ty.now.base }
{
    Kind {
        lengths: ty.lengths.as_slice(),
        base: ty.base,
    }
}

/// The name and the fields of the struct of a type, and neither where it is of none.
fn name_and_fields(structs: &[StructDef], base: Base) -> (&[u8], &[FieldDef])
    ensures name { result.0.now ≡ (struct_of structs.now base).name }
    ensures fields { result.1.now ≡ (struct_of structs.now base).fields }
{
    match base {
        Base::Struct(place) => match structs.get(place as usize) {
            Some(def) => (def.name.as_slice(), def.fields.as_slice()),
            None => (&[], &[]),
        },
        _ => (&[], &[]),
    }
}

/// What stands round the parts of a value that is an array or a struct.
fn frame_of<'a>(structs: &'a [StructDef], kind: Kind<'a>) -> Frame<'a>
    ensures { Frames structs.now kind.entry.lengths.now kind.entry.base result }
{
    match kind.lengths.split_first() {
        Some((_, inner)) => array_frame(inner, kind.base),
        None => struct_frame(structs, kind.base),
    }
}

/// What stands round the elements of an array, by their type.
fn array_frame(lengths: &[u64], base: Base) -> Frame<'_>
    ensures { (structs : List StructDef) → (n : ℕ) → Frames structs (n ∷ lengths.now) base result }
{
    Frame {
        name: b"",
        before: "{",
        kinds: PartKinds::Elements(Kind { lengths, base }),
        behind: "}",
    }
}

/// What stands round the fields of a struct.
fn struct_frame(structs: &[StructDef], base: Base) -> Frame<'_>
    ensures { Frames structs.now [] base result }
{
    let (name, fields) = name_and_fields(structs, base);
    Frame {
        name,
        before: "(",
        kinds: PartKinds::Fields(fields),
        behind: ")",
    }
}

/// Adds the text of a value.
#[cycle(value)]
pub fn add_value<N: Sink>(
    value: &Val,
    structs: &[StructDef],
    kind: Kind<'_>,
    held: &mut Held,
    notes: &mut N,
) -> Result<(), Failed>
    ensures ok { OnOk result (Adds (N.stands_for notes.old) (N.stands_for notes.new) held.old.items held.new.items (value_text structs.now kind.entry.lengths.now kind.entry.base value.now)) }
    ensures failed { OnErr result (AddsPart (N.stands_for notes.old) (N.stands_for notes.new) held.old.items (value_text structs.now kind.entry.lengths.now kind.entry.base value.now)) }
    ensures untold { Tells (N.stands_for notes.new) → Tells (N.stands_for notes.old) }
    ensures cause { HasCause (N.faults notes.old) (N.faults notes.new) result }
{
    match value {
        Val::Unit => add(b"()", held, notes),
        Val::Bit(bit) => add(bit_words(*bit).as_bytes(), held, notes),
        Val::Bool(truth) => add(truth_words(*truth).as_bytes(), held, notes),
        Val::Num(number) => add(signed_text(*number).as_bytes(), held, notes),
        Val::Pair(re, im) => add(pair_text(*re, *im).as_bytes(), held, notes),
        Val::List(parts) => add_framed(
            parts.as_slice(),
            structs,
            frame_of(structs, kind),
            held,
            notes,
        ),
    }
}

/// Adds the texts of parts with a comma between each two, and what stands round them.
#[cycle(value)]
fn add_framed<N: Sink>(
    parts: &[Val],
    structs: &[StructDef],
    frame: Frame<'_>,
    held: &mut Held,
    notes: &mut N,
) -> Result<(), Failed>
    ensures ok { OnOk result (Adds (N.stands_for notes.old) (N.stands_for notes.new) held.old.items held.new.items (framed structs.now frame.entry parts.now)) }
    ensures failed { OnErr result (AddsPart (N.stands_for notes.old) (N.stands_for notes.new) held.old.items (framed structs.now frame.entry parts.now)) }
    ensures untold { Tells (N.stands_for notes.new) → Tells (N.stands_for notes.old) }
    ensures cause { HasCause (N.faults notes.old) (N.faults notes.new) result }
{
    add(frame.name, held, notes)?;
    add(frame.before.as_bytes(), held, notes)?;
    add_parts(parts, structs, frame.kinds, held, notes)?;
    add(frame.behind.as_bytes(), held, notes)
}

/// Adds the texts of parts with a comma between each two.
#[cycle(value)]
fn add_parts<N: Sink>(
    parts: &[Val],
    structs: &[StructDef],
    kinds: PartKinds<'_>,
    held: &mut Held,
    notes: &mut N,
) -> Result<(), Failed>
    ensures ok { OnOk result (Adds (N.stands_for notes.old) (N.stands_for notes.new) held.old.items held.new.items (with_commas (texts_from structs.now kinds.entry 0 parts.now))) }
    ensures failed { OnErr result (AddsPart (N.stands_for notes.old) (N.stands_for notes.new) held.old.items (with_commas (texts_from structs.now kinds.entry 0 parts.now))) }
    ensures untold { Tells (N.stands_for notes.new) → Tells (N.stands_for notes.old) }
    ensures cause { HasCause (N.faults notes.old) (N.faults notes.new) result }
{
    for (place, part) in parts.iter().enumerate() {
        let Some(kind) = part_kind(kinds, place) else {
            return Ok(());
        };
        add(comma(place).as_bytes(), held, notes)?;
        add_value(part, structs, kind, held, notes)?;
    }
    Ok(())
}

/// The comma before a part, which the first has not.
fn comma(place: usize) -> &'static str
    ensures { result.now ≡ comma_before place }
{
    if place == 0 { "" } else { "," }
}

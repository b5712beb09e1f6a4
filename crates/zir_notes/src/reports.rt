// The report on an accepted program.

ghost use Rattle.std.specs.Prelude.{◌≡◌, ◌++◌, IfOk, OnOk, codes, decimal};
ghost use Rattle.zir_notes.specs.Reports.{base_words, kind_words, report_text, struct_words, type_words};

use itoa::Buffer;
use std::alloc::{AllocError, Global};
use zir_tree::program::Core;
use zir_tree::types::{Base, StructDef, Ty};

/// The report on a program: the lines `in T` and `out T` with the types that it reads and writes, and `transformer`, or
/// `computer V` with the type of its value.
pub fn report(alloc: Global, core: &Core) -> Result<Vec<u8>, AllocError>
    ensures { IfOk result (λ text. text.items ≡ report_text core.now) }
{
    let structs = core.structs.as_slice();
    let mut text = Vec::new(alloc);
    add(&mut text, b"in ")?;
    add_type(&mut text, structs, &core.input)?;
    add(&mut text, b"\nout ")?;
    add_type(&mut text, structs, &core.output)?;
    add(&mut text, b"\n")?;
    add_kind(&mut text, structs, &core.value)?;
    add(&mut text, b"\n")?;
    Ok(text)
}

/// The text grows by these bytes.
fn add(text: &mut Vec<u8>, bytes: &[u8]) -> Result<(), AllocError>
    ensures { OnOk result (text.new.items ≡ text.old.items ++ bytes.now) }
{
    text.extend_from_slice(bytes)?;
    Ok(())
}

/// What a component is, by the type of its value.
fn add_kind(text: &mut Vec<u8>, structs: &[StructDef], value: &Option<Ty>) -> Result<(), AllocError>
    ensures { OnOk result (text.new.items ≡ text.old.items ++ kind_words structs.now value.now) }
{
    match value {
        None => add(text, b"transformer"),
        Some(ty) => {
            add(text, b"computer ")?;
            add_type(text, structs, ty)
        }
    }
}

/// A type as a program spells it.
fn add_type(text: &mut Vec<u8>, structs: &[StructDef], ty: &Ty) -> Result<(), AllocError>
    ensures { OnOk result (text.new.items ≡ text.old.items ++ type_words structs.now ty.now.lengths ty.now.base) }
{
    for length in ty.lengths.as_slice() {
        add_array(text, *length)?;
    }
    add(text, base_name(structs, ty.base))
}

/// The word and the length of an array.
fn add_array(text: &mut Vec<u8>, length: u64) -> Result<(), AllocError>
    ensures { OnOk result (text.new.items ≡ text.old.items ++ (codes "arr[" ++ (decimal length ++ codes "] "))) }
{
    let mut digits = Buffer::new();
    add(text, b"arr[")?;
    add(text, digits.format(length).as_bytes())?;
    add(text, b"] ")
}

/// A type that is no array.
fn base_name(structs: &[StructDef], base: Base) -> &[u8]
    ensures { result.now ≡ base_words structs.now base }
{
    match base {
        Base::Unit => b"()",
        Base::Bit => b"bit",
        Base::Bool => b"bool",
        Base::Int8 => b"int8",
        Base::Int16 => b"int16",
        Base::Int32 => b"int32",
        Base::Int64 => b"int64",
        Base::Complex16 => b"complex16",
        Base::Complex32 => b"complex32",
        Base::Struct(number) => struct_name(structs, number),
    }
}

/// The name of the struct of this number, and no bytes where there is none.
fn struct_name(structs: &[StructDef], number: u32) -> &[u8]
    ensures { result.now ≡ struct_words structs.now number }
{
    match structs.get(number as usize) {
        Some(found) => found.name.as_slice(),
        None => b"",
    }
}

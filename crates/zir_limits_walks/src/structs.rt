// The structs of a program with their cells.

ghost use Rattle.std.specs.Prelude.{◌≡◌, ◌+◌, ◌∷◌, [], List, drop, IfOk};
ghost use Rattle.zir_tree.specs.declared.program.Decl.{Decl};
ghost use Rattle.zir_types.specs.Scope.{Visible, capped, all_cells, field_types};
ghost use Rattle.zir_types.specs.Known.{shapes_in};
ghost use Rattle.zir_types.specs.Limits.{in_structs, in_struct_fields};
ghost use Rattle.zir_limits.specs.Notes.{noted};

use sqlite_items::Items;
use std::alloc::{AllocError, Global};
use zir_limits::cells::cells;
use zir_limits::notes::Notes;
use zir_tree::name::Name;
use zir_tree::program::Decl;
use zir_tree::types::{Field, FieldDef, StructDef};
use zir_types::kinds::copy;
use zir_types::scope::Shape;

/// The cells of a struct's fields together, with 65,537 for every greater number.
fn struct_cells(shapes: &[Shape], fields: &[FieldDef]) -> u32
    ensures { result ≡ all_cells shapes.now (field_types fields.now) }
{
    let mut sum: u32 = 0;
    for i in (0..fields.len()).rev() {
        sum = with_field(cells(shapes, &fields[i].ty), sum);
    }
    sum
}

/// The cells of one field more, with 65,537 for every greater number.
fn with_field(field: u64, sum: u32) -> u32
    ensures { result ≡ capped (field + sum) }
{
    field.saturating_add(u64::from(sum)).min(65537) as u32
}

/// A copy of the fields of a struct.
fn copy_fields(alloc: Global, fields: &[FieldDef]) -> Result<Items<FieldDef>, AllocError>
    ensures { IfOk result (λ copies. copies ≡ fields.now) }
{
    let mut copies = Items::new(alloc);
    for field in fields {
        let name = Name::from_slice(alloc, field.name.as_slice())?;
        let ty = copy(alloc, &field.ty)?;
        copies.push(FieldDef { name, ty })?;
    }
    Ok(copies)
}

/// A struct with its cells.
fn shape(alloc: Global, before: &[Shape], def: &StructDef) -> Result<Shape, AllocError>
    ensures { IfOk result (λ shape.
        shape ≡ record { id = 0; def = def.now; cells = all_cells before.now (field_types def.now.fields) }) }
{
    let name = Name::from_slice(alloc, def.name.as_slice())?;
    let fields = copy_fields(alloc, def.fields.as_slice())?;
    let cells = struct_cells(before, def.fields.as_slice());
    Ok(Shape {
        id: 0,
        def: StructDef { name, fields },
        cells,
    })
}

/// Structs with their cells.
pub fn shapes(alloc: Global, structs: &[StructDef]) -> Result<Vec<Shape>, AllocError>
    ensures { IfOk result (λ shapes. shapes.items ≡ shapes_in [] structs.now) }
{
    let mut shapes = Vec::new(alloc);
    for def in structs {
        let next = shape(alloc, shapes.as_slice(), def)?;
        shapes.push(next)?;
    }
    Ok(shapes)
}

/// The lengths of the fields of a struct.
fn note_lengths(notes: &mut Notes, fields: &[Field])
    ensures { notes.new ≡ noted (in_struct_fields fields.now) notes.old }
{
    for field in fields {
        notes.dimensions(field.ty.dimensions.as_slice());
    }
}

/// A declaration, where it is a struct, whose cells are those of the shape at this place; the place of the next struct.
fn note_declaration(notes: &mut Notes, shapes: &[Shape], place: usize, d: &Decl) -> usize
    ensures { (g : Visible) (ds : List Decl) →
        noted (in_structs g (d.now ∷ ds) (drop place shapes.now)) notes.old
        ≡ noted (in_structs g ds (drop result shapes.now)) notes.new }
{
    match d {
        Decl::Var(_) => place,
        Decl::Struct(s) => {
            if place < shapes.len() {
                notes.holds(u64::from(shapes[place].cells), s.at);
                note_lengths(notes, s.fields.as_slice());
                place + 1
            } else {
                place
            }
        }
        Decl::Function(_) => place,
        Decl::Comp(_) => place,
    }
}

/// The structs of a program.
pub fn note_structs(notes: &mut Notes, shapes: &[Shape], ds: &[Decl])
    ensures { (g : Visible) → notes.new ≡ noted (in_structs g ds.now shapes.now) notes.old }
{
    let mut place = 0;
    for d in ds {
        place = note_declaration(notes, shapes, place, d);
    }
}

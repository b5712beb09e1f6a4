// The structs of a program, and the cells of their types.

ghost use Rattle.std.specs.Prelude.{◌≡◌, sum_by, take, slice_get, IfOk};
ghost use Rattle.std.specs.Option.{option_copied};
ghost use Rattle.zir_cells.specs.Layout.{capped, cells_in, layout_of};
ghost use Rattle.zir_code.specs.Types as types;
ghost use Rattle.zir_shapes.specs.Offsets.{fields_of, field_type, field_offset};
ghost use Rattle.zir_compile.specs.Extents.{type_at};

use crate::extent::Extent;
use sqlite_items::Items;
use std::alloc::{AllocError, Global};
use std::marker::Model;
use zir_cells::layout::Layouts;
use zir_tree::name::Name;
use zir_tree::types::{Base, FieldDef, StructDef, Ty};

/// The structs of a program with their cells. Numbers of cells above 2^64 - 1 count as that.
#[derive(Drop)]
pub struct Structs {
    definitions: Items<StructDef>,
    layouts: Layouts,
}

impl Model for Structs {
    ghost use Rattle.std.specs.Prelude.{◌≡◌, List};
    ghost use Rattle.zir_tree.specs.declared.types.Ty.{Ty};
    ghost use Rattle.zir_tree.specs.declared.types.StructDef.{StructDef};
    ghost use Rattle.zir_cells.specs.Layout.{capped, cells_in, layout_of};

    ghost Value = { List StructDef };

    ghost view = { λ structs. structs.definitions };

    ghost invariant = { λ structs. (ty : Ty) →
        capped (cells_in structs.layouts ty) ≡ capped (layout_of structs.definitions ty) };
}

/// The same type as another.
pub fn copy_type(alloc: Global, ty: &Ty) -> Result<Ty, AllocError>
    ensures { IfOk result (λ made. made ≡ ty.now) }
{
    let lengths = Items::from_slice(alloc, ty.lengths.as_slice())?;
    let base = ty.base;
    Ok(Ty { lengths, base })
}

/// The same struct as another.
fn copy_struct(alloc: Global, definition: &StructDef) -> Result<StructDef, AllocError>
    ensures { IfOk result (λ made. made ≡ definition.now) }
{
    let name = Name::from_slice(alloc, definition.name.as_slice())?;
    let mut fields = Items::new(alloc);
    for field in definition.fields.as_slice() {
        let name = Name::from_slice(alloc, field.name.as_slice())?;
        let ty = copy_type(alloc, &field.ty)?;
        fields.push(FieldDef { name, ty })?;
    }
    Ok(StructDef { name, fields })
}

/// The same structs as others.
fn copy_structs(alloc: Global, structs: &[StructDef]) -> Result<Items<StructDef>, AllocError>
    ensures { IfOk result (λ made. made ≡ structs.now) }
{
    let mut definitions = Items::new(alloc);
    for definition in structs {
        let made = copy_struct(alloc, definition)?;
        definitions.push(made)?;
    }
    Ok(definitions)
}

/// The cells of fields together.
fn cells_of_fields(layouts: &Layouts, fields: &[FieldDef]) -> u64
    ensures { result ≡ capped (sum_by (λ field. cells_in layouts.now field.ty) fields.now) }
{
    let mut total = 0;
    for field in fields {
        total = layouts.cells(&field.ty).saturating_add(total);
    }
    total
}

impl Structs {
    /// These structs, each of which has fields of structs before it alone.
    pub fn of(alloc: Global, structs: &[StructDef]) -> Result<Structs, AllocError>
        ensures { IfOk result (λ made. made ≡ structs.now) }
    {
        let definitions = copy_structs(alloc, structs)?;
        let layouts = Layouts::of_structs(alloc, definitions.as_slice())?;
        Ok(Structs {
            definitions,
            layouts,
        })
    }

    /// The cells of a type.
    pub fn cells(&self, ty: &Ty) -> u64
        ensures { result ≡ capped (layout_of self.now ty.now) }
    {
        self.layouts.cells(ty)
    }

    /// The same of a type as it is found.
    pub fn cells_at(&self, ty: &Extent) -> u64
        ensures { result ≡ capped (layout_of self.now (type_at ty.now)) }
    {
        self.layouts.cells(&ty.inside_out)
    }

    /// The fields of the struct at this place, and none where there is no such struct.
    fn fields(&self, j: u32) -> &[FieldDef]
        ensures { result.now ≡ fields_of self.now j }
    {
        match self.definitions.get(j as usize) {
            Some(definition) => definition.fields.as_slice(),
            None => &[],
        }
    }

    /// How many cells stand before a part of a value of this type.
    pub fn offset(&self, ty: &Extent, k: u32) -> u64
        ensures { result ≡ capped (types.part_offset self.now (type_at ty.now) k) }
    {
        match ty.inside_out.base {
            Base::Complex16 => u64::from(k.min(1)),
            Base::Complex32 => u64::from(k.min(1)),
            Base::Struct(j) => self.offset_in(j, k),
            Base::Unit => 0,
            Base::Bit => 0,
            Base::Bool => 0,
            Base::Int8 => 0,
            Base::Int16 => 0,
            Base::Int32 => 0,
            Base::Int64 => 0,
        }
    }

    /// How many cells the fields before the k-th of the j-th struct have.
    fn offset_in(&self, j: u32, k: u32) -> u64
        ensures { result ≡ capped (field_offset self.now j k) }
    {
        let fields = self.fields(j);
        let n = (k as usize).min(fields.len());
        cells_of_fields(&self.layouts, &fields[..n])
    }

    /// The type of a part of a value of this type, and unit where there is none.
    pub fn part(&self, alloc: Global, ty: &Extent, k: u32) -> Result<Extent, AllocError>
        ensures { IfOk result (λ part. type_at part ≡ types.part_type self.now (type_at ty.now) k) }
    {
        match ty.inside_out.base {
            Base::Complex16 => Ok(Extent::plain(alloc, Base::Int16)),
            Base::Complex32 => Ok(Extent::plain(alloc, Base::Int32)),
            Base::Struct(j) => self.field(alloc, j, k),
            Base::Unit => Ok(Extent::plain(alloc, Base::Unit)),
            Base::Bit => Ok(Extent::plain(alloc, Base::Unit)),
            Base::Bool => Ok(Extent::plain(alloc, Base::Unit)),
            Base::Int8 => Ok(Extent::plain(alloc, Base::Unit)),
            Base::Int16 => Ok(Extent::plain(alloc, Base::Unit)),
            Base::Int32 => Ok(Extent::plain(alloc, Base::Unit)),
            Base::Int64 => Ok(Extent::plain(alloc, Base::Unit)),
        }
    }

    /// The type of the k-th field of the j-th struct, and unit where there is none.
    fn field(&self, alloc: Global, j: u32, k: u32) -> Result<Extent, AllocError>
        ensures { IfOk result (λ ty. type_at ty ≡ types.type_or_unit (field_type self.now j k)) }
    {
        match self.fields(j).get(k as usize) {
            Some(field) => Extent::of(alloc, &field.ty),
            None => Ok(Extent::plain(alloc, Base::Unit)),
        }
    }
}

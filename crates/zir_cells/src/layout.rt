// How many cells types have.

ghost use Rattle.std.specs.Prelude.{◌≡◌, IfOk, sum_by, slice_index};
ghost use Rattle.zir_tree.specs.declared.types.Ty.{Ty};
ghost use Rattle.zir_cells.specs.Layout.{capped, parts_in, base_cells, cells_in, layout_of};

use sqlite_items::Items;
use std::alloc::{AllocError, Global};
use std::marker::Model;
use zir_tree::types::{Base, FieldDef, StructDef, Ty};

/// The cells of each struct of a program, by its place. Numbers above 2^64 - 1 count as that.
#[derive(Debug, Drop)]
pub struct Layouts {
    structs: Vec<u64>,
}

impl Model for Layouts {
    ghost use Rattle.std.specs.Prelude.{List, ℕ};

    ghost Value = { List ℕ };

    ghost view = { λ layouts. layouts.structs.items };
}

impl Layouts {
    /// The cells of these structs, each of which has fields of structs before it alone.
    pub fn of_structs(alloc: Global, structs: &[StructDef]) -> Result<Layouts, AllocError>
        ensures { IfOk result (λ layouts. (ty : Ty) → capped (cells_in layouts ty) ≡ capped (layout_of structs.now ty)) }
    {
        let mut layouts = Layouts {
            structs: Vec::new(alloc),
        };
        for definition in structs {
            let cells = layouts.fields(definition.fields.as_slice());
            layouts.structs.push(cells)?;
        }
        Ok(layouts)
    }

    /// The cells of a type.
    pub fn cells(&self, ty: &Ty) -> u64
        ensures { result ≡ capped (cells_in self.now ty.now) }
    {
        parts(ty.lengths.as_slice()).saturating_mul(self.base(ty.base))
    }

    /// The cells of fields together.
    fn fields(&self, fields: &[FieldDef]) -> u64
        ensures { result ≡ capped (sum_by (λ field. cells_in self.now field.ty) fields.now) }
    {
        let mut total = 0;
        for field in fields {
            total = self.cells(&field.ty).saturating_add(total);
        }
        total
    }

    /// The cells of a type that is no array.
    fn base(&self, base: Base) -> u64
        ensures { result ≡ base_cells self.now base }
    {
        match base {
            Base::Unit => 0,
            Base::Bit => 1,
            Base::Bool => 1,
            Base::Int8 => 1,
            Base::Int16 => 1,
            Base::Int32 => 1,
            Base::Int64 => 1,
            Base::Complex16 => 2,
            Base::Complex32 => 2,
            Base::Struct(k) => self.of_struct(k),
        }
    }

    /// The cells of the struct at this place, and none where there is no such struct.
    fn of_struct(&self, k: u32) -> u64
        ensures { result ≡ slice_index self.now k }
    {
        match self.structs.get(k as usize) {
            Some(cells) => *cells,
            None => 0,
        }
    }
}

/// How many innermost parts arrays of these lengths have.
fn parts(lengths: &[u64]) -> u64
    ensures { result ≡ capped (parts_in lengths.now) }
{
    let mut all = 1;
    for length in lengths {
        all = length.saturating_mul(all);
    }
    all
}

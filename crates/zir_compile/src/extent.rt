// Types as they are found.

ghost use Rattle.std.specs.Prelude.{◌≡◌, ◌∷◌, IfOk};
ghost use Rattle.zir_code.specs.Types as types;
ghost use Rattle.zir_shapes.specs.Offsets as offsets;
ghost use Rattle.zir_compile.specs.Extents.{type_at};

use sqlite_items::Items;
use std::alloc::{AllocError, Global};
use zir_tree::types::{Base, Ty};

/// A type whose lengths stand the other way round, the innermost first, so that arrays of it are made by a push.
#[derive(Drop)]
pub struct Extent {
    pub inside_out: Ty,
}

impl Extent {
    /// A type that is no array.
    pub fn plain(alloc: Global, base: Base) -> Extent
        ensures { type_at result ≡ offsets.plain_type base }
    {
        Extent {
            inside_out: Ty {
                lengths: Items::new(alloc),
                base,
            },
        }
    }

    /// The same type as another.
    pub fn of(alloc: Global, ty: &Ty) -> Result<Extent, AllocError>
        ensures { IfOk result (λ extent. type_at extent ≡ ty.now) }
    {
        let lengths = ty.lengths.as_slice().iter().rev().copied().collect(alloc)?;
        Ok(Extent {
            inside_out: Ty {
                lengths: Items::from_vec(lengths),
                base: ty.base,
            },
        })
    }

    /// How many elements an array has; none where it is no array.
    pub fn first_length(&self) -> u64
        ensures { result ≡ types.first_length (type_at self.now).lengths }
    {
        match self.inside_out.lengths.as_slice().last() {
            Some(length) => *length,
            None => 0,
        }
    }

    /// The type of an element of an array.
    pub fn element(self) -> Extent
        ensures { type_at result ≡ types.element_type (type_at self) }
    {
        let Ty { mut lengths, base } = self.inside_out;
        lengths.pop();
        Extent {
            inside_out: Ty { lengths, base },
        }
    }

    /// The type of an array of so many.
    pub fn array(self, n: u64) -> Result<Extent, AllocError>
        ensures { IfOk result (λ extent. type_at extent ≡ offsets.array_type n (type_at self)) }
    {
        let Ty { mut lengths, base } = self.inside_out;
        lengths.push(n)?;
        Ok(Extent {
            inside_out: Ty { lengths, base },
        })
    }
}

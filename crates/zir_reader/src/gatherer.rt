//! Numbers that are gathered to elements.

ghost use Rattle.std.specs.Prelude.{◌≡◌, ◌<◌, [], List, Option, IfOk, false, vec_len};
ghost use Rattle.zir_cells.specs.Layout.{layout_of};
ghost use Rattle.zir_meaning.specs.Items.{Item};
ghost use Rattle.zir_samples.specs.Finding.{IsStreamType};

use std::alloc::{AllocError, Global};
use zir_cells::layout::Layouts;
use zir_tree::types::Ty;

/// The first cells of an element, the place where it begins, and the place behind the numbers that were read.
#[derive(Debug, Drop)]
pub struct Gatherer {
    pub cells: Vec<i64>,
    pub count: usize,
    pub start: u64,
    pub here: u64,
    ghost within: { count < vec_len cells },
}

impl Gatherer {
    ghost use Rattle.zir_reader.specs.Gathering.{gatherer_size, input_ahead, input_from, missing, Pushes};

    /// Takes room for an element of this type, and begins with the first.
    pub fn open(alloc: Global, ty: &Ty) -> Result<Gatherer, AllocError>
        requires { IsStreamType ty.now }
        ensures ahead { IfOk result (λ gatherer. (items : List (Option Item)) → input_ahead gatherer items ≡ input_from (layout_of [] ty.now) [] 0 0 items) }
        ensures size { IfOk result (λ gatherer. gatherer_size gatherer ≡ layout_of [] ty.now) }
    {
        let cells = Layouts::of_structs(alloc, &[])?.cells(ty) as usize;
        Ok(Gatherer {
            cells: vec![in alloc; 0; cells]?,
            count: 0,
            start: 0,
            here: 0,
        })
    }

    /// Adds a number, and says whether the element is whole. Then the next one begins.
    pub fn push(&mut self, number: i64, size: usize) -> bool
        ensures pushes { Pushes self.old self.new number size result }
        ensures size { gatherer_size self.new ≡ gatherer_size self.old }
        ensures less { result ≡ false → missing self.new < missing self.old }
    {
        self.cells[self.count] = number;
        self.here = self.here.saturating_add(size as u64);
        if self.count + 1 < self.cells.len() {
            self.count += 1;
            return false;
        }
        self.count = 0;
        self.start = self.here;
        true
    }
}

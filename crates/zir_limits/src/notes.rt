// What the limits look at, noted on a walk: the first place of each limit that is passed, and the calls.

ghost use Rattle.std.specs.Prelude.{◌≡◌, [], ◌∷◌, ◌||◌, nat_eq, nat_lt, OnOk};
ghost use Rattle.zir_types.specs.Limits.{earlier as stands_before, sooner as earlier_of};
ghost use Rattle.zir_types.specs.Measures.{Spans, Holds, Sends, Calls, Splits, spans as lengths_in};
ghost use Rattle.zir_limits.specs.Notes.{marks, noted, unnoted, measure_target};

use sqlite_items::Items;
use std::alloc::{AllocError, Global};
use zir_tree::place::Place;
use zir_tree::types::Dimension;

/// What a call leads to: a function or an instance, by its place among those of its kind, from 0.
#[derive(Clone, Copy)]
pub enum Target {
    Function(u32),
    Instance(u32),
}

/// A call at its place.
#[derive(Clone, Copy)]
pub struct Call {
    pub target: Target,
    pub at: Place,
}

/// The first places where a length, the cells of a type, an element and the stages of a chain pass their limits, and all calls in
/// the order of the walk.
#[derive(Drop)]
pub struct Notes {
    pub first_length: Option<Place>,
    pub first_cells: Option<Place>,
    pub first_element: Option<Place>,
    pub first_stages: Option<Place>,
    pub calls: Items<Call>,
}

/// Whether a place stands before another in the text.
pub fn earlier(p: Place, q: Place) -> bool
    ensures { result ≡ stands_before p q }
{
    if p.line == q.line {
        p.col < q.col
    } else {
        p.line < q.line
    }
}

/// The earlier of a place and perhaps another.
fn sooner(p: Place, other: Option<Place>) -> Place
    ensures { result ≡ earlier_of p other }
{
    match other {
        None => p,
        Some(q) => if earlier(q, p) { q } else { p },
    }
}

/// Whether a length is outside 1 to 4,096.
fn outside(length: u64) -> bool
    ensures { result ≡ (nat_eq length 0 || nat_lt 4096 length) }
{
    length == 0 || length > 4096
}

/// The first place so far, where this one counts if something is wrong there.
pub fn marked(wrong: bool, at: Place, first: Option<Place>) -> Option<Place>
    ensures { result ≡ marks wrong at first }
{
    if wrong {
        Some(sooner(at, first))
    } else {
        first
    }
}

impl Notes {
    /// Nothing is noted.
    pub fn new(alloc: Global) -> Notes
        ensures { result ≡ unnoted }
    {
        Notes {
            first_length: None,
            first_cells: None,
            first_element: None,
            first_stages: None,
            calls: Items::new(alloc),
        }
    }

    /// A length of an array, a slice or a `takes`.
    pub fn spans(&mut self, length: u64, at: Place)
        ensures { self.new ≡ noted (Spans length at ∷ []) self.old }
    {
        let first = marked(outside(length), at, self.first_length);
        self.first_length = first;
    }

    /// The lengths of written arrays.
    pub fn dimensions(&mut self, dimensions: &[Dimension])
        ensures { self.new ≡ noted (lengths_in dimensions.now) self.old }
    {
        for dimension in dimensions {
            self.spans(dimension.length, dimension.at);
        }
    }

    /// The cells of a type.
    pub fn holds(&mut self, cells: u64, at: Place)
        ensures { self.new ≡ noted (Holds cells at ∷ []) self.old }
    {
        let first = marked(cells > 65536, at, self.first_cells);
        self.first_cells = first;
    }

    /// The cells of an element that a component emits.
    pub fn sends(&mut self, cells: u64, at: Place)
        ensures { self.new ≡ noted (Sends cells at ∷ []) self.old }
    {
        let first = marked(cells > 4096, at, self.first_element);
        self.first_element = first;
    }

    /// A `|>>>|`, by its number in its chain from 1.
    pub fn splits(&mut self, number: u64, at: Place)
        ensures { self.new ≡ noted (Splits number at ∷ []) self.old }
    {
        let first = marked(number == 16, at, self.first_stages);
        self.first_stages = first;
    }

    /// A call.
    pub fn call(&mut self, target: Target, at: Place) -> Result<(), AllocError>
        ensures { OnOk result (self.new ≡ noted (Calls (measure_target target) at ∷ []) self.old) }
    {
        self.calls.push(Call { target, at })?;
        Ok(())
    }

    /// The calls so far, which are no longer noted.
    pub fn take_calls(&mut self, alloc: Global) -> Items<Call>
        ensures calls { result ≡ self.old.calls }
        ensures rest { self.new ≡ record self.old { calls = [] } }
    {
        std::mem::replace(&mut self.calls, Items::new(alloc))
    }
}

// Rule 2: every `|>>>|` that main reaches is the operator of a chain on the spine.

ghost use Rattle.std.specs.Prelude.{◌≡◌, List, [], ◌∷◌, IfOk};
ghost use Rattle.zir_names.specs.Sharing.{Splits, splits as places_of, within as within_of, left_of as left_stand, split_at as own_split, first_place, first_split as refused_split, splits_from, Spine as spine};
ghost use Rattle.zir_sharing.specs.Marks.{stand_of, earliest as earliest_of, marks_of as marks_for, mark_in, marked_at};
ghost use Rattle.std.specs.List.{flat_map};
ghost use Rattle.zir_sharing.specs.Blocks.{of_member};
ghost use Rattle.zir_sharing.specs.Answers.{Answers};

use crate::error::ShareError;
use crate::place_index::PlaceIndex;
use std::alloc::{AllocError, Global};
use std::marker::Model;
use zir_tree::comp::{Comp, Link, Member};
use zir_tree::place::Place;
use zir_tree::program::{Decl, Prog};

/// Where a component stands.
#[derive(Clone, Copy, Debug, PartialEq, Eq)]
pub enum Standing {
    /// On the spine.
    Spine,
    /// As the left side of a `|>>>|` of a chain on the spine.
    Chain,
    /// Elsewhere.
    Elsewhere,
}

/// The first places in a body, and in the bodies that it calls, where a split is refused: where the call stands on the
/// spine, and where it does not.
#[derive(Clone, Copy, Debug)]
pub struct Mark {
    pub on_spine: Option<Place>,
    pub off_spine: Option<Place>,
}

/// `fun comp`s by their numbers, each with its mark.
#[derive(Debug, Drop)]
pub struct Marks {
    index: PlaceIndex,
    marks: Vec<Mark>,
}

impl Model for Marks {
    ghost use Rattle.std.specs.Prelude.{List, ◌≡◌, length};
    ghost use Rattle.zir_sharing.specs.Marks.{Marked, marked_of};

    ghost Value = { List Marked };

    ghost view = { λ marks. marked_of marks.index marks.marks.items };

    ghost invariant = { λ marks. length marks.index ≡ length marks.marks.items };
}

impl Marks {
    /// No `fun comp`.
    fn new(alloc: Global) -> Marks
        ensures { result ≡ [] }
    {
        Marks {
            index: PlaceIndex::new(alloc),
            marks: Vec::new(alloc),
        }
    }

    /// The first place in the body that a call at this stand calls.
    fn find(&self, id: u32, stand: Standing) -> Option<Place>
        ensures { result ≡ mark_in self.now id (stand_of stand) }
    {
        match self.index.find(id) {
            None => None,
            Some(at) => mark_at(&self.marks, at, stand),
        }
    }

    /// These and one more.
    fn with(self, id: u32, mark: Mark) -> Result<Marks, AllocError>
        ensures { IfOk result (λ marks. marks ≡ record { id = id; mark = mark } ∷ self) }
    {
        let Marks {
            mut index,
            mut marks,
        } = self;
        index.push(id)?;
        marks.push(mark)?;
        Ok(Marks { index, marks })
    }
}

/// The first place of the mark at a place, where there is one.
fn mark_at(marks: &[Mark], at: usize, stand: Standing) -> Option<Place>
    ensures { result ≡ marked_at marks.now (stand_of stand) at }
{
    if at >= marks.len() {
        return None;
    }
    let mark = marks[at];
    match stand {
        Standing::Spine => mark.on_spine,
        Standing::Chain => mark.off_spine,
        Standing::Elsewhere => mark.off_spine,
    }
}

/// Where a part stands inside a component that is no composition.
fn within(stand: Standing) -> Standing
    ensures { stand_of result ≡ within_of (stand_of stand) }
{
    match stand {
        Standing::Spine => Standing::Spine,
        Standing::Chain => Standing::Elsewhere,
        Standing::Elsewhere => Standing::Elsewhere,
    }
}

/// Where the left side of an operator stands.
fn left_of(stand: Standing, link: Link) -> Standing
    ensures { stand_of result ≡ left_stand (stand_of stand) link }
{
    match link {
        Link::Serial => Standing::Elsewhere,
        Link::Parallel => match stand {
            Standing::Spine => Standing::Chain,
            Standing::Chain => Standing::Chain,
            Standing::Elsewhere => Standing::Elsewhere,
        },
    }
}

/// The place of an operator, where it is refused.
fn split_at(stand: Standing, link: Link, at: Place) -> Option<Place>
    ensures { result ≡ first_place (own_split (stand_of stand) link at) }
{
    match link {
        Link::Serial => None,
        Link::Parallel => match stand {
            Standing::Spine => None,
            Standing::Chain => None,
            Standing::Elsewhere => Some(at),
        },
    }
}

/// The earlier of two places that may be there.
fn earliest(a: Option<Place>, b: Option<Place>) -> Option<Place>
    ensures { result ≡ earliest_of a b }
{
    match (a, b) {
        (None, b) => b,
        (Some(p), None) => Some(p),
        (Some(p), Some(q)) => {
            if q.line < p.line || (q.line == p.line && q.col < p.col) {
                Some(q)
            } else {
                Some(p)
            }
        }
    }
}

/// The first place in a component, and in the bodies that it calls, where a split is refused.
#[cycle(splits)]
fn first_split(marks: &Marks, stand: Standing, c: &Comp) -> Option<Place>
    ensures { (ss : List Splits) → marks_for ss ≡ marks.now →
        result ≡ first_place (places_of ss (stand_of stand) c.now) }
{
    match c {
        Comp::Take(_) => None,
        Comp::Takes(_, _) => None,
        Comp::Emit(_, _) => None,
        Comp::Emits(_, _) => None,
        Comp::Return(_, _) => None,
        Comp::Do(_, _) => None,
        Comp::Repeat(inner, _) => first_split(marks, within(stand), inner.get()),
        Comp::While(_, _, inner, _) => first_split(marks, within(stand), inner.get()),
        Comp::Times(_, inner, _) => first_split(marks, within(stand), inner.get()),
        Comp::For(_, _, _, inner, _) => first_split(marks, within(stand), inner.get()),
        Comp::If(_, inner, other, _) => {
            let inner = first_split(marks, within(stand), inner.get());
            let other = first_split(marks, within(stand), other.get());
            earliest(inner, other)
        }
        Comp::Map(_, _, _) => None,
        Comp::Filter(_, _, _) => None,
        Comp::Call(f, _, _) => marks.find(f.id, stand),
        Comp::Block(members, _) => first_in_members(marks, within(stand), members.as_slice()),
        Comp::Pipe(link, left, right, at) => {
            let left = first_split(marks, left_of(stand, *link), left.get());
            let right = first_split(marks, Standing::Elsewhere, right.get());
            earliest(earliest(left, split_at(stand, *link, *at)), right)
        }
    }
}

/// The same in a member.
#[cycle(splits)]
fn first_in_member(marks: &Marks, stand: Standing, m: &Member) -> Option<Place>
    ensures { (ss : List Splits) → marks_for ss ≡ marks.now →
        result ≡ first_place (of_member (places_of ss (stand_of stand)) m.now) }
{
    match m {
        Member::Bind(_, c) => first_split(marks, stand, c),
        Member::Var(_) => None,
        Member::Run(c) => first_split(marks, stand, c),
    }
}

/// The same in members.
#[cycle(splits)]
fn first_in_members(marks: &Marks, stand: Standing, ms: &[Member]) -> Option<Place>
    ensures { (ss : List Splits) → marks_for ss ≡ marks.now →
        result ≡ first_place (flat_map (of_member (places_of ss (stand_of stand))) ms.now) }
{
    let mut found = None;
    for m in ms {
        found = earliest(found, first_in_member(marks, stand, m));
    }
    found
}

/// The marks of a declaration and of those before it.
fn with_declaration(marks: Marks, d: &Decl) -> Result<Marks, AllocError>
    ensures { (ss : List Splits) → marks_for ss ≡ marks →
        IfOk result (λ made. made ≡ marks_for (splits_from ss (d.now ∷ []))) }
{
    match d {
        Decl::Var(_) => Ok(marks),
        Decl::Struct(_) => Ok(marks),
        Decl::Function(_) => Ok(marks),
        Decl::Comp(f) => {
            let on_spine = first_split(&marks, Standing::Spine, &f.body);
            let off_spine = first_split(&marks, Standing::Elsewhere, &f.body);
            marks.with(
                f.name.id,
                Mark {
                    on_spine,
                    off_spine,
                },
            )
        }
    }
}

/// The marks of declarations.
fn marks_of(alloc: Global, ds: &[Decl]) -> Result<Marks, AllocError>
    ensures { IfOk result (λ made. made ≡ marks_for (splits_from [] ds.now)) }
{
    let mut marks = Marks::new(alloc);
    for d in ds {
        let more = with_declaration(marks, d)?;
        marks = more;
    }
    Ok(marks)
}

/// The first place, among those that main reaches, where a split is refused.
pub fn check_splits(alloc: Global, p: &Prog) -> Result<(), ShareError>
    ensures { Answers (refused_split (first_place (places_of (splits_from [] p.now.declarations) spine p.now.main))) result }
{
    let marks = marks_of(alloc, p.declarations.as_slice())?;
    match first_split(&marks, Standing::Spine, &p.main) {
        None => Ok(()),
        Some(at) => Err(ShareError::SplitPlace(at)),
    }
}

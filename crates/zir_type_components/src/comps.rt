// The `fun comp`s of a program, which are typed where they are called.

ghost use Rattle.std.specs.Prelude.{◌≡◌, drop, reverse, option_map, true, OnSome};
ghost use Rattle.zir_type_components.specs.Numbers.{found, falling as falls, head_below as below_here};
ghost use Rattle.zir_type_components.specs.Calls.{split_in};

use crate::memory::{bytes_of_comp, has_room};
use std::alloc::AllocError;
use std::marker::Model;
use zir_tree::comp::Comp;
use zir_tree::program::Instance;
use zir_types::typed::Heading;

/// A `fun comp` with its parameters, whose body is typed where it is called.
#[derive(Debug, Drop)]
pub struct PreparedComp<'a> {
    id: u32,
    head: Heading,
    body: &'a Comp,
    /// About how many bytes the body takes.
    bytes: u64,
}

impl<'a> Model for PreparedComp<'a> {
    ghost use Rattle.zir_types.specs.Programs.{Prepared};

    ghost Value = { Prepared };

    ghost use Rattle.zir_tree.specs.contracts.comp.Comp as e;
    ghost use Rattle.std.specs.Coded.{codes};

    ghost coded = { Prim.hlevel (codes, e.the_row.coded) };

    ghost view = { λ d. record { id = d.id; head = d.head; body = d.body.now } };
}

impl<'a> PreparedComp<'a> {
    /// The `fun comp` of this number.
    pub fn new(id: u32, head: Heading, body: &'a Comp) -> PreparedComp<'a>
        ensures { result ≡ record { id = id; head = head; body = body.now } }
    {
        let bytes = bytes_of_comp(body);
        PreparedComp {
            id,
            head,
            body,
            bytes,
        }
    }

    /// The number of its declaration.
    pub fn id(&self) -> u32
        ensures { result ≡ self.now.id }
    {
        self.id
    }

    /// Its parameters.
    pub fn head(&self) -> &Heading
        ensures { result.now ≡ self.now.head }
    {
        &self.head
    }

    /// Its body.
    pub fn body(&self) -> &Comp
        ensures { result.now ≡ self.now.body }
    {
        self.body
    }

    /// About how many bytes its body takes.
    fn bytes(&self) -> u64 {
        self.bytes
    }
}

/// The `fun comp`s of a program, the last one first, and whether their numbers fall, as those of a resolved program do.
#[derive(Debug, Drop)]
pub struct Comps<'a> {
    list: Vec<PreparedComp<'a>>,
    falling: bool,
}

impl<'a> Model for Comps<'a> {
    ghost use Rattle.std.specs.Prelude.{◌≡◌, List};
    ghost use Rattle.zir_types.specs.Programs.{Prepared};
    ghost use Rattle.zir_type_components.specs.Numbers.{falling as falls};

    ghost Value = { List Prepared };

    ghost use Rattle.zir_tree.specs.contracts.comp.Comp as e;
    ghost use Rattle.std.specs.Coded.{codes};

    ghost coded = { Prim.hlevel (codes, e.the_row.coded) };

    ghost view = { λ comps. comps.list.items };

    ghost invariant = { λ comps. comps.falling ≡ falls comps.list.items };
}

/// A `fun comp` that is found, and how many `fun comp`s from the last one up to it there are.
#[derive(Clone, Copy)]
pub struct Found<'a> {
    pub comp: &'a PreparedComp<'a>,
    pub next: usize,
}

/// Where a component stands: the `fun comp`s of the program, how many of the last ones it may not call, how many
/// instances are begun around it, and how many variables the top has.
#[derive(Clone, Copy)]
pub struct Site<'a> {
    pub comps: &'a Comps<'a>,
    pub from: usize,
    pub around: usize,
    pub depth: usize,
}

impl<'a> Comps<'a> {
    /// The `fun comp`s of a program, which are given in the order of the text.
    pub fn new(mut list: Vec<PreparedComp<'a>>) -> Comps<'a>
        ensures { result ≡ reverse list.entry.items }
    {
        list.reverse();
        let falling = falling(list.as_slice());
        Comps { list, falling }
    }

    /// The last `fun comp` of this number but for the last so many.
    pub fn find(&self, from: usize, id: u32) -> Option<Found<'_>>
        ensures { option_map (split_in self.now) result ≡ found (drop from self.now) id }
    {
        if self.falling {
            let place = guess(self.list.as_slice(), id);
            if let Some(hit) = hit_at(self.list.as_slice(), from, place, id) {
                return Some(hit);
            }
        }
        find_from(self.list.as_slice(), from, id)
    }

    /// About how many bytes the body of an instance takes.
    fn bytes_of(&self, instance: &Instance) -> u64 {
        match self.find(0, instance.declaration) {
            Some(typed) => typed.comp.bytes(),
            None => 0,
        }
    }

    /// Refuses memory for a body beside those of these instances, where all of them take too much.
    pub fn check_room(
        &self,
        comp: &PreparedComp<'_>,
        instances: &[Instance],
    ) -> Result<(), AllocError> {
        let mut bytes = comp.bytes();
        for instance in instances {
            bytes = bytes.saturating_add(self.bytes_of(instance));
        }
        if has_room(bytes) {
            Ok(())
        } else {
            Err(AllocError)
        }
    }
}

/// Whether the first of these has a lesser number.
fn head_below(n: u32, list: &[PreparedComp<'_>]) -> bool
    ensures { result ≡ below_here n list.now }
{
    match list {
        [] => true,
        [d, ..] => d.id() < n,
    }
}

/// Whether the numbers of these fall.
fn falling(list: &[PreparedComp<'_>]) -> bool
    ensures { result ≡ falls list.now }
{
    match list {
        [] => true,
        [d, more @ ..] => head_below(d.id(), more) && falling(more),
    }
}

/// Where a number stands, if it does, among numbers that fall.
fn guess(list: &[PreparedComp<'_>], id: u32) -> usize {
    let mut low = 0;
    let mut high = list.len();
    while low < high {
        let middle = low + (high - low) / 2;
        if list[middle].id() > id {
            low = middle + 1;
        } else {
            high = middle;
        }
    }
    low
}

/// The `fun comp` at a place, if it has this number and is none of the last so many.
fn hit_at<'a>(list: &'a [PreparedComp<'a>], from: usize, place: usize, id: u32) -> Option<Found<'a>>
    requires { falls list.now ≡ true }
    ensures { OnSome result (option_map (split_in list.now) result ≡ found (drop from list.now) id) }
{
    if place < from {
        return None;
    }
    match list.get(place) {
        None => None,
        Some(comp) => {
            if comp.id() != id {
                return None;
            }
            let next = place + 1;
            Some(Found { comp, next })
        }
    }
}

/// The last `fun comp` of this number but for the last so many.
fn find_from<'a>(list: &'a [PreparedComp<'a>], from: usize, id: u32) -> Option<Found<'a>>
    ensures { option_map (split_in list.now) result ≡ found (drop from list.now) id }
{
    for place in from..list.len() {
        let comp = &list[place];
        if comp.id() == id {
            let next = place + 1;
            return Some(Found { comp, next });
        }
    }
    None
}

// The variables in scope.

ghost use Rattle.std.specs.Prelude.{◌≡◌, ℕ, ◌++◌, ◌∷◌, [], ◌-◌, ◌<◌, ◌≤◌, ◌&&◌, take, length, nat_eq, slice_index, OnOk, if◌then◌else◌};
ghost use Rattle.std.specs.Option.{option_copied};
ghost use Rattle.zir_types.specs.Scope.{variable, type_in};

use std::alloc::{AllocError, Global};
use std::marker::Model;
use zir_tree::types::Ty;
use zir_types::scope::Seen;

/// The variables in scope, in the order of their declarations, and for each number one more than the place of its first
/// variable, or 0.
#[derive(Drop)]
pub struct Scope {
    variables: Vec<Seen>,
    places: Vec<usize>,
}

impl Model for Scope {
    ghost use Rattle.std.specs.Prelude.{List, ℕ, ◌≡◌, slice_index};
    ghost use Rattle.zir_types.specs.declared.scope.Seen.{Seen};
    ghost use Rattle.zir_limits.specs.Places.{place_from};

    ghost Value = { List Seen };

    ghost view = { λ scope. scope.variables.items };

    ghost invariant = { λ scope. (id : ℕ) →
        slice_index scope.places.items id ≡ place_from 0 scope.variables.items id };
}

impl Scope {
    /// Nothing is in scope.
    pub fn new(alloc: Global) -> Scope
        ensures { result ≡ [] }
    {
        Scope {
            variables: Vec::new(alloc),
            places: Vec::new(alloc),
        }
    }

    /// How many variables are in scope.
    pub fn len(&self) -> usize
        ensures { result ≡ length self.now }
    {
        self.variables.len()
    }

    /// The type of the variable of this number.
    pub fn find(&self, id: u32) -> Option<&Ty>
        ensures { option_copied result ≡ type_in self.now id }
    {
        let place = place_at(self.places.as_slice(), id as usize);
        if place == 0 || place > self.variables.len() {
            return None;
        }
        Some(&self.variables[place - 1].ty)
    }

    /// A variable of this number and type comes into scope.
    pub fn declare(&mut self, id: u32, ty: Ty) -> Result<(), AllocError>
        ensures { OnOk result (self.new ≡ self.old ++ variable id ty ∷ []) }
    {
        widen(&mut self.places, id as usize + 1)?;
        self.variables.push(Seen { id, ty })?;
        settle(&mut self.places, id as usize, self.variables.len());
        Ok(())
    }

    /// The last variable leaves the scope.
    fn leave_last(&mut self)
        ensures { self.new ≡ take (length self.old - 1) self.old }
    {
        let place = self.variables.len();
        if let Some(last) = self.variables.pop() {
            forget(&mut self.places, last.id as usize, place);
        }
    }

    /// All but the first so many variables leave the scope.
    pub fn leave(&mut self, count: usize)
        ensures { self.new ≡ take count self.old }
    {
        while self.len() > count {
            self.leave_last();
        }
    }
}

/// The number at a place, and 0 past the end.
fn place_at(places: &[usize], id: usize) -> usize
    ensures { result ≡ slice_index places.now id }
{
    if id < places.len() { places[id] } else { 0 }
}

/// Noughts behind the last number, up to so many.
fn widen(places: &mut Vec<usize>, count: usize) -> Result<(), AllocError>
    ensures same { (q : ℕ) → slice_index places.new.items q ≡ slice_index places.old.items q }
    ensures wide { OnOk result (count ≤ length places.new.items) }
{
    if places.len() < count {
        places.resize(count, 0)?;
    }
    Ok(())
}

/// A number that has no place yet gets this one.
fn settle(places: &mut Vec<usize>, id: usize, place: usize)
    requires { id < length places.old.items }
    ensures { (q : ℕ) →
        slice_index places.new.items q
        ≡ (if nat_eq q id && nat_eq (slice_index places.old.items q) 0 then place else slice_index places.old.items q) }
{
    if places[id] == 0 {
        places[id] = place;
    }
}

/// A number loses its place, where it is this one.
fn forget(places: &mut Vec<usize>, id: usize, place: usize)
    ensures { (q : ℕ) →
        slice_index places.new.items q
        ≡ (if nat_eq q id && nat_eq (slice_index places.old.items q) place then 0 else slice_index places.old.items q) }
{
    if id < places.len() && places[id] == place {
        places[id] = 0;
    }
}

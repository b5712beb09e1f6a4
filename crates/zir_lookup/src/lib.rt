//! A list of numbers in which the first place of a number is found at once.
#![tactic(auto)]

ghost use Rattle.std.specs.Prelude.{◌≡◌, ◌++◌, ◌∷◌, [], take, OnOk, OnErr};
ghost use Rattle.zir_lookup.specs.Numbers.{place_from};

use std::alloc::{AllocError, Global};
use std::collections::HashMap;
use std::marker::Model;

/// A list of numbers, with notes of the first place of each. A note may be out of date where the list was cut: it counts only
/// where the number stands at that place.
#[derive(Debug, Drop)]
pub struct Numbers {
    list: Vec<u32>,
    notes: HashMap<u32, usize>,
}

impl Model for Numbers {
    ghost use Rattle.std.specs.Prelude.{List, ℕ, nat_eq};
    ghost use Rattle.std.specs.HashMap.{get};
    ghost use Rattle.zir_lookup.specs.Numbers.{AreNoted};

    ghost Value = { List ℕ };

    ghost view = { λ numbers. numbers.list.items };

    ghost invariant = { λ numbers. AreNoted numbers.list.items (get nat_eq numbers.notes) };
}

impl Numbers {
    /// No numbers.
    pub fn new(alloc: Global) -> Numbers
        ensures { result ≡ [] }
    {
        Numbers {
            list: Vec::new(alloc),
            notes: HashMap::new(alloc),
        }
    }

    /// The first place of a number, from 0 on.
    pub fn find(&self, id: u32) -> Option<usize>
        ensures { result ≡ place_from 0 self.now id }
    {
        match self.notes.get(&id) {
            None => None,
            Some(place) => match self.list.get(*place) {
                None => None,
                Some(x) => { if *x == id { Some(*place) } else { None } }
            },
        }
    }

    /// A number comes behind the others.
    pub fn push(&mut self, id: u32) -> Result<(), AllocError>
        ensures pushed { OnOk result (self.new ≡ self.old ++ id ∷ []) }
        ensures kept { OnErr result (self.new ≡ self.old) }
    {
        match self.find(id) {
            Some(_) => {
                self.list.push(id)?;
                Ok(())
            }
            None => {
                let place = self.list.len();
                self.notes.insert(id, place)?;
                self.list.push(id)?;
                Ok(())
            }
        }
    }

    /// All but the first so many numbers go.
    pub fn truncate(&mut self, count: usize)
        ensures { self.new ≡ take count self.old }
    {
        self.list.truncate(count);
    }
}

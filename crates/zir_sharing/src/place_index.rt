// Where numbers came last.

ghost use Rattle.std.specs.Prelude.{◌≡◌, ◌∷◌, [], OnOk, length};
ghost use Rattle.zir_sharing.specs.Places.{last_place};

use crate::words;
use std::alloc::{AllocError, Global};
use std::marker::Model;

/// Numbers, each found by where it came last; contracts see them as their list, latest first.
#[derive(Debug, Drop)]
pub struct PlaceIndex {
    numbers: Vec<u32>,
    places: Vec<u64>,
}

impl Model for PlaceIndex {
    ghost use Rattle.std.specs.Prelude.{List, ℕ, ◌≡◌, reverse};
    ghost use Rattle.zir_sharing.specs.Members.{word_at};
    ghost use Rattle.zir_sharing.specs.Places.{last_place, place_code};

    ghost Value = { List ℕ };

    ghost view = { λ index. reverse index.numbers.items };

    ghost invariant = { λ index. (n : ℕ) → word_at index.places.items n ≡ place_code (last_place (reverse index.numbers.items) n) };
}

impl PlaceIndex {
    /// No number.
    pub fn new(alloc: Global) -> PlaceIndex
        ensures { result ≡ [] }
    {
        PlaceIndex {
            numbers: Vec::new(alloc),
            places: Vec::new(alloc),
        }
    }

    /// The place, from 0 on, at which a number came last.
    pub fn find(&self, n: u32) -> Option<usize>
        ensures { result ≡ last_place self.now n }
    {
        let place = words::word_at(&self.places, n as usize);
        (place as usize).checked_sub(1)
    }

    /// A number comes.
    pub fn push(&mut self, n: u32) -> Result<(), AllocError>
        ensures { OnOk result (self.new ≡ n ∷ self.old) }
    {
        words::widen(&mut self.places, n as usize + 1)?;
        self.numbers.push(n)?;
        self.places[n as usize] = self.numbers.len() as u64;
        Ok(())
    }
}

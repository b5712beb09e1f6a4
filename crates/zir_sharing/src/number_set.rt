// Sets of numbers.

ghost use Rattle.std.specs.Prelude.{◌≡◌, [], OnOk, IfOk};
ghost use Rattle.zir_names.specs.Numbers.{add, union, kept, without, least};

use crate::words;
use std::alloc::{AllocError, Global};
use std::marker::Model;

/// A set of numbers, which contracts see as their ascending list: a bit for each number up to the largest.
#[derive(Debug, Drop)]
pub struct NumberSet {
    words: Vec<u64>,
}

impl Model for NumberSet {
    ghost use Rattle.std.specs.Prelude.{List, ℕ, length, ◌≤◌, ◌^◌};
    ghost use Rattle.zir_sharing.specs.Members.{members};

    ghost Value = { List ℕ };

    ghost view = { λ set. members set.words.items };

    ghost invariant = { λ set. length set.words.items ≤ 2 ^ 26 };
}

impl NumberSet {
    /// No number.
    pub fn new(alloc: Global) -> NumberSet
        ensures { result ≡ [] }
    {
        NumberSet {
            words: Vec::new(alloc),
        }
    }

    /// A number comes in.
    pub fn insert(&mut self, n: u32) -> Result<(), AllocError>
        ensures { OnOk result (self.new ≡ add n self.old) }
    {
        words::widen(&mut self.words, (n / 64) as usize + 1)?;
        words::put(&mut self.words, n);
        Ok(())
    }

    /// The numbers of another set come in.
    pub fn join(&mut self, others: &NumberSet) -> Result<(), AllocError>
        ensures { OnOk result (self.new ≡ union others.now self.old) }
    {
        words::widen(&mut self.words, others.words.len())?;
        words::join(&mut self.words, &others.words);
        Ok(())
    }

    /// The numbers that another set does not have go.
    pub fn keep(&mut self, others: &NumberSet)
        ensures { self.new ≡ kept others.now self.old }
    {
        words::keep(&mut self.words, &others.words);
    }

    /// The numbers that another set has go.
    pub fn remove(&mut self, others: &NumberSet)
        ensures { self.new ≡ without others.now self.old }
    {
        words::remove(&mut self.words, &others.words);
    }

    /// The least number.
    pub fn first(&self) -> Option<u32>
        ensures { result ≡ least self.now }
    {
        words::first(&self.words)
    }

    /// The numbers, ascending.
    pub fn to_vec(&self, alloc: Global) -> Result<Vec<u32>, AllocError>
        ensures { IfOk result (λ list. list.items ≡ self.now) }
    {
        words::list(alloc, &self.words)
    }
}

// The functions of a program, each with what a call of it touches.

ghost use Rattle.std.specs.Prelude.{◌≡◌, [], ◌∷◌, IfOk, MatchOption};
ghost use Rattle.zir_names.specs.Touched.{untouched, call_of};

use crate::place_index::PlaceIndex;
use crate::touched::Touched;
use std::alloc::{AllocError, Global};
use std::marker::Model;

/// Functions and `fun comp`s by their numbers, each with what a call of it touches.
#[derive(Debug, Drop)]
pub struct Functions {
    index: PlaceIndex,
    touched: Vec<Touched>,
}

impl Model for Functions {
    ghost use Rattle.std.specs.Prelude.{List, ◌≡◌, length};
    ghost use Rattle.zir_names.specs.Touched.{Called};

    ghost Value = { List Called };

    ghost use Rattle.zir_sharing.specs.Places.{called_of};

    ghost view = { λ functions. called_of functions.index functions.touched.items };

    ghost invariant = { λ functions. length functions.index ≡ length functions.touched.items };
}

impl Functions {
    /// No function.
    pub fn new(alloc: Global) -> Functions
        ensures { result ≡ [] }
    {
        Functions {
            index: PlaceIndex::new(alloc),
            touched: Vec::new(alloc),
        }
    }

    /// What a call touches, where that is known of what is called.
    pub fn find(&self, id: u32) -> Option<&Touched>
        ensures { MatchOption result (call_of self.now id ≡ untouched) (λ touched. call_of self.now id ≡ touched.now) }
    {
        match self.index.find(id) {
            None => None,
            Some(at) => {
                if at < self.touched.len() {
                    Some(&self.touched[at])
                } else {
                    None
                }
            }
        }
    }

    /// These functions and one more.
    pub fn with(self, id: u32, called: Touched) -> Result<Functions, AllocError>
        ensures { IfOk result (λ functions. functions ≡ record { id = id; touched = called } ∷ self) }
    {
        let Functions {
            mut index,
            mut touched,
        } = self;
        index.push(id)?;
        touched.push(called)?;
        Ok(Functions { index, touched })
    }
}

// What parts of a program touch.

ghost use Rattle.std.specs.Prelude.{◌≡◌, OnOk, IfOk};
ghost use Rattle.zir_names.specs.Numbers.{union, without, least};
ghost use Rattle.zir_names.specs.Touched.{untouched, both, reads, assigns_to, declares, seen_outside as seen_from_outside};
ghost use Rattle.zir_names.specs.Sharing.{shared_by};

use crate::number_set::NumberSet;
use std::alloc::{AllocError, Global};
use std::marker::Model;
use zir_tree::ident::Ident;

/// What a part uses, what it assigns, and the variables that it declares.
#[derive(Debug, Drop)]
pub struct Touched {
    used: NumberSet,
    assigned: NumberSet,
    declared: NumberSet,
}

impl Model for Touched {
    ghost use Rattle.zir_names.specs.Touched.{Touched as Parts};

    ghost Value = { Parts };

    ghost view = { λ touched. record { used = touched.used; assigned = touched.assigned; declared = touched.declared } };
}

impl Touched {
    /// Nothing.
    pub fn new(alloc: Global) -> Touched
        ensures { result ≡ untouched }
    {
        Touched {
            used: NumberSet::new(alloc),
            assigned: NumberSet::new(alloc),
            declared: NumberSet::new(alloc),
        }
    }

    /// A name is read.
    pub fn read(&mut self, x: &Ident) -> Result<(), AllocError>
        ensures { OnOk result (self.new ≡ both (reads x.now) self.old) }
    {
        self.used.insert(x.id)
    }

    /// A variable is assigned.
    pub fn assign(&mut self, x: &Ident) -> Result<(), AllocError>
        ensures { OnOk result (self.new ≡ both (assigns_to x.now) self.old) }
    {
        self.used.insert(x.id)?;
        self.assigned.insert(x.id)
    }

    /// A variable is declared.
    pub fn declare(&mut self, x: &Ident) -> Result<(), AllocError>
        ensures { OnOk result (self.new ≡ both (declares x.now) self.old) }
    {
        self.declared.insert(x.id)
    }

    /// All that another part touches.
    pub fn join(&mut self, other: &Touched) -> Result<(), AllocError>
        ensures { OnOk result (self.new ≡ both other.now self.old) }
    {
        self.used.join(&other.used)?;
        self.assigned.join(&other.assigned)?;
        self.declared.join(&other.declared)
    }

    /// The least variable that one of two parts assigns and the other uses.
    pub fn first_shared(self, other: Touched) -> Result<Option<u32>, AllocError>
        ensures { IfOk result (λ found. found ≡ least (shared_by self other)) }
    {
        let Touched {
            used,
            mut assigned,
            declared: _,
        } = self;
        let Touched {
            used: other_used,
            assigned: mut other_assigned,
            declared: _,
        } = other;
        assigned.keep(&other_used);
        other_assigned.keep(&used);
        other_assigned.join(&assigned)?;
        Ok(other_assigned.first())
    }

    /// The least variable that is assigned and not among these.
    pub fn first_assigned(self, inside: &NumberSet) -> Option<u32>
        ensures { result ≡ least (without inside.now self.assigned) }
    {
        let Touched {
            used: _,
            mut assigned,
            declared: _,
        } = self;
        assigned.remove(inside);
        assigned.first()
    }

    /// What two parts declare.
    pub fn all_declared(self, other: Touched) -> Result<NumberSet, AllocError>
        ensures { IfOk result (λ declared. declared ≡ union self.declared other.declared) }
    {
        let Touched {
            used: _,
            assigned: _,
            declared: first,
        } = self;
        let Touched {
            used: _,
            assigned: _,
            declared: mut second,
        } = other;
        second.join(&first)?;
        Ok(second)
    }

    /// What a call touches of a body: the variables at the top alone.
    pub fn seen_outside(self, alloc: Global, top: &NumberSet) -> Touched
        ensures { result ≡ seen_from_outside top.now self }
    {
        let Touched {
            mut used,
            mut assigned,
            declared: _,
        } = self;
        used.keep(top);
        assigned.keep(top);
        let declared = NumberSet::new(alloc);
        Touched {
            used,
            assigned,
            declared,
        }
    }

    /// What is used.
    pub fn into_used(self) -> NumberSet
        ensures { result ≡ self.used }
    {
        let Touched {
            used,
            assigned: _,
            declared: _,
        } = self;
        used
    }

    /// What is assigned.
    pub fn into_assigned(self) -> NumberSet
        ensures { result ≡ self.assigned }
    {
        let Touched {
            used: _,
            assigned,
            declared: _,
        } = self;
        assigned
    }

    /// What is declared.
    pub fn into_declared(self) -> NumberSet
        ensures { result ≡ self.declared }
    {
        let Touched {
            used: _,
            assigned: _,
            declared,
        } = self;
        declared
    }
}

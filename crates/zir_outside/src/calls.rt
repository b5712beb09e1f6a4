//! Counts the calls of an object in memory, and lets those fail that are listed.

ghost use Rattle.std.specs.Prelude.{◌≡◌, ◌≤◌, true};
ghost use Rattle.zir_outside.specs.Calls.{IsFresh, is_next_listed, MadeOne};
ghost use Rattle.zir_outside.specs.Causes.{one_more};

/// The calls made so far, those that are to fail, and how many failed.
#[derive(Debug, Drop)]
pub struct Calls {
    pub listed: Vec<u64>,
    pub made: u64,
    pub faults: u64,
}

impl Calls {
    /// No call was made yet. Calls are counted from 1.
    pub fn new(listed: Vec<u64>) -> Calls
        ensures { IsFresh result listed.items }
    {
        Calls {
            listed,
            made: 0,
            faults: 0,
        }
    }

    /// Counts one more call and says whether it is to fail.
    pub fn next_fails(&mut self) -> bool
        ensures listed { result ≡ is_next_listed self.old }
        ensures counted { MadeOne self.old self.new result }
        ensures later { self.old.faults ≤ self.new.faults }
    {
        self.made = self.made.saturating_add(1);
        let fails = self.listed.contains(&self.made);
        if fails {
            self.raise();
        }
        fails
    }

    /// Counts a fault.
    pub fn raise(&mut self)
        ensures raised { self.new ≡ record self.old { faults = one_more self.old.faults } }
        ensures later { self.old.faults ≤ self.new.faults }
    {
        self.faults = self.faults.saturating_add(1);
    }
}

// How far a component has come.

ghost use Rattle.std.specs.Prelude.{◌≡◌, ◌+◌, ◌≤◌, ◌<◌, ◌^◌, Option, Some, None};

use zir_bit_tree::value::Val;
use zir_tree::place::Place;

/// Where a component stands.
#[derive(Clone, Copy, Debug)]
pub enum Focus {
    /// At its beginning.
    Begin,
    /// It ended with this value.
    Ended(Val),
    /// This output waits.
    Giving(Val),
    /// Its output was taken out.
    Given,
    /// Its budget is spent.
    Spent,
}

/// Where a component stands, the elements that it took, and the ticks that it used and has left.
#[derive(Drop)]
pub struct Progress {
    pub focus: Focus,
    pub taken: u64,
    pub ticks: u64,
    pub left: u64,
    pub ghost counted: { taken ≤ ticks },
    pub ghost bounded: { ticks + left < 2 ^ 62 },
}

/// Elements taken and ticks used when an output was given.
#[derive(Drop)]
pub struct Base {
    pub taken: u64,
    pub ticks: u64,
    pub ghost counted: { taken ≤ ticks },
    pub ghost bounded: { ticks < 2 ^ 62 },
}

/// Which sides of a composition wait for an element.
#[derive(Clone, Copy, Debug, PartialEq, Eq)]
pub enum Waits {
    /// The right side works.
    Neither,
    /// The right side waits for the left one, which works or has an output that waits.
    Right,
    /// The left side waits for an element of the whole.
    Both,
}

/// Which part of a block runs, how many variables were in scope when the block began, and the block's place.
#[derive(Clone, Copy, Debug)]
pub struct Span {
    pub at: usize,
    pub base: usize,
    pub place: Place,
}

impl Progress {
    ghost use Rattle.zir_machine.specs.Standing.{Ticks, Takes, Rises, is_going, ended_value, given_value};

    /// One tick, or the end of the budget.
    pub fn tick(&mut self) -> bool
        ensures { Ticks result self.old self.new }
    {
        if self.left == 0 {
            self.focus = Focus::Spent;
            false
        } else {
            self.left -= 1;
            self.ticks += 1;
            true
        }
    }

    /// One tick with an element, which the component ends with, or the end of the budget.
    pub fn take(&mut self, element: Val) -> bool
        ensures { Takes result element self.old self.new }
    {
        if self.tick() {
            self.taken += 1;
            self.focus = Focus::Ended(element);
            true
        } else {
            false
        }
    }

    /// The value that the component ended with.
    pub fn value(&self) -> Val
        ensures { result ≡ ended_value self.now.focus }
    {
        match self.focus {
            Focus::Ended(v) => v,
            _ => Val::Unit,
        }
    }

    /// The output that waits, if one does.
    pub fn output(&self) -> Option<Val>
        ensures { result ≡ given_value self.now.focus }
    {
        match self.focus {
            Focus::Giving(v) => Some(v),
            _ => None,
        }
    }

    /// Stands at the beginning of a component, with these counts.
    pub fn begin(&mut self, taken: u64, ticks: u64, left: u64)
        requires counted { taken ≤ ticks }
        requires bounded { ticks + left < 2 ^ 62 }
        ensures focus { self.new.focus ≡ Focus.Begin }
        ensures taken { self.new.taken ≡ taken }
        ensures ticks { self.new.ticks ≡ ticks }
        ensures left { self.new.left ≡ left }
    {
        *self = Progress {
            focus: Focus::Begin,
            taken,
            ticks,
            left,
        };
    }

    /// All ticks, used and left.
    pub fn limit(&self) -> u64
        ensures { result ≡ self.now.ticks + self.now.left }
    {
        self.ticks + self.left
    }

    /// Stands at these counts, or at the end of the budget where they pass it.
    pub fn rise(&mut self, taken: u64, ticks: u64) -> bool
        requires counted { taken ≤ ticks }
        ensures { Rises result taken ticks self.old self.new }
    {
        let limit = self.limit();
        if ticks <= limit {
            self.taken = taken;
            self.left = limit - ticks;
            self.ticks = ticks;
            true
        } else {
            self.focus = Focus::Spent;
            false
        }
    }

    /// Whether a composition goes on: it is at its beginning, or its output was taken out.
    pub fn goes(&self) -> bool
        ensures { result ≡ is_going self.now.focus }
    {
        match self.focus {
            Focus::Begin | Focus::Given => true,
            Focus::Ended(_) | Focus::Giving(_) | Focus::Spent => false,
        }
    }
}

// What a stage comes to.

use zir_tree::ends::{Stamp, Trap};

/// An output: so many cells from an index on, the elements that were taken before it, and the ticks.
#[derive(Clone, Copy)]
pub struct Offer {
    pub at: usize,
    pub cells: u32,
    pub stamp: Stamp,
}

/// What a stage comes to, with the elements taken and the ticks at its point.
#[derive(Clone, Copy)]
pub enum Event {
    Gives(Offer),
    /// It needs an element.
    Needs(Stamp),
    /// It has ended with a value.
    Ends(Stamp),
    Traps(Trap, Stamp),
    /// No tick is left, or no call may come.
    Gone,
}

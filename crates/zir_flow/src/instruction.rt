// Flat code of components. Cells are counted from the base of the body that runs; places in the code are counted from the next instruction, but for those
// of instances.

use sqlite_items::Items;
use zir_expr::frame::Spot;
use zir_expr::steps::Step;
use zir_shared::Shared;

/// A series of elements or outputs of one size, one behind the other: the cell that counts those that have come, where they stand, and how many they are.
#[derive(Clone, Copy, Debug, PartialEq, Eq)]
pub struct Series {
    pub counter: u32,
    pub from: Spot,
    pub size: u32,
    pub count: u32,
}

/// Cells that the left side of a composition brings back.
#[derive(Clone, Copy, Debug, PartialEq, Eq)]
pub struct Back {
    pub at: Spot,
    pub cells: u32,
}

/// A composition: its left side's code comes next, so many instructions further on that of its right side, and so many further on what follows it. So many cells
/// are in scope where it begins; behind them its value stands at the end. The left side works on a copy, of which it brings some back.
#[derive(Drop)]
pub struct Joint {
    pub right: u32,
    pub behind: u32,
    pub scope: u32,
    pub value: u32,
    pub back: Items<Back>,
}

/// An instruction.
#[derive(Drop)]
pub enum Instruction {
    /// Straight code.
    Run(Items<Step>),
    /// A tick.
    Tick,
    /// An element, whose cells go to those from here on.
    Take(u32),
    /// One more element of a series, or so many instructions further on where all have come.
    Takes(Series, u32),
    /// So many cells from a spot on, as an output.
    Give(Spot, u32),
    /// A tick and one more output of a series, and again, until all have come.
    Gives(Series),
    /// So many instructions further on.
    Ahead(u32),
    /// So many instructions back, from this one.
    Again(u32),
    /// So many instructions further on where the cell is set, or where it is not.
    Branch(Spot, bool, u32),
    /// One turn fewer in a cell, or so many instructions further on where none is left.
    Turn(u32, u32),
    /// The body of an instance at a place of the code; its cells begin at this one.
    Enter(u32, u32),
    /// Back behind the call of the body that runs.
    Leave,
    /// A composition.
    Pipe(Shared<Joint>),
    /// The end of a side, or of the program.
    Stop,
}

/// Where a call of an instance goes on: a place in the code, and the base of the body that called.
#[derive(Clone, Copy, Debug, PartialEq, Eq)]
pub struct Caller {
    pub place: usize,
    pub base: usize,
}

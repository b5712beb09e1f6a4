// What has been made so far, and where it stands.

ghost use Rattle.std.specs.Prelude.{◌<◌};

use crate::extent::Extent;
use sqlite_items::Items;
use zir_code::scope::Holder;
use zir_expr::frame::Spot;
use zir_expr::steps::Step;

/// The code of an expression, where its value then stands, and the first cell behind all that the code uses.
#[derive(Drop)]
pub struct Made {
    pub steps: Items<Step>,
    pub at: Spot,
    pub peak: u32,
}

/// The code of statements, the first free cell behind them, and the first cell behind all that the code uses.
#[derive(Drop)]
pub struct Written {
    pub steps: Items<Step>,
    pub free: u32,
    pub peak: u32,
}

/// The first free cell behind a statement, and the first cell behind all that its code uses.
#[derive(Clone, Copy)]
pub struct Reach {
    pub free: u32,
    pub peak: u32,
}

/// The code of statements in a scope of their own, and the first cell behind all that it uses.
#[derive(Drop)]
pub struct Block {
    pub steps: Items<Step>,
    pub peak: u32,
}

/// The variables of parameters, and the first free cell behind them.
#[derive(Drop)]
pub struct Parameters {
    pub holders: Vec<Holder>,
    pub free: u32,
}

/// The cell of the number of turns of a loop, behind that of its index, and the first cell behind all that the code of
/// both uses.
#[derive(Clone, Copy)]
pub struct Range {
    pub next: u32,
    pub peak: u32,
}

/// Where the value of an expression stands after its code, its type, its cells, of which a number above 2^64 - 1 counts
/// as that, and the first cell behind all that the code uses.
#[derive(Drop)]
pub struct Placed {
    pub at: Spot,
    pub ty: Extent,
    pub cells: u64,
    pub peak: u32,
}

/// The type of the first of arguments, unit where there is none, and the first cell behind all that their code uses.
#[derive(Drop)]
pub struct Arguments {
    pub first: Extent,
    pub peak: u32,
}

/// A value that stands in cells without code, and its type.
#[derive(Drop)]
pub struct Standing {
    pub at: Spot,
    pub ty: Extent,
}

/// A place that indexes lead to: the spot that its offset counts from, the cell that holds the offset, the type of what
/// stands there, and the first cell behind all that the code uses.
#[derive(Drop)]
pub struct Path {
    pub root: Spot,
    pub offset: u32,
    pub ty: Extent,
    pub peak: u32,
    ghost within: { offset < peak },
}

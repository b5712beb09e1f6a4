// How a component ends.

use crate::value::Val;
use zir_tree::ends::Trap;

/// How a component ends.
#[derive(Clone, Copy, Debug)]
pub enum End {
    /// With its control value.
    Value(Val),
    /// It needs an element, and there is none.
    Starved,
    /// An expression has no value.
    Trap(Trap),
    /// Its budget of ticks is used up.
    Spent,
}

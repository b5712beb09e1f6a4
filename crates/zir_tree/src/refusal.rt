// Why a text is refused.

use crate::name::Name;
use crate::place::Place;

/// What passes a limit.
#[derive(Clone, Copy, Debug, PartialEq, Eq)]
pub enum LimitKind {
    /// An array length, slice length or count of `takes` is outside 1 to 4,096.
    Length,
    /// A type has more than 65,536 cells.
    Cells,
    /// A stream element has more than 4,096 cells.
    Element,
    /// Calls are more than 16 deep.
    Depth,
    /// A program needs more than 1,048,576 cells.
    Need,
    /// A chain has more than 16 operands.
    Stages,
    /// There are more than 256 instances.
    Instances,
}

/// Why a text is refused, and where.
#[derive(Debug, Drop)]
pub enum Refusal {
    /// The text has more than 65,536 bytes.
    TooLong,
    /// A byte begins no token.
    BadByte(Place),
    /// A number is above 2^63, has no digit, or a letter follows it at once.
    BadNumber(Place),
    /// With this token no program begins.
    Syntax(Place),
    /// From this token on every program is higher than 64.
    TooDeep(Place),
    /// No declaration of the kind that is needed is in scope.
    Unknown(Place),
    /// A name is declared twice.
    Twice(Place),
    /// A body or a struct names itself.
    Recursive(Place),
    /// Types differ.
    Mismatch(Place),
    /// Both sides of a composition are computers.
    TwoComputers(Place),
    /// The body of a loop is not a computer of unit.
    NotUnit(Place),
    /// A component that goes on for ever stands where one should end.
    NotComputer(Place),
    /// A type cannot be that of a stream.
    NotStreamType(Place),
    /// One side of a composition assigns a variable that the other uses.
    Shared(Name, Place),
    /// A `|>>>|` stands where no chain may be split.
    SplitPlace(Place),
    /// A stage before the last assigns an outer variable.
    OuterAssign(Name, Place),
    /// A limit is passed.
    Limit(LimitKind, Place),
    /// A form that nothing runs yet.
    Unbuilt(Place),
    /// Memory was refused.
    Memory,
}

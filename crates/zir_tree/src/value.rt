// Values, and the variables that hold them.

use sqlite_items::Items;

/// A value of the language.
#[derive(Debug, Drop)]
pub enum Val {
    /// `()`.
    Unit,
    /// `'0` or `'1`.
    Bit(bool),
    /// `false` or `true`.
    Bool(bool),
    /// A whole number.
    Num(i64),
    /// A complex number: its real and its imaginary part.
    Pair(i32, i32),
    /// The elements of an array, or the fields of a struct.
    List(Items<Val>),
}

/// A variable or a bound name, by the number of its declaration, with its value.
#[derive(Debug, Drop)]
pub struct Slot {
    pub id: u32,
    pub value: Val,
}

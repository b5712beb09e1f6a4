// Values, and the variables that hold them.

/// A value of the language.
#[derive(Clone, Copy, Debug)]
pub enum Val {
    /// `()`.
    Unit,
    /// `'0` or `'1`.
    Bit(bool),
}

/// A variable or a bound name, by the number of its declaration, with its value.
#[derive(Clone, Copy, Debug)]
pub struct Slot {
    pub id: u32,
    pub value: Val,
}

// What a worker answers.

/// What a piece of work came to.
#[derive(Clone, Copy, Debug, PartialEq, Eq)]
pub enum Answer {
    /// An output waits.
    Yield,
    /// Work was done, and there is more to do.
    Skip,
    /// The component ended with its value.
    Done,
    /// The component needs an element.
    Need,
    /// The component ended in a trap, or its budget is spent.
    Stopped,
}

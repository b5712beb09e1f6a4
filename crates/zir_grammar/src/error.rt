// Why tokens are no program.

/// Why tokens were not read, with the number of the tokens before the wrong one.
#[derive(Clone, Copy, Debug, PartialEq, Eq)]
pub enum ParseError {
    /// With this token no program goes on; behind the last token: the tokens are no whole program.
    Syntax(usize),
    /// With this token programs go on, but none whose height is at most 64.
    TooDeep(usize),
    /// Memory was refused.
    Memory,
}

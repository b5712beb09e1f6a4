// What a token is.

use zir_tree::name::Name;
use zir_tree::place::Place;

/// A word that is no name.
#[derive(Clone, Copy, Debug, PartialEq, Eq)]
pub enum Keyword {
    Arr,
    Bit,
    Bool,
    Comp,
    Complex16,
    Complex32,
    Do,
    Else,
    Emit,
    Emits,
    Error,
    False,
    Filter,
    For,
    Fun,
    If,
    In,
    Int,
    Int8,
    Int16,
    Int32,
    Int64,
    Let,
    Map,
    Not,
    Read,
    Repeat,
    Return,
    Struct,
    Take,
    Takes,
    Then,
    Times,
    True,
    Try,
    Until,
    Var,
    Viterbi,
    While,
    With,
    Write,
}

/// A sign.
#[derive(Clone, Copy, Debug, PartialEq, Eq)]
pub enum Symbol {
    /// `|>>>|`
    ParallelPipe,
    /// `>>>`
    Pipe,
    /// `>>`
    ShiftRight,
    /// `<<`
    ShiftLeft,
    /// `<-`
    LeftArrow,
    /// `<=`
    LessEqual,
    /// `>=`
    GreaterEqual,
    /// `==`
    EqualEqual,
    /// `!=`
    NotEqual,
    /// `:=`
    Assign,
    /// `&&`
    AndAnd,
    /// `||`
    OrOr,
    /// `(`
    LeftParenthesis,
    /// `)`
    RightParenthesis,
    /// `{`
    LeftBrace,
    /// `}`
    RightBrace,
    /// `[`
    LeftBracket,
    /// `]`
    RightBracket,
    /// `,`
    Comma,
    /// `;`
    Semicolon,
    /// `:`
    Colon,
    /// `.`
    Dot,
    /// `=`
    Equal,
    /// `<`
    Less,
    /// `>`
    Greater,
    /// `+`
    Plus,
    /// `-`
    Minus,
    /// `*`
    Star,
    /// `/`
    Slash,
    /// `%`
    Percent,
    /// `&`
    Ampersand,
    /// `|`
    Bar,
    /// `^`
    Caret,
    /// `~`
    Tilde,
}

/// A token's kind and value.
#[derive(Debug, Drop)]
pub enum Lexeme {
    /// A name: a letter or `_`, then letters, digits and `_`.
    Name(Name),
    Keyword(Keyword),
    /// A whole number, at most 2^63.
    Int(u64),
    /// `'0` or `'1`.
    Bit(bool),
    /// The bytes between the quotes.
    Text(Name),
    Symbol(Symbol),
}

/// A token, with the place of its first byte.
#[derive(Debug, Drop)]
pub struct Token {
    pub lexeme: Lexeme,
    pub at: Place,
}

// What encloses a list of fields or of expressions.

ghost use Rattle.std.specs.Prelude.{◌≡◌};
ghost use Rattle.zir_grammar.specs.Enclosures.{closing_of, between_of};

use zir_lex::token::Symbol;

/// What encloses a list.
#[derive(Clone, Copy, Debug, PartialEq, Eq)]
pub enum Enclosure {
    /// `(` and `)`: parameters with `,` between them.
    Parentheses,
    /// `{` and `}`: the fields of a struct with `;` between them.
    Braces,
}

/// The sign at the end of a list.
pub fn closing(enclosure: Enclosure) -> Symbol
    ensures { result ≡ closing_of enclosure }
{
    match enclosure {
        Enclosure::Parentheses => Symbol::RightParenthesis,
        Enclosure::Braces => Symbol::RightBrace,
    }
}

/// The sign between two fields.
pub fn between(enclosure: Enclosure) -> Symbol
    ensures { result ≡ between_of enclosure }
{
    match enclosure {
        Enclosure::Parentheses => Symbol::Comma,
        Enclosure::Braces => Symbol::Semicolon,
    }
}

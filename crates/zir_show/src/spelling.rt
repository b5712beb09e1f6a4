// The spellings of keywords and signs.

ghost use Rattle.std.specs.Prelude.{◌≡◌};
ghost use Rattle.zir_lex.specs.Tables.{keyword_bytes, symbol_bytes};

use zir_lex::token::{Keyword, Symbol};

/// The letters of a keyword.
pub fn keyword_spelling(keyword: Keyword) -> &'static str
    ensures { result.now ≡ keyword_bytes keyword }
{
    match keyword {
        Keyword::Arr => "arr",
        Keyword::Bit => "bit",
        Keyword::Bool => "bool",
        Keyword::Comp => "comp",
        Keyword::Complex16 => "complex16",
        Keyword::Complex32 => "complex32",
        Keyword::Do => "do",
        Keyword::Else => "else",
        Keyword::Emit => "emit",
        Keyword::Emits => "emits",
        Keyword::Error => "error",
        Keyword::False => "false",
        Keyword::Filter => "filter",
        Keyword::For => "for",
        Keyword::Fun => "fun",
        Keyword::If => "if",
        Keyword::In => "in",
        Keyword::Int => "int",
        Keyword::Int8 => "int8",
        Keyword::Int16 => "int16",
        Keyword::Int32 => "int32",
        Keyword::Int64 => "int64",
        Keyword::Let => "let",
        Keyword::Map => "map",
        Keyword::Not => "not",
        Keyword::Read => "read",
        Keyword::Repeat => "repeat",
        Keyword::Return => "return",
        Keyword::Struct => "struct",
        Keyword::Take => "take",
        Keyword::Takes => "takes",
        Keyword::Then => "then",
        Keyword::Times => "times",
        Keyword::True => "true",
        Keyword::Try => "try",
        Keyword::Until => "until",
        Keyword::Var => "var",
        Keyword::Viterbi => "viterbi",
        Keyword::While => "while",
        Keyword::With => "with",
        Keyword::Write => "write",
    }
}

/// The bytes of a sign.
pub fn symbol_spelling(symbol: Symbol) -> &'static str
    ensures { result.now ≡ symbol_bytes symbol }
{
    match symbol {
        Symbol::ParallelPipe => "|>>>|",
        Symbol::Pipe => ">>>",
        Symbol::ShiftRight => ">>",
        Symbol::ShiftLeft => "<<",
        Symbol::LeftArrow => "<-",
        Symbol::LessEqual => "<=",
        Symbol::GreaterEqual => ">=",
        Symbol::EqualEqual => "==",
        Symbol::NotEqual => "!=",
        Symbol::Assign => ":=",
        Symbol::AndAnd => "&&",
        Symbol::OrOr => "||",
        Symbol::LeftParenthesis => "(",
        Symbol::RightParenthesis => ")",
        Symbol::LeftBrace => "{",
        Symbol::RightBrace => "}",
        Symbol::LeftBracket => "[",
        Symbol::RightBracket => "]",
        Symbol::Comma => ",",
        Symbol::Semicolon => ";",
        Symbol::Colon => ":",
        Symbol::Dot => ".",
        Symbol::Equal => "=",
        Symbol::Less => "<",
        Symbol::Greater => ">",
        Symbol::Plus => "+",
        Symbol::Minus => "-",
        Symbol::Star => "*",
        Symbol::Slash => "/",
        Symbol::Percent => "%",
        Symbol::Ampersand => "&",
        Symbol::Bar => "|",
        Symbol::Caret => "^",
        Symbol::Tilde => "~",
    }
}

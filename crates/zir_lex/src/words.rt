// Names and keywords.

ghost use Rattle.std.specs.Prelude.{◌≡◌, ◌≢◌, IsTrue, MatchOption, slice_index, length, ◌<◌};
ghost use Rattle.zir_lex.specs.declared.token.Keyword.{Keyword};
ghost use Rattle.zir_lex.specs.Classes.{is_letter};
ghost use Rattle.zir_lex.specs.Tables.{keyword_bytes};
ghost use Rattle.zir_lex.specs.Fronts.{Reads};

use crate::classes::word_len;
use crate::front::{Front, FrontError};
use crate::token::{Keyword, Lexeme};
use std::alloc::Global;
use zir_tree::name::Name;

/// The keyword that these bytes spell.
pub fn keyword_of(word: &[u8]) -> Option<Keyword>
    ensures { MatchOption result
        ((keyword : Keyword) → keyword_bytes keyword ≢ word.now)
        (λ keyword. keyword_bytes keyword ≡ word.now) }
{
    match word {
        b"arr" => Some(Keyword::Arr),
        b"bit" => Some(Keyword::Bit),
        b"bool" => Some(Keyword::Bool),
        b"comp" => Some(Keyword::Comp),
        b"complex16" => Some(Keyword::Complex16),
        b"complex32" => Some(Keyword::Complex32),
        b"do" => Some(Keyword::Do),
        b"else" => Some(Keyword::Else),
        b"emit" => Some(Keyword::Emit),
        b"emits" => Some(Keyword::Emits),
        b"error" => Some(Keyword::Error),
        b"false" => Some(Keyword::False),
        b"filter" => Some(Keyword::Filter),
        b"for" => Some(Keyword::For),
        b"fun" => Some(Keyword::Fun),
        b"if" => Some(Keyword::If),
        b"in" => Some(Keyword::In),
        b"int" => Some(Keyword::Int),
        b"int8" => Some(Keyword::Int8),
        b"int16" => Some(Keyword::Int16),
        b"int32" => Some(Keyword::Int32),
        b"int64" => Some(Keyword::Int64),
        b"let" => Some(Keyword::Let),
        b"map" => Some(Keyword::Map),
        b"not" => Some(Keyword::Not),
        b"read" => Some(Keyword::Read),
        b"repeat" => Some(Keyword::Repeat),
        b"return" => Some(Keyword::Return),
        b"struct" => Some(Keyword::Struct),
        b"take" => Some(Keyword::Take),
        b"takes" => Some(Keyword::Takes),
        b"then" => Some(Keyword::Then),
        b"times" => Some(Keyword::Times),
        b"true" => Some(Keyword::True),
        b"try" => Some(Keyword::Try),
        b"until" => Some(Keyword::Until),
        b"var" => Some(Keyword::Var),
        b"viterbi" => Some(Keyword::Viterbi),
        b"while" => Some(Keyword::While),
        b"with" => Some(Keyword::With),
        b"write" => Some(Keyword::Write),
        _ => None,
    }
}

/// The name or keyword at the front of a text that begins with a letter.
pub fn read_word(alloc: Global, text: &[u8]) -> Result<Front, FrontError>
    requires some { 0 < length text.now }
    requires letter { IsTrue (is_letter (slice_index text.now 0)) }
    ensures { Reads result text.now }
{
    let len = word_len(text);
    let word = &text[..len];
    match keyword_of(word) {
        Some(keyword) => Ok(Front {
            lexeme: Some(Lexeme::Keyword(keyword)),
            len,
        }),
        None => {
            let name = Name::from_slice(alloc, word)?;
            Ok(Front {
                lexeme: Some(Lexeme::Name(name)),
                len,
            })
        }
    }
}

// Comments, signs, bits and strings.

ghost use Rattle.std.specs.Prelude.{◌≡◌, ◌≢◌, ◌∷◌, [], ◌<◌, IsTrue, IsFalse, MatchOption, slice_index, length};
ghost use Rattle.zir_lex.specs.declared.token.Symbol.{Symbol};
ghost use Rattle.zir_lex.specs.Tables.{symbol_bytes};
ghost use Rattle.zir_lex.specs.Fronts.{Reads, kind_of, OfSign, HasNoSign, IsLongestSign};

use crate::classes::{line_len, string_len};
use crate::front::{Front, FrontError};
use crate::token::{Lexeme, Symbol};
use std::alloc::Global;
use zir_tree::name::Name;

/// The sign of one byte.
fn one_byte(byte: u8) -> Option<Symbol>
    ensures { MatchOption result
        ((symbol : Symbol) → symbol_bytes symbol ≢ byte ∷ [])
        (λ symbol. symbol_bytes symbol ≡ byte ∷ []) }
{
    match byte {
        b'(' => Some(Symbol::LeftParenthesis),
        b')' => Some(Symbol::RightParenthesis),
        b'{' => Some(Symbol::LeftBrace),
        b'}' => Some(Symbol::RightBrace),
        b'[' => Some(Symbol::LeftBracket),
        b']' => Some(Symbol::RightBracket),
        b',' => Some(Symbol::Comma),
        b';' => Some(Symbol::Semicolon),
        b':' => Some(Symbol::Colon),
        b'.' => Some(Symbol::Dot),
        b'=' => Some(Symbol::Equal),
        b'<' => Some(Symbol::Less),
        b'>' => Some(Symbol::Greater),
        b'+' => Some(Symbol::Plus),
        b'-' => Some(Symbol::Minus),
        b'*' => Some(Symbol::Star),
        b'/' => Some(Symbol::Slash),
        b'%' => Some(Symbol::Percent),
        b'&' => Some(Symbol::Ampersand),
        b'|' => Some(Symbol::Bar),
        b'^' => Some(Symbol::Caret),
        b'~' => Some(Symbol::Tilde),
        _ => None,
    }
}

/// The sign of two bytes.
fn two_bytes(first: u8, second: u8) -> Option<Symbol>
    ensures { MatchOption result
        ((symbol : Symbol) → symbol_bytes symbol ≢ first ∷ second ∷ [])
        (λ symbol. symbol_bytes symbol ≡ first ∷ second ∷ []) }
{
    match (first, second) {
        (b'>', b'>') => Some(Symbol::ShiftRight),
        (b'<', b'<') => Some(Symbol::ShiftLeft),
        (b'<', b'-') => Some(Symbol::LeftArrow),
        (b'<', b'=') => Some(Symbol::LessEqual),
        (b'>', b'=') => Some(Symbol::GreaterEqual),
        (b'=', b'=') => Some(Symbol::EqualEqual),
        (b'!', b'=') => Some(Symbol::NotEqual),
        (b':', b'=') => Some(Symbol::Assign),
        (b'&', b'&') => Some(Symbol::AndAnd),
        (b'|', b'|') => Some(Symbol::OrOr),
        _ => None,
    }
}

/// The longest sign at the front of a text, with the number of its bytes.
fn symbol_at(text: &[u8]) -> Option<(Symbol, usize)>
    requires { 0 < length text.now }
    ensures { MatchOption result (HasNoSign text.now) (λ found. IsLongestSign found.0 found.1 text.now) }
{
    if text.starts_with(b"|>>>|") {
        return Some((Symbol::ParallelPipe, 5));
    }
    if text.starts_with(b">>>") {
        return Some((Symbol::Pipe, 3));
    }
    if text.len() > 1 {
        if let Some(symbol) = two_bytes(text[0], text[1]) {
            return Some((symbol, 2));
        }
    }
    match one_byte(text[0]) {
        Some(symbol) => Some((symbol, 1)),
        None => None,
    }
}

/// The comment or the sign at the front of a text.
pub fn read_sign(text: &[u8]) -> Result<Front, FrontError>
    requires some { 0 < length text.now }
    requires kind { kind_of (slice_index text.now 0) ≡ OfSign }
    ensures { Reads result text.now }
{
    if text.starts_with(b"--") {
        let len = 2 + line_len(&text[2..]);
        return Ok(Front { lexeme: None, len });
    }
    match symbol_at(text) {
        Some((symbol, len)) => Ok(Front {
            lexeme: Some(Lexeme::Symbol(symbol)),
            len,
        }),
        None => Err(FrontError::BadByte),
    }
}

/// The bit at the front of a text that begins with `'`.
pub fn read_bit(text: &[u8]) -> Result<Front, FrontError>
    requires some { 0 < length text.now }
    requires quote { slice_index text.now 0 ≡ 39 }
    ensures { Reads result text.now }
{
    match text.get(1) {
        Some(b'0') => Ok(Front {
            lexeme: Some(Lexeme::Bit(false)),
            len: 2,
        }),
        Some(b'1') => Ok(Front {
            lexeme: Some(Lexeme::Bit(true)),
            len: 2,
        }),
        _ => Err(FrontError::BadByte),
    }
}

/// The string at the front of a text that begins with `"`.
pub fn read_string(alloc: Global, text: &[u8]) -> Result<Front, FrontError>
    requires some { 0 < length text.now }
    requires quote { slice_index text.now 0 ≡ 34 }
    ensures { Reads result text.now }
{
    let inside = &text[1..];
    let len = string_len(inside);
    if !has_quote(inside, len) {
        return Err(FrontError::BadByte);
    }
    let string = Name::from_slice(alloc, &inside[..len])?;
    Ok(Front {
        lexeme: Some(Lexeme::Text(string)),
        len: len + 2,
    })
}

/// Whether a `"` stands at the offset.
fn has_quote(text: &[u8], at: usize) -> bool
    ensures yes { IsTrue result → (at < length text.now) × (slice_index text.now at ≡ 34) }
    ensures none { IsFalse result → at < length text.now → slice_index text.now at ≢ 34 }
{
    at < text.len() && text[at] == b'"'
}

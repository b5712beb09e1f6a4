// From a text to its tokens.

ghost use Rattle.std.specs.Prelude.{◌≡◌, ◌≢◌, ◌<◌, ◌≤◌, ◌⊎◌, ◌++◌, ℕ, List, length, IfOk, IfErr, OnOk, IsErrOf, MatchResult};
ghost use Rattle.zir_lex.specs.declared.token.Token.{Token};
ghost use Rattle.zir_lex.specs.Tokens.{Lexes, EndsAt, BadByteAt, BadNumberAt, IsRefusal};
ghost use Rattle.zir_lex.specs.Laws.{HasOneList, HasOneEnd, HasNoFault, HasOneFault};
ghost use Rattle.zir_lex.specs.Fronts.{refusal_at, tokens_at, end_at};

use crate::front::{Front, FrontError, read_front};
use crate::places::place_past;
use crate::token::{Lexeme, Token};
use std::alloc::Global;
use thiserror::Error;
use zir_tree::place::Place;

/// The greatest length of a text in bytes.
pub const LONGEST_TEXT: usize = 65_536;

/// Why a text has no tokens. The offsets count bytes from 0.
#[derive(Clone, Copy, Debug, PartialEq, Eq, Error)]
pub enum LexError {
    /// The text has more than 65,536 bytes.
    #[error("the text has more than 65536 bytes")]
    TooLong,
    /// A byte that begins no token, a `'` without its bit, or the `"` of a string that does not end.
    #[error("a byte begins no token")]
    BadByte(u32),
    /// A number above 2^63, without a digit after its `0x`, or followed by a letter, a digit or `_`.
    #[error("a number is not well written")]
    BadNumber(u32),
    /// Memory ran out.
    #[error("out of memory")]
    Memory,
}

/// The tokens of a text.
#[derive(Debug, Drop)]
pub struct Lexed {
    pub tokens: Vec<Token>,
    /// The place after the last byte of the last token, and 1:1 without tokens.
    pub end: Place,
}

/// The tokens of a text: the spellings by longest match, with white space and comments between.
/// `TooLong` comes exactly where the text has more than 65,536 bytes, and before the others.
/// `BadByte` and `BadNumber` come exactly where such a fault is the first in the text.
pub fn lex(alloc: Global, text: &[u8]) -> Result<Lexed, LexError>
    // What is answered are the tokens of the text, and where the last one ends.
    ensures ok { IfOk result (λ found. (length text.now ≤ 65536) × Lexes text.now found.tokens.items × EndsAt text.now found.end) }
    // Each refusal has its cause.
    ensures refused { IfErr result (λ error. IsRefusal error text.now) }
    // A text that is too long is always refused so.
    ensures too_long { 65536 < length text.now → IsErrOf result LexError.TooLong }
    // A text with tokens gives these, unless memory runs out.
    ensures only { (tokens : List Token) → length text.now ≤ 65536 → Lexes text.now tokens
        → MatchResult result (λ found. found.tokens.items ≡ tokens) (λ error. error ≡ LexError.Memory) }
    // A faulty text is refused with its fault, unless memory runs out.
    ensures bad_byte { (at : ℕ) → length text.now ≤ 65536 → BadByteAt text.now at
        → MatchResult result (λ _. ⊥) (λ error. (error ≡ LexError.BadByte at) ⊎ (error ≡ LexError.Memory)) }
    ensures bad_number { (at : ℕ) → length text.now ≤ 65536 → BadNumberAt text.now at
        → MatchResult result (λ _. ⊥) (λ error. (error ≡ LexError.BadNumber at) ⊎ (error ≡ LexError.Memory)) }
{
    if text.len() > LONGEST_TEXT {
        return Err(LexError::TooLong);
    }
    read_all(alloc, text)
}

/// A text has one reading: one list of tokens that ends at one place, or one first fault, and never both.
pub fn one_reading()
    ensures tokens { HasOneList }
    ensures end { HasOneEnd }
    ensures sound { HasNoFault }
    ensures faults { HasOneFault }
{}

/// The tokens of a text that is short enough, or its first fault.
fn read_all(alloc: Global, text: &[u8]) -> Result<Lexed, LexError>
    requires { length text.now ≤ 65536 }
    ensures ok { IfOk result (λ found. Lexes text.now found.tokens.items) }
    ensures end { IfOk result (λ found. EndsAt text.now found.end) }
    ensures refused { IfErr result (λ error. IsRefusal error text.now × (error ≢ LexError.TooLong)) }
{
    let mut tokens = Vec::new(alloc);
    let mut place = Place { line: 1, col: 1 };
    let mut end = place;
    let mut at = 0;
    while at < text.len() {
        let rest = &text[at..];
        let front = match read_front(alloc, rest) {
            Ok(front) => front,
            Err(error) => return Err(refusal(error, at as u32)),
        };
        let Front { lexeme, len } = front;
        let next = place_past(place, &rest[..len]);
        end = end_behind(end, next, &lexeme);
        add(&mut tokens, lexeme, place)?;
        place = next;
        at += len;
    }
    Ok(Lexed { tokens, end })
}

/// Where the last token ends, when a piece more ends at the place `next`.
fn end_behind(end: Place, next: Place, lexeme: &Option<Lexeme>) -> Place
    ensures { result ≡ end_at end next lexeme.now }
{
    match lexeme {
        Some(_) => next,
        None => end,
    }
}

/// The fault with its offset in the text.
fn refusal(error: FrontError, at: u32) -> LexError
    ensures { result ≡ refusal_at error at }
{
    match error {
        FrontError::BadByte => LexError::BadByte(at),
        FrontError::BadNumber => LexError::BadNumber(at),
        FrontError::Memory => LexError::Memory,
    }
}

/// Adds the token of a piece, where it has one.
fn add(tokens: &mut Vec<Token>, lexeme: Option<Lexeme>, at: Place) -> Result<(), LexError>
    ensures ok { OnOk result (tokens.new.items ≡ tokens.old.items ++ tokens_at at lexeme) }
    ensures memory { IfErr result (λ e. e ≡ LexError.Memory) }
{
    match lexeme {
        Some(lexeme) => match tokens.push(Token { lexeme, at }) {
            Ok(()) => Ok(()),
            Err(_) => Err(LexError::Memory),
        },
        None => Ok(()),
    }
}

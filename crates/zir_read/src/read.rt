// The tokens of a text and then the program that they are, with the places of what is wrong.

ghost use Rattle.std.specs.Prelude.{◌≡◌, ◌≤◌, ℕ, List, length};
ghost use Rattle.zir_grammar.specs.Claim.{Answers};
ghost use Rattle.zir_lex.specs.Tokens.{EndsAt, IsRefusal, Lexes};
ghost use Rattle.zir_read.specs.Reading.{IsReadAs, lex_refusal, parse_refusal, token_place};

use std::alloc::Global;
use zir_grammar::error::ParseError;
use zir_lex::lexer::{LexError, Lexed, lex};
use zir_lex::places::place_at;
use zir_lex::token::Token;
use zir_parse::program::parse;
use zir_tree::place::Place;
use zir_tree::program::Prog;
use zir_tree::refusal::Refusal;

/// The program that a text is. A text of more than 65,536 bytes is `TooLong`; else the first byte that begins no token or the first faulty number is
/// refused at its place; else the first token with which no program begins, or only programs higher than 64, at its
/// place, or where the last token ends if the tokens are the front of a program.
pub fn read_program(alloc: Global, text: &[u8]) -> Result<Prog, Refusal>
    ensures { IsReadAs text.now result }
{
    match lex(alloc, text) {
        Ok(found) => read_tokens(alloc, text, &found),
        Err(error) => Err(lex_fault(text, error)),
    }
}

/// The program that the tokens of a text are.
fn read_tokens(alloc: Global, text: &[u8], found: &Lexed) -> Result<Prog, Refusal>
    requires short { length text.now ≤ 65536 }
    requires lexes { Lexes text.now found.now.tokens.items }
    requires ends { EndsAt text.now found.now.end }
    ensures { IsReadAs text.now result }
{
    match parse(alloc, &found.tokens) {
        Ok(program) => Ok(program),
        Err(error) => Err(parse_fault(&found.tokens, found.end, error)),
    }
}

/// The refusal of a text without tokens.
fn lex_fault(text: &[u8], error: LexError) -> Refusal
    requires { IsRefusal error text.now }
    ensures { result ≡ lex_refusal text.now error }
{
    match error {
        LexError::TooLong => Refusal::TooLong,
        LexError::BadByte(at) => Refusal::BadByte(place_at(text, at)),
        LexError::BadNumber(at) => Refusal::BadNumber(place_at(text, at)),
        LexError::Memory => Refusal::Memory,
    }
}

/// The refusal of tokens that are no program.
fn parse_fault(tokens: &[Token], end: Place, error: ParseError) -> Refusal
    ensures { result ≡ parse_refusal tokens.now end error }
{
    match error {
        ParseError::Syntax(number) => Refusal::Syntax(place_of_token(tokens, end, number)),
        ParseError::TooDeep(number) => Refusal::TooDeep(place_of_token(tokens, end, number)),
        ParseError::Memory => Refusal::Memory,
    }
}

/// The place of the token of this number, and `end` where there are no more.
fn place_of_token(tokens: &[Token], end: Place, number: usize) -> Place
    ensures { result ≡ token_place tokens.now end number }
{
    if number < tokens.len() {
        tokens[number].at
    } else {
        end
    }
}

// Programs.

ghost use Rattle.std.specs.Prelude.{◌≡◌, ◌≤◌, ◌+◌, ℕ, Ok, length, true, nat_le, IfOk};
ghost use Rattle.zir_tree.specs.declared.types.TypeExpr.{TypeExpr as TypeValue};
ghost use Rattle.zir_tree.specs.declared.program.Prog.{Prog as ProgValue};
ghost use Rattle.zir_grammar.specs.Claim.{Answers};
ghost use Rattle.zir_grammar.specs.Wants as wants;
ghost use Rattle.zir_grammar.specs.Parts as parts;
ghost use Rattle.zir_grammar.specs.Machine.{least, run};
ghost use Rattle.zir_grammar.specs.Reading.{Leads};
ghost use Rattle.zir_parse.specs.Main.{a_type_in_brackets};

use crate::declarations::declarations;
use crate::main_chain::main_chain;
use std::alloc::Global;
use zir_grammar::error::ParseError;
use zir_grammar::stop::Stop;
use zir_grammar::types::type_expr;
use zir_grammar::wanted::{want_keyword, want_symbol};
use zir_grammar::words::{keyword, name};
use zir_lex::token::{Keyword, Symbol, Token};
use zir_tree::program::Prog;
use zir_tree::types::TypeExpr;

/// The greatest height of a program.
pub const MOST_LEVELS: usize = 64;

/// The program that the tokens are, or the first token that is wrong by the number of the tokens before it.
pub fn parse(alloc: Global, tokens: &[Token]) -> Result<Prog, ParseError>
    ensures { Answers 64 tokens.now result }
{
    match program(alloc, tokens) {
        Ok(program) => Ok(program),
        Err(Stop::Syntax(left)) => Err(ParseError::Syntax(tokens.len() - left)),
        Err(Stop::TooDeep(left)) => Err(ParseError::TooDeep(tokens.len() - left)),
        Err(Stop::Memory) => Err(ParseError::Memory),
    }
}

/// A program that is all of the tokens.
fn program(alloc: Global, tokens: &[Token]) -> Result<Prog, Stop>
    ensures { Leads (λ x. Ok x) result (run 64 parts.start tokens.now) }
{
    let (declarations, _low, rest) = declarations(alloc, MOST_LEVELS, tokens)?;
    let Some((at, rest)) = keyword(rest, Keyword::Let) else {
        return Err(Stop::Syntax(rest.len()));
    };
    let rest = want_keyword(rest, Keyword::Comp)?;
    let rest = want_main(rest)?;
    let rest = want_symbol(rest, Symbol::Equal)?;
    let rest = want_keyword(rest, Keyword::Read)?;
    let (input, rest) = bracketed_type(alloc, rest)?;
    let rest = want_symbol(rest, Symbol::Pipe)?;
    let (main, _height, rest) = main_chain(alloc, MOST_LEVELS, rest)?;
    match last_type(alloc, rest) {
        Ok(output) => Ok(Prog {
            declarations,
            input,
            main,
            output,
            at,
        }),
        Err(stop) => {
            drop(main);
            Err(stop)
        }
    }
}

/// The type in brackets that all of the tokens are.
fn last_type(alloc: Global, tokens: &[Token]) -> Result<TypeExpr, Stop>
    ensures { (most : ℕ) (f : TypeValue → ProgValue) (h : ℕ) → nat_le h most ≡ true
        → Leads (λ x. Ok (f x)) result (run most (a_type_in_brackets (λ t. parts.gives (f t) h)) tokens.now) }
{
    let (found, rest) = bracketed_type(alloc, tokens)?;
    if rest.is_empty() {
        Ok(found)
    } else {
        Err(Stop::Syntax(rest.len()))
    }
}

/// What follows the name `main`, which has to stand at the front.
fn want_main(tokens: &[Token]) -> Result<&[Token], Stop>
    ensures { (most : ℕ) (r : parts.Rest ProgValue) → nat_le (least r) most ≡ true
        → Leads (λ x. run most r x.now) result (run most (parts.wants wants.the_main (λ at. r)) tokens.now) }
{
    let Some((found, _, rest)) = name(tokens) else {
        return Err(Stop::Syntax(tokens.len()));
    };
    if found.as_slice() == b"main".as_slice() {
        Ok(rest)
    } else {
        Err(Stop::Syntax(tokens.len()))
    }
}

/// A type in brackets, and what follows it.
fn bracketed_type(alloc: Global, tokens: &[Token]) -> Result<(TypeExpr, &[Token]), Stop>
    ensures { (most : ℕ) (f : TypeValue → parts.Rest ProgValue) → ((t : TypeValue) → nat_le (least (f t)) most ≡ true)
        → Leads (λ x. run most (f x.0) x.1.now) result
        (run most (a_type_in_brackets f) tokens.now) }
{
    let rest = want_symbol(tokens, Symbol::LeftBracket)?;
    let (found, rest) = type_expr(alloc, rest)?;
    let rest = want_symbol(rest, Symbol::RightBracket)?;
    Ok((found, rest))
}

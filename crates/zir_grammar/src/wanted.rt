// Tokens that have to stand at the front.

ghost use Rattle.std.specs.Prelude.{◌≡◌, ◌+◌, ℕ, List, length, true, nat_le, IfOk};
ghost use Rattle.zir_tree.specs.declared.place.Place.{Place as PlaceValue};
ghost use Rattle.zir_tree.specs.declared.program.Prog.{Prog};
ghost use Rattle.zir_grammar.specs.Grammar as grammar;
ghost use Rattle.zir_grammar.specs.Wants as wants;
ghost use Rattle.zir_grammar.specs.Parts as parts;
ghost use Rattle.zir_grammar.specs.Machine.{least, run};
ghost use Rattle.zir_grammar.specs.Reading.{Leads};

use crate::stop::Stop;
use crate::words::{keyword, name, number, symbol};
use std::alloc::{AllocError, Global};
use zir_lex::token::{Keyword, Symbol, Token};
use zir_tree::ident::Ident;
use zir_tree::name::Name;
use zir_tree::place::Place;

/// What follows that sign, which has to stand at the front.
pub fn want_symbol(tokens: &[Token], wanted: Symbol) -> Result<&[Token], Stop>
    ensures read { (most : ℕ) (r : parts.Rest Prog) → nat_le (least r) most ≡ true
        → Leads (λ x. run most r x.now) result (run most (parts.wants_sign wanted r) tokens.now) }
    ensures rest { IfOk result (λ x. length tokens.now ≡ length x.now + 1) }
{
    match symbol(tokens, wanted) {
        Some((_, rest)) => Ok(rest),
        None => Err(Stop::Syntax(tokens.len())),
    }
}

/// What follows that word, which has to stand at the front.
pub fn want_keyword(tokens: &[Token], wanted: Keyword) -> Result<&[Token], Stop>
    ensures read { (most : ℕ) (r : parts.Rest Prog) → nat_le (least r) most ≡ true
        → Leads (λ x. run most r x.now) result (run most (parts.wants_word wanted r) tokens.now) }
    ensures rest { IfOk result (λ x. length tokens.now ≡ length x.now + 1) }
{
    match keyword(tokens, wanted) {
        Some((_, rest)) => Ok(rest),
        None => Err(Stop::Syntax(tokens.len())),
    }
}

/// The number that has to stand at the front, and what follows it.
pub fn want_number(tokens: &[Token]) -> Result<(u64, &[Token]), Stop>
    ensures read { (most : ℕ) (f : ℕ → parts.Rest Prog) → ((n : ℕ) → nat_le (least (f n)) most ≡ true)
        → Leads (λ x. run most (f x.0) x.1.now) result (run most (parts.wants wants.a_number (λ n. f n.0)) tokens.now) }
    ensures rest { IfOk result (λ x. length tokens.now ≡ length x.1.now + 1) }
{
    match number(tokens) {
        Some((found, _, rest)) => Ok((found, rest)),
        None => Err(Stop::Syntax(tokens.len())),
    }
}

/// A copy of a name at a place, which is not resolved yet.
pub fn ident(alloc: Global, name: &Name, at: Place) -> Result<Ident, AllocError>
    ensures { IfOk result (λ x. x ≡ grammar.ident name.now at) }
{
    let name = Name::from_slice(alloc, name.as_slice())?;
    let id = 0;
    Ok(Ident { name, id, at })
}

/// The name that has to stand at the front, and what follows it.
pub fn want_name(alloc: Global, tokens: &[Token]) -> Result<(Ident, &[Token]), Stop>
    ensures read { (most : ℕ) (f : List ℕ × PlaceValue → parts.Rest Prog) → ((p : List ℕ × PlaceValue) → nat_le (least (f p)) most ≡ true)
        → Leads (λ x. run most (f (x.0.name, x.0.at)) x.1.now) result (run most (parts.wants wants.a_name f) tokens.now) }
    ensures new { IfOk result (λ x. x.0 ≡ grammar.ident x.0.name x.0.at) }
    ensures rest { IfOk result (λ x. length tokens.now ≡ length x.1.now + 1) }
{
    match name(tokens) {
        Some((found, at, rest)) => Ok((ident(alloc, found, at)?, rest)),
        None => Err(Stop::Syntax(tokens.len())),
    }
}

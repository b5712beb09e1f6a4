// Types, fields and parameters.

ghost use Rattle.std.specs.Prelude.{◌≡◌, ◌<◌, ℕ, List, length, true, nat_le, Option, Some, None, [], ◌∷◌, IfOk};
ghost use Rattle.zir_tree.specs.declared.types.TypeExpr.{TypeExpr as TypeValue};
ghost use Rattle.zir_tree.specs.declared.types.Field.{Field as FieldValue};
ghost use Rattle.zir_tree.specs.declared.program.Prog.{Prog};
ghost use Rattle.zir_grammar.specs.Wants.{a_word, a_number};
ghost use Rattle.zir_lex.specs.declared.token.Symbol.TheVariants.{LeftBracket, RightBracket};
ghost use Rattle.zir_lex.specs.declared.token.Keyword.TheVariants.{Arr};
ghost use Rattle.zir_grammar.specs.Parts as parts;
ghost use Rattle.zir_grammar.specs.Machine.{least, run};
ghost use Rattle.zir_grammar.specs.Reading.{Leads, at_front, nested, place_or};

use crate::enclosure::{Enclosure, between, closing};
use crate::stop::Stop;
use crate::wanted::{ident, want_name, want_number, want_symbol};
use crate::words::{base, keyword, name, symbol};
use sqlite_items::Items;
use std::alloc::Global;
use zir_lex::token::{Keyword, Symbol, Token};
use zir_tree::place::Place;
use zir_tree::types::{Base, Dimension, Field, TypeExpr};

/// A type and what follows it. The dimensions of arrays are read by a loop, however many there are.
pub fn type_expr(alloc: Global, tokens: &[Token]) -> Result<(TypeExpr, &[Token]), Stop>
    ensures read { (most : ℕ) (k : TypeValue → ℕ → parts.Rest Prog) → ((t : TypeValue) → nat_le (least (k t 0)) most ≡ true)
        → Leads (λ x. run most (k x.0 0) x.1.now) result (run most (parts.reads parts.a_type_part k) tokens.now) }
    ensures rest { IfOk result (λ x. length x.1.now < length tokens.now) }
{
    let mut dimensions = Items::new(alloc);
    let mut first = None;
    let mut rest = tokens;
    while let Some((at, after)) = keyword(rest, Keyword::Arr) {
        let (length, after) = dimension(after)?;
        dimensions.push(Dimension { length, at })?;
        first = first_of(first, at);
        rest = after;
    }
    element(alloc, dimensions, first, rest)
}

/// The length of an array in its brackets, and what follows them.
fn dimension(tokens: &[Token]) -> Result<(u64, &[Token]), Stop>
    ensures read { (most : ℕ) (f : ℕ → parts.Rest Prog) → ((n : ℕ) → nat_le (least (f n)) most ≡ true)
        → Leads (λ x. run most (f x.0) x.1.now) result
        (run most (parts.wants_sign LeftBracket (parts.wants a_number (λ n. parts.wants_sign RightBracket (f n.0)))) tokens.now) }
    ensures rest { IfOk result (λ x. length x.1.now < length tokens.now) }
{
    let rest = want_symbol(tokens, Symbol::LeftBracket)?;
    let (length, rest) = want_number(rest)?;
    let rest = want_symbol(rest, Symbol::RightBracket)?;
    Ok((length, rest))
}

/// The first place, if there is one before this.
fn first_of(first: Option<Place>, at: Place) -> Option<Place>
    ensures { result ≡ Some (place_or first at) }
{
    Some(first.unwrap_or(at))
}

/// What the innermost of these arrays holds, and what follows it.
fn element(
    alloc: Global,
    dimensions: Items<Dimension>,
    first: Option<Place>,
    tokens: &[Token],
) -> Result<(TypeExpr, &[Token]), Stop>
    requires { at_front (a_word Arr) tokens.now ≡ None }
    ensures read { (most : ℕ) (k : TypeValue → ℕ → parts.Rest Prog) → ((t : TypeValue) → nat_le (least (k t 0)) most ≡ true)
        → Leads (λ x. run most (k x.0 0) x.1.now) result (run most (parts.reads parts.a_type_part (λ t h. k (nested dimensions first t) h)) tokens.now) }
    ensures rest { IfOk result (λ x. length x.1.now < length tokens.now) }
{
    if let Some((base, here, rest)) = base(tokens) {
        let at = first.unwrap_or(here);
        let name = None;
        let found = TypeExpr {
            dimensions,
            base,
            name,
            at,
        };
        return Ok((found, rest));
    }
    match name(tokens) {
        Some((found, here, rest)) => {
            let at = first.unwrap_or(here);
            let base = Base::Struct(0);
            let name = Some(ident(alloc, found, here)?);
            let found = TypeExpr {
                dimensions,
                base,
                name,
                at,
            };
            Ok((found, rest))
        }
        None => Err(Stop::Syntax(tokens.len())),
    }
}

/// A name with its type, and what follows.
pub fn field(alloc: Global, tokens: &[Token]) -> Result<(Field, &[Token]), Stop>
    ensures read { (most : ℕ) (k : FieldValue → ℕ → parts.Rest Prog) → ((f : FieldValue) → nat_le (least (k f 0)) most ≡ true)
        → Leads (λ x. run most (k x.0 0) x.1.now) result (run most (parts.reads parts.a_field k) tokens.now) }
    ensures rest { IfOk result (λ x. length x.1.now < length tokens.now) }
{
    let (name, rest) = want_name(alloc, tokens)?;
    let rest = want_symbol(rest, Symbol::Colon)?;
    let (ty, rest) = type_expr(alloc, rest)?;
    Ok((Field { name, ty }, rest))
}

/// Further fields behind a first one, up to the sign that closes them, and what follows that.
pub fn more_fields(
    alloc: Global,
    enclosure: Enclosure,
    first: Field,
    tokens: &[Token],
) -> Result<(Items<Field>, &[Token]), Stop>
    ensures read { (most : ℕ) (k : List FieldValue → ℕ → parts.Rest Prog) → ((fs : List FieldValue) → nat_le (least (k fs 0)) most ≡ true)
        → Leads (λ x. run most (k x.0 0) x.1.now) result (run most (parts.reads (parts.more_fields enclosure (first ∷ [])) k) tokens.now) }
    ensures rest { IfOk result (λ x. length x.1.now < length tokens.now) }
{
    let mut fields = Items::new(alloc);
    fields.push(first)?;
    let mut rest = tokens;
    loop {
        if let Some((_, after)) = symbol(rest, closing(enclosure)) {
            return Ok((fields, after));
        }
        let after = want_symbol(rest, between(enclosure))?;
        let (field, after) = field(alloc, after)?;
        fields.push(field)?;
        rest = after;
    }
}

/// Parameters behind `(`, and what follows the `)`.
pub fn params(alloc: Global, tokens: &[Token]) -> Result<(Items<Field>, &[Token]), Stop>
    ensures read { (most : ℕ) (k : List FieldValue → ℕ → parts.Rest Prog) → ((fs : List FieldValue) → nat_le (least (k fs 0)) most ≡ true)
        → Leads (λ x. run most (k x.0 0) x.1.now) result (run most (parts.reads parts.some_params k) tokens.now) }
    ensures rest { IfOk result (λ x. length x.1.now < length tokens.now) }
{
    if let Some((_, rest)) = symbol(tokens, Symbol::RightParenthesis) {
        return Ok((Items::new(alloc), rest));
    }
    let (first, rest) = field(alloc, tokens)?;
    more_fields(alloc, Enclosure::Parentheses, first, rest)
}

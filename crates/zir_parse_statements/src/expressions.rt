// Expressions.

ghost use Rattle.std.specs.Prelude.{◌≡◌, ◌≤◌, ◌<◌, ◌+◌, ℕ, List, length, None, IfOk, IfSome, MatchOption};
ghost use Rattle.zir_tree.specs.declared.expr.Expr.{Expr as ExprValue};
ghost use Rattle.zir_tree.specs.declared.program.Prog.{Prog};
ghost use Rattle.zir_lex.specs.declared.token.Symbol.TheVariants as symbols;
ghost use Rattle.zir_grammar.specs.Wants.{a_prefix, a_name, a_sign};
ghost use Rattle.zir_grammar.specs.Parts as parts;
ghost use Rattle.zir_grammar.specs.Machine.{run};
ghost use Rattle.zir_grammar.specs.Reading.{at_front, Leads, HasRoom};
ghost use Rattle.zir_parse_statements.specs.Parsers.{Parses, BeforePosts, an_expr, expr_before, some_exprs, an_index, indexed_by, a_conversion_to, IsLiteral, NoLiteral};

use sqlite_items::{Boxed, Items};
use std::alloc::Global;
use zir_grammar::enclosure::{Enclosure, closing};
use zir_grammar::stop::Stop;
use zir_grammar::wanted::{ident, want_name, want_number, want_symbol};
use zir_grammar::words::{bit, conversion, keyword, name, number, operator, prefix, symbol};
use zir_lex::token::{Keyword, Symbol, Token};
use zir_tree::expr::{Callee, Expr};
use zir_tree::name::Name;
use zir_tree::place::Place;
use zir_tree::types::Base;

/// The number of ranks of operators.
const RANKS: usize = 10;

/// An expression, its height, which is at most `room`, and what follows it.
pub fn expression(
    alloc: Global,
    room: usize,
    tokens: &[Token],
) -> Result<(Expr, usize, &[Token]), Stop>
    ensures read { Parses an_expr 1 room tokens.now (λ x. (x.0, x.1, x.2.now)) result }
    ensures low { IfOk result (λ x. 1 ≤ x.1) }
    ensures high { IfOk result (λ x. x.1 ≤ room) }
    ensures rest { IfOk result (λ x. length x.2.now < length tokens.now) }
{
    binary(alloc, RANKS, room, tokens)
}

/// An expression with operators of ranks below that number, its height, and what follows it.
#[cycle(expr)]
fn binary(
    alloc: Global,
    ranks: usize,
    room: usize,
    tokens: &[Token],
) -> Result<(Expr, usize, &[Token]), Stop>
    ensures read { Parses (parts.reads (parts.a_binary ranks)) 1 room tokens.now (λ x. (x.0, x.1, x.2.now)) result }
    ensures low { IfOk result (λ x. 1 ≤ x.1) }
    ensures high { IfOk result (λ x. x.1 ≤ room) }
    ensures rest { IfOk result (λ x. length x.2.now < length tokens.now) }
{
    if ranks == 0 {
        return unary(alloc, room, tokens);
    }
    let (first, low, after) = binary(alloc, ranks - 1, room, tokens)?;
    let mut left = first;
    let mut height = low;
    let mut rest = after;
    while let Some((op, at, after)) = operator(rest, ranks - 1) {
        if height >= room {
            return Err(Stop::TooDeep(rest.len()));
        }
        let (right, high, after) = binary(alloc, ranks - 1, room - 1, after)?;
        let sides = (Boxed::new(alloc, left)?, Boxed::new(alloc, right)?);
        left = Expr::Binary(op, Base::Unit, sides.0, sides.1, at);
        height = height.max(high) + 1;
        rest = after;
    }
    Ok((left, height, rest))
}

/// An operator before its operand, or a primary with what joins on to it.
#[cycle(expr)]
fn unary(alloc: Global, room: usize, tokens: &[Token]) -> Result<(Expr, usize, &[Token]), Stop>
    ensures read { Parses (parts.reads (parts.a_binary 0)) 1 room tokens.now (λ x. (x.0, x.1, x.2.now)) result }
    ensures low { IfOk result (λ x. 1 ≤ x.1) }
    ensures high { IfOk result (λ x. x.1 ≤ room) }
    ensures rest { IfOk result (λ x. length x.2.now < length tokens.now) }
{
    if let Some((op, at, after)) = prefix(tokens) {
        if room < 2 {
            return Err(Stop::TooDeep(tokens.len()));
        }
        let (operand, height, rest) = unary(alloc, room - 1, after)?;
        let operand = Boxed::new(alloc, operand)?;
        return Ok((Expr::Unary(op, Base::Unit, operand, at), height + 1, rest));
    }
    let (base, height, rest) = primary(alloc, room, tokens)?;
    posts(alloc, room, base, height, rest)
}

/// A literal at the front, and what follows it.
fn literal(tokens: &[Token]) -> Option<(Expr, &[Token])>
    ensures found { MatchOption result (NoLiteral tokens.now) (λ x. IsLiteral x.0 tokens.now x.1.now) }
    ensures rest { IfSome result (λ x. length tokens.now ≡ length x.1.now + 1) }
{
    if let Some((value, at, rest)) = number(tokens) {
        return Some((Expr::Int(value as i128, Base::Unit, at), rest));
    }
    if let Some((value, at, rest)) = bit(tokens) {
        return Some((Expr::Bit(value, at), rest));
    }
    if let Some((at, rest)) = keyword(tokens, Keyword::True) {
        return Some((Expr::Bool(true, at), rest));
    }
    match keyword(tokens, Keyword::False) {
        Some((at, rest)) => Some((Expr::Bool(false, at), rest)),
        None => None,
    }
}

/// A literal, a name, a call, an expression in parentheses, an array or a conversion.
#[cycle(expr)]
fn primary(alloc: Global, room: usize, tokens: &[Token]) -> Result<(Expr, usize, &[Token]), Stop>
    requires { at_front a_prefix tokens.now ≡ None }
    ensures read { BeforePosts room tokens.now (λ x. (x.0, x.1, x.2.now)) result }
    ensures low { IfOk result (λ x. 1 ≤ x.1) }
    ensures high { IfOk result (λ x. x.1 ≤ room) }
    ensures rest { IfOk result (λ x. length x.2.now < length tokens.now) }
{
    if let Some((value, rest)) = literal(tokens) {
        if room == 0 {
            return Err(Stop::TooDeep(tokens.len()));
        }
        return Ok((value, 1, rest));
    }
    if let Some((found, at, rest)) = name(tokens) {
        if room == 0 {
            return Err(Stop::TooDeep(tokens.len()));
        }
        return named(alloc, room, found, at, rest);
    }
    compound(alloc, room, tokens)
}

/// An expression in parentheses, an array or a conversion.
#[cycle(expr)]
fn compound(alloc: Global, room: usize, tokens: &[Token]) -> Result<(Expr, usize, &[Token]), Stop>
    requires prefix { at_front a_prefix tokens.now ≡ None }
    requires literal { NoLiteral tokens.now }
    requires name { at_front a_name tokens.now ≡ None }
    ensures read { BeforePosts room tokens.now (λ x. (x.0, x.1, x.2.now)) result }
    ensures low { IfOk result (λ x. 1 ≤ x.1) }
    ensures high { IfOk result (λ x. x.1 ≤ room) }
    ensures rest { IfOk result (λ x. length x.2.now < length tokens.now) }
{
    if let Some((at, rest)) = symbol(tokens, Symbol::LeftParenthesis) {
        if room == 0 {
            return Err(Stop::TooDeep(tokens.len()));
        }
        return in_parentheses(alloc, room, at, rest);
    }
    if let Some((at, rest)) = symbol(tokens, Symbol::LeftBrace) {
        if room < 2 {
            return Err(Stop::TooDeep(tokens.len()));
        }
        let (elements, height, rest) = list(alloc, room - 1, Enclosure::Braces, rest)?;
        return Ok((Expr::Array(elements, at), height + 1, rest));
    }
    if let Some((base, at, rest)) = conversion(tokens) {
        if room < 2 {
            return Err(Stop::TooDeep(tokens.len()));
        }
        return converted(alloc, room, base, at, rest);
    }
    Err(Stop::Syntax(tokens.len()))
}

/// A variable or a call, behind its name.
#[cycle(expr)]
fn named<'a>(
    alloc: Global,
    room: usize,
    found: &Name,
    at: Place,
    tokens: &'a [Token],
) -> Result<(Expr, usize, &'a [Token]), Stop>
    requires { 1 ≤ room }
    ensures read { Parses (parts.reads (parts.behind_name found.now at)) 1 room tokens.now (λ x. (x.0, x.1, x.2.now)) result }
    ensures low { IfOk result (λ x. 1 ≤ x.1) }
    ensures high { IfOk result (λ x. x.1 ≤ room) }
    ensures rest { IfOk result (λ x. length x.2.now ≤ length tokens.now) }
{
    let name = ident(alloc, found, at)?;
    if let Some((_, rest)) = symbol(tokens, Symbol::LeftParenthesis) {
        let (arguments, high, rest) = arguments(alloc, room - 1, rest)?;
        return Ok((
            Expr::Call(name, Callee::Function(0), arguments),
            high + 1,
            rest,
        ));
    }
    Ok((Expr::Variable(name), 1, tokens))
}

/// `()` or an expression in parentheses, behind the `(`.
#[cycle(expr)]
fn in_parentheses(
    alloc: Global,
    room: usize,
    at: Place,
    tokens: &[Token],
) -> Result<(Expr, usize, &[Token]), Stop>
    requires { 1 ≤ room }
    ensures read { Parses (parts.reads (parts.behind_parenthesis at)) 1 room tokens.now (λ x. (x.0, x.1, x.2.now)) result }
    ensures low { IfOk result (λ x. 1 ≤ x.1) }
    ensures high { IfOk result (λ x. x.1 ≤ room) }
    ensures rest { IfOk result (λ x. length x.2.now < length tokens.now) }
{
    if let Some((_, rest)) = symbol(tokens, Symbol::RightParenthesis) {
        return Ok((Expr::Unit(at), 1, rest));
    }
    let (inner, height, rest) = binary(alloc, RANKS, room - 1, tokens)?;
    let rest = want_symbol(rest, Symbol::RightParenthesis)?;
    Ok((inner, height + 1, rest))
}

/// A conversion behind its word.
#[cycle(expr)]
fn converted(
    alloc: Global,
    room: usize,
    base: Base,
    at: Place,
    tokens: &[Token],
) -> Result<(Expr, usize, &[Token]), Stop>
    requires { 2 ≤ room }
    ensures read { Parses (a_conversion_to base at) 1 room tokens.now (λ x. (x.0, x.1, x.2.now)) result }
    ensures low { IfOk result (λ x. 1 ≤ x.1) }
    ensures high { IfOk result (λ x. x.1 ≤ room) }
    ensures rest { IfOk result (λ x. length x.2.now < length tokens.now) }
{
    let rest = want_symbol(tokens, Symbol::LeftParenthesis)?;
    let (first, low, rest) = binary(alloc, RANKS, room - 1, rest)?;
    if let Some((_, rest)) = symbol(rest, Symbol::RightParenthesis) {
        let first = Boxed::new(alloc, first)?;
        return Ok((Expr::Convert(base, first, at), low + 1, rest));
    }
    let rest = want_symbol(rest, Symbol::Comma)?;
    let (second, high, rest) = binary(alloc, RANKS, room - 1, rest)?;
    let rest = want_symbol(rest, Symbol::RightParenthesis)?;
    let sides = (Boxed::new(alloc, first)?, Boxed::new(alloc, second)?);
    Ok((
        Expr::Complex(base, sides.0, sides.1, at),
        low.max(high) + 1,
        rest,
    ))
}

/// An expression and those after it up to the sign that closes the list, the greatest of their heights, and what follows
/// that sign.
#[cycle(expr)]
fn list(
    alloc: Global,
    room: usize,
    enclosure: Enclosure,
    tokens: &[Token],
) -> Result<(Items<Expr>, usize, &[Token]), Stop>
    ensures read { Parses (some_exprs enclosure) 1 room tokens.now (λ x. (x.0, x.1, x.2.now)) result }
    ensures low { IfOk result (λ x. 1 ≤ x.1) }
    ensures high { IfOk result (λ x. x.1 ≤ room) }
    ensures rest { IfOk result (λ x. length x.2.now < length tokens.now) }
{
    let (first, low, after) = binary(alloc, RANKS, room, tokens)?;
    let mut items = Items::new(alloc);
    items.push(first)?;
    let mut high = low;
    let mut rest = after;
    loop {
        if let Some((_, after)) = symbol(rest, closing(enclosure)) {
            return Ok((items, high, after));
        }
        let after = want_symbol(rest, Symbol::Comma)?;
        let (item, height, after) = binary(alloc, RANKS, room, after)?;
        items.push(item)?;
        high = high.max(height);
        rest = after;
    }
}

/// Arguments behind `(`, the greatest of their heights, which is at most `room`, and what follows the `)`.
#[cycle(expr)]
pub fn arguments(
    alloc: Global,
    room: usize,
    tokens: &[Token],
) -> Result<(Items<Expr>, usize, &[Token]), Stop>
    ensures read { Parses (parts.reads parts.some_args) 0 room tokens.now (λ x. (x.0, x.1, x.2.now)) result }
    ensures high { IfOk result (λ x. x.1 ≤ room) }
    ensures rest { IfOk result (λ x. length x.2.now < length tokens.now) }
{
    if let Some((_, rest)) = symbol(tokens, Symbol::RightParenthesis) {
        return Ok((Items::new(alloc), 0, rest));
    }
    list(alloc, room, Enclosure::Parentheses, tokens)
}

/// An index behind its `[`, with the length of a slice behind a `,`, its height, and what follows the `]`.
#[cycle(expr)]
pub fn bracket(
    alloc: Global,
    room: usize,
    tokens: &[Token],
) -> Result<(Expr, Option<u64>, usize, &[Token]), Stop>
    ensures read { Parses an_index 1 room tokens.now (λ x. ((x.0, x.1), x.2, x.3.now)) result }
    ensures low { IfOk result (λ x. 1 ≤ x.2) }
    ensures high { IfOk result (λ x. x.2 ≤ room) }
    ensures rest { IfOk result (λ x. length x.3.now < length tokens.now) }
{
    let (index, height, rest) = binary(alloc, RANKS, room, tokens)?;
    if let Some((_, rest)) = symbol(rest, Symbol::RightBracket) {
        return Ok((index, None, height, rest));
    }
    let rest = want_symbol(rest, Symbol::Comma)?;
    let (length, rest) = want_number(rest)?;
    let rest = want_symbol(rest, Symbol::RightBracket)?;
    Ok((index, Some(length), height, rest))
}

/// An index of a base, or a slice where there is a length.
fn indexed(of: Boxed<Expr>, index: Boxed<Expr>, length: Option<u64>, at: Place) -> Expr
    ensures { result ≡ indexed_by of index length at }
{
    match length {
        None => Expr::Index(of, index, at),
        Some(length) => Expr::Slice(of, index, length, at),
    }
}

/// The indexes, slices and fields behind a base. There are at most as many as the room has levels above the base.
#[cycle(expr)]
fn posts(
    alloc: Global,
    room: usize,
    base: Expr,
    low: usize,
    tokens: &[Token],
) -> Result<(Expr, usize, &[Token]), Stop>
    requires some { 1 ≤ low }
    requires fits { low ≤ room }
    ensures read { Parses (parts.reads (parts.posts_of base low)) low room tokens.now (λ x. (x.0, x.1, x.2.now)) result }
    ensures low { IfOk result (λ x. 1 ≤ x.1) }
    ensures high { IfOk result (λ x. x.1 ≤ room) }
    ensures rest { IfOk result (λ x. length x.2.now ≤ length tokens.now) }
{
    if let Some((at, after)) = symbol(tokens, Symbol::LeftBracket) {
        if low >= room {
            return Err(Stop::TooDeep(tokens.len()));
        }
        let (index, length, high, rest) = bracket(alloc, room - 1, after)?;
        let sides = (Boxed::new(alloc, base)?, Boxed::new(alloc, index)?);
        let base = indexed(sides.0, sides.1, length, at);
        return posts(alloc, room, base, low.max(high) + 1, rest);
    }
    if let Some((at, after)) = symbol(tokens, Symbol::Dot) {
        if low >= room {
            return Err(Stop::TooDeep(tokens.len()));
        }
        let (field, rest) = want_name(alloc, after)?;
        let base = Expr::Part(Boxed::new(alloc, base)?, field.name, 0, at);
        return posts(alloc, room, base, low + 1, rest);
    }
    Ok((base, low, tokens))
}

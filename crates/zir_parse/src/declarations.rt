// Declarations.

ghost use Rattle.std.specs.Prelude.{◌≡◌, ◌≤◌, ◌<◌, [], ℕ, Option, Some, None, length, true, nat_le, IfOk};
ghost use Rattle.zir_tree.specs.declared.types.TypeExpr.{TypeExpr as TypeValue};
ghost use Rattle.zir_tree.specs.declared.program.Prog.{Prog};
ghost use Rattle.zir_grammar.specs.Parts as parts;
ghost use Rattle.zir_grammar.specs.Machine.{least, run};
ghost use Rattle.zir_grammar.specs.Reading.{Leads};
ghost use Rattle.zir_parse_statements.specs.Parsers.{Parses};
ghost use Rattle.zir_parse.specs.declared.heads.Declares.TheVariants as words;
ghost use Rattle.zir_parse.specs.Heads.{a_decl_behind, a_struct_behind, a_function_behind, a_comp_behind};

use crate::components::block;
use crate::heads::{Declares, begins_declaration};
use sqlite_items::Items;
use std::alloc::Global;
use zir_grammar::enclosure::Enclosure;
use zir_grammar::stop::Stop;
use zir_grammar::types::{field, more_fields, params, type_expr};
use zir_grammar::wanted::{want_name, want_symbol};
use zir_grammar::words::{keyword, symbol};
use zir_lex::token::{Keyword, Symbol, Token};
use zir_parse_statements::statements::{body, variable};
use zir_tree::place::Place;
use zir_tree::program::{CompFunction, Decl, Function, Struct};
use zir_tree::types::TypeExpr;

/// Declarations, the greatest of their heights, and what follows them.
pub fn declarations(
    alloc: Global,
    room: usize,
    tokens: &[Token],
) -> Result<(Items<Decl>, usize, &[Token]), Stop>
    requires { 2 ≤ room }
    ensures read { Parses (parts.reads (parts.more_decls [] 0)) 0 room tokens.now (λ x. (x.0, x.1, x.2.now)) result }
    ensures high { IfOk result (λ x. x.1 ≤ room) }
{
    let mut declarations = Items::new(alloc);
    let mut high: usize = 0;
    let mut rest = tokens;
    while let Some((word, at, after)) = begins_declaration(rest) {
        let (found, height, after) = one_declaration(alloc, room, word, at, after)?;
        declarations.push(found)?;
        high = high.max(height);
        rest = after;
    }
    Ok((declarations, high, rest))
}

/// A declaration behind its first word, its height, and what follows it.
fn one_declaration(
    alloc: Global,
    room: usize,
    word: Declares,
    at: Place,
    tokens: &[Token],
) -> Result<(Decl, usize, &[Token]), Stop>
    requires { 2 ≤ room }
    ensures read { Parses (a_decl_behind word at) 0 room tokens.now (λ x. (x.0, x.1, x.2.now)) result }
    ensures high { IfOk result (λ x. x.1 ≤ room) }
    ensures rest { IfOk result (λ x. length x.2.now < length tokens.now) }
{
    match word {
        Declares::Struct => structure(alloc, at, tokens),
        Declares::Function => function(alloc, room, at, tokens),
        Declares::Var => top_variable(alloc, room, at, tokens),
    }
}

/// A variable behind its word, its height, and what follows its `;`.
fn top_variable(
    alloc: Global,
    room: usize,
    at: Place,
    tokens: &[Token],
) -> Result<(Decl, usize, &[Token]), Stop>
    requires { 1 ≤ room }
    ensures read { Parses (a_decl_behind words.Var at) 0 room tokens.now (λ x. (x.0, x.1, x.2.now)) result }
    ensures high { IfOk result (λ x. x.1 ≤ room) }
    ensures rest { IfOk result (λ x. length x.2.now < length tokens.now) }
{
    let (var, height, rest) = variable(alloc, room, at, tokens)?;
    let rest = want_symbol(rest, Symbol::Semicolon)?;
    Ok((Decl::Var(var), height, rest))
}

/// A struct behind its word, its height, which is 0, and what follows it.
fn structure(alloc: Global, at: Place, tokens: &[Token]) -> Result<(Decl, usize, &[Token]), Stop>
    ensures read { (room : ℕ) → Parses (a_struct_behind at) 0 room tokens.now (λ x. (x.0, x.1, x.2.now)) result }
    ensures height { IfOk result (λ x. x.1 ≡ 0) }
    ensures rest { IfOk result (λ x. length x.2.now < length tokens.now) }
{
    let (name, rest) = want_name(alloc, tokens)?;
    let rest = want_symbol(rest, Symbol::Equal)?;
    let rest = want_symbol(rest, Symbol::LeftBrace)?;
    let (first, rest) = field(alloc, rest)?;
    let (fields, rest) = more_fields(alloc, Enclosure::Braces, first, rest)?;
    Ok((Decl::Struct(Struct { name, fields, at }), 0, rest))
}

/// The type that a function gives, behind a `:`, if one is written.
fn result_type(alloc: Global, tokens: &[Token]) -> Result<(Option<TypeExpr>, &[Token]), Stop>
    ensures read { (most : ℕ) (k : Option TypeValue → ℕ → parts.Rest Prog)
        → ((t : Option TypeValue) → nat_le (least (k t 0)) most ≡ true)
        → Leads (λ x. run most (k x.0 0) x.1.now) result (run most (parts.reads parts.a_result k) tokens.now) }
    ensures rest { IfOk result (λ x. length x.1.now ≤ length tokens.now) }
{
    let Some((_, rest)) = symbol(tokens, Symbol::Colon) else {
        return Ok((None, tokens));
    };
    let (found, rest) = type_expr(alloc, rest)?;
    Ok((Some(found), rest))
}

/// A function or a `fun comp` behind `fun`, its height, and what follows it.
fn function(
    alloc: Global,
    room: usize,
    at: Place,
    tokens: &[Token],
) -> Result<(Decl, usize, &[Token]), Stop>
    requires { 2 ≤ room }
    ensures read { Parses (a_decl_behind words.Function at) 0 room tokens.now (λ x. (x.0, x.1, x.2.now)) result }
    ensures high { IfOk result (λ x. x.1 ≤ room) }
    ensures rest { IfOk result (λ x. length x.2.now < length tokens.now) }
{
    if let Some((_, rest)) = keyword(tokens, Keyword::Comp) {
        return comp_function(alloc, room, at, rest);
    }
    plain_function(alloc, room, at, tokens)
}

/// A function behind `fun`, its height, and what follows it.
fn plain_function(
    alloc: Global,
    room: usize,
    at: Place,
    tokens: &[Token],
) -> Result<(Decl, usize, &[Token]), Stop>
    requires { 1 ≤ room }
    ensures read { Parses (a_function_behind at) 0 room tokens.now (λ x. (x.0, x.1, x.2.now)) result }
    ensures high { IfOk result (λ x. x.1 ≤ room) }
    ensures rest { IfOk result (λ x. length x.2.now < length tokens.now) }
{
    let (name, rest) = want_name(alloc, tokens)?;
    let rest = want_symbol(rest, Symbol::LeftParenthesis)?;
    let (params, rest) = params(alloc, rest)?;
    let (result, rest) = result_type(alloc, rest)?;
    let (body, height, rest) = body(alloc, room, rest)?;
    let found = Function {
        name,
        params,
        result,
        body,
        at,
    };
    Ok((Decl::Function(found), height, rest))
}

/// A `fun comp` behind its words, its height, and what follows it.
fn comp_function(
    alloc: Global,
    room: usize,
    at: Place,
    tokens: &[Token],
) -> Result<(Decl, usize, &[Token]), Stop>
    requires { 2 ≤ room }
    ensures read { Parses (a_comp_behind at) 0 room tokens.now (λ x. (x.0, x.1, x.2.now)) result }
    ensures high { IfOk result (λ x. x.1 ≤ room) }
    ensures rest { IfOk result (λ x. length x.2.now < length tokens.now) }
{
    let (name, rest) = want_name(alloc, tokens)?;
    let rest = want_symbol(rest, Symbol::LeftParenthesis)?;
    let (params, rest) = params(alloc, rest)?;
    let (body, height, rest) = block(alloc, room, rest)?;
    let found = CompFunction {
        name,
        params,
        body,
        at,
    };
    Ok((Decl::Comp(found), height, rest))
}

// Variables, the heads of loops, statements and bodies.

ghost use Rattle.std.specs.Prelude.{◌≡◌, ◌≤◌, ◌<◌, ◌+◌, ℕ, length, None, Some, IfOk, [], true, nat_le};
ghost use Rattle.zir_tree.specs.declared.program.Prog.{Prog};
ghost use Rattle.zir_tree.specs.declared.stmt.Stmt.{Stmt as StmtValue};
ghost use Rattle.zir_lex.specs.declared.token.Keyword.TheVariants as keywords;
ghost use Rattle.zir_grammar.specs.Wants.{a_word, a_name};
ghost use Rattle.zir_grammar.specs.Parts as parts;
ghost use Rattle.zir_grammar.specs.Machine.{run};
ghost use Rattle.zir_grammar.specs.Reading.{at_front};
ghost use Rattle.zir_parse_statements.specs.Parsers.{Parses, expr_inside, step_by, a_var_behind, two_exprs, a_result_end, an_error_behind, a_test_behind, a_while_behind, a_count_behind};

use crate::expressions::{arguments, bracket, expression};
use sqlite_items::Items;
use std::alloc::Global;
use zir_grammar::stop::Stop;
use zir_grammar::types::field;
use zir_grammar::wanted::{ident, want_keyword, want_name, want_symbol};
use zir_grammar::words::{keyword, name, symbol, text};
use zir_lex::token::{Keyword, Symbol, Token};
use zir_tree::expr::Expr;
use zir_tree::ident::Ident;
use zir_tree::name::Name;
use zir_tree::place::Place;
use zir_tree::stmt::{Access, Body, Return, Stmt, Var};

/// A variable behind its `var`, its height, which is at most `room`, and what follows it.
pub fn variable(
    alloc: Global,
    room: usize,
    at: Place,
    tokens: &[Token],
) -> Result<(Var, usize, &[Token]), Stop>
    requires { 1 ≤ room }
    ensures read { Parses (a_var_behind at) 1 room tokens.now (λ x. (x.0, x.1, x.2.now)) result }
    ensures low { IfOk result (λ x. 1 ≤ x.1) }
    ensures high { IfOk result (λ x. x.1 ≤ room) }
    ensures rest { IfOk result (λ x. length x.2.now < length tokens.now) }
{
    let (field, rest) = field(alloc, tokens)?;
    let Some((_, after)) = symbol(rest, Symbol::Assign) else {
        let initial = None;
        return Ok((
            Var {
                name: field.name,
                ty: field.ty,
                initial,
                at,
            },
            1,
            rest,
        ));
    };
    if room < 2 {
        return Err(Stop::TooDeep(rest.len()));
    }
    let (value, height, rest) = expression(alloc, room - 1, after)?;
    let initial = Some(value);
    Ok((
        Var {
            name: field.name,
            ty: field.ty,
            initial,
            at,
        },
        height + 1,
        rest,
    ))
}

/// An expression in parentheses behind a word, its height, which is at most `room`, and what follows the `)`.
pub fn condition(
    alloc: Global,
    room: usize,
    tokens: &[Token],
) -> Result<(Expr, usize, &[Token]), Stop>
    requires { 1 ≤ room }
    ensures read { Parses expr_inside 1 room tokens.now (λ x. (x.0, x.1, x.2.now)) result }
    ensures low { IfOk result (λ x. 1 ≤ x.1) }
    ensures high { IfOk result (λ x. x.1 ≤ room) }
    ensures rest { IfOk result (λ x. length x.2.now < length tokens.now) }
{
    let rest = want_symbol(tokens, Symbol::LeftParenthesis)?;
    let (value, height, rest) = expression(alloc, room, rest)?;
    let rest = want_symbol(rest, Symbol::RightParenthesis)?;
    Ok((value, height, rest))
}

/// The name of a counted loop, its first value and its count, the height of the higher one, which is at most `room`, and
/// what follows the `]`.
pub fn bounds(
    alloc: Global,
    room: usize,
    tokens: &[Token],
) -> Result<(Ident, Expr, Expr, usize, &[Token]), Stop>
    requires { 1 ≤ room }
    ensures read { Parses (parts.reads parts.some_bounds) 1 room tokens.now (λ x. ((x.0, x.1, x.2), x.3, x.4.now)) result }
    ensures low { IfOk result (λ x. 1 ≤ x.3) }
    ensures high { IfOk result (λ x. x.3 ≤ room) }
    ensures rest { IfOk result (λ x. length x.4.now < length tokens.now) }
{
    let (name, rest) = want_name(alloc, tokens)?;
    let rest = want_keyword(rest, Keyword::In)?;
    let rest = want_symbol(rest, Symbol::LeftBracket)?;
    let (first, count, height, rest) = pair(alloc, room, rest)?;
    Ok((name, first, count, height, rest))
}

/// Two expressions with a `,` between them, the height of the higher one, and what follows the `]` behind them.
fn pair(alloc: Global, room: usize, tokens: &[Token]) -> Result<(Expr, Expr, usize, &[Token]), Stop>
    requires { 1 ≤ room }
    ensures read { Parses two_exprs 1 room tokens.now (λ x. ((x.0, x.1), x.2, x.3.now)) result }
    ensures low { IfOk result (λ x. 1 ≤ x.2) }
    ensures high { IfOk result (λ x. x.2 ≤ room) }
    ensures rest { IfOk result (λ x. length x.3.now < length tokens.now) }
{
    let (first, low, rest) = expression(alloc, room, tokens)?;
    let rest = want_symbol(rest, Symbol::Comma)?;
    let (second, high, rest) = expression(alloc, room, rest)?;
    let rest = want_symbol(rest, Symbol::RightBracket)?;
    Ok((first, second, low.max(high), rest))
}

/// A statement, its height, and what follows it.
#[cycle(stmt)]
fn statement(alloc: Global, room: usize, tokens: &[Token]) -> Result<(Stmt, usize, &[Token]), Stop>
    ensures read { Parses (parts.reads parts.a_stmt) 1 room tokens.now (λ x. (x.0, x.1, x.2.now)) result }
    ensures low { IfOk result (λ x. 1 ≤ x.1) }
    ensures high { IfOk result (λ x. x.1 ≤ room) }
    ensures rest { IfOk result (λ x. length x.2.now < length tokens.now) }
{
    if let Some((at, rest)) = keyword(tokens, Keyword::Var) {
        if room == 0 {
            return Err(Stop::TooDeep(tokens.len()));
        }
        let (var, height, rest) = variable(alloc, room, at, rest)?;
        return Ok((Stmt::Var(var), height, rest));
    }
    if let Some((found, at, rest)) = name(tokens) {
        if room == 0 {
            return Err(Stop::TooDeep(tokens.len()));
        }
        return named(alloc, room, found, at, rest);
    }
    if let Some((at, rest)) = keyword(tokens, Keyword::Error) {
        if room == 0 {
            return Err(Stop::TooDeep(tokens.len()));
        }
        return error(alloc, room, at, rest);
    }
    compound(alloc, room, tokens)
}

/// The statement `error` behind its word.
fn error(
    alloc: Global,
    room: usize,
    at: Place,
    tokens: &[Token],
) -> Result<(Stmt, usize, &[Token]), Stop>
    requires { 1 ≤ room }
    ensures read { Parses (an_error_behind at) 1 room tokens.now (λ x. (x.0, x.1, x.2.now)) result }
    ensures low { IfOk result (λ x. 1 ≤ x.1) }
    ensures high { IfOk result (λ x. x.1 ≤ room) }
    ensures rest { IfOk result (λ x. length x.2.now < length tokens.now) }
{
    match text(tokens) {
        Some((found, _, rest)) => {
            let message = Name::from_slice(alloc, found.as_slice())?;
            Ok((Stmt::Error(message, at), 1, rest))
        }
        None => Err(Stop::Syntax(tokens.len())),
    }
}

/// A statement that holds others.
#[cycle(stmt)]
fn compound(alloc: Global, room: usize, tokens: &[Token]) -> Result<(Stmt, usize, &[Token]), Stop>
    requires name { at_front a_name tokens.now ≡ None }
    requires error { at_front (a_word keywords.Error) tokens.now ≡ None }
    requires var { at_front (a_word keywords.Var) tokens.now ≡ None }
    ensures read { Parses (parts.reads parts.a_stmt) 1 room tokens.now (λ x. (x.0, x.1, x.2.now)) result }
    ensures low { IfOk result (λ x. 1 ≤ x.1) }
    ensures high { IfOk result (λ x. x.1 ≤ room) }
    ensures rest { IfOk result (λ x. length x.2.now < length tokens.now) }
{
    if let Some((at, rest)) = keyword(tokens, Keyword::If) {
        if room < 2 {
            return Err(Stop::TooDeep(tokens.len()));
        }
        return test(alloc, room, at, rest);
    }
    if let Some((at, rest)) = keyword(tokens, Keyword::While) {
        if room < 2 {
            return Err(Stop::TooDeep(tokens.len()));
        }
        return turning(alloc, room, at, rest);
    }
    if let Some((at, rest)) = keyword(tokens, Keyword::For) {
        if room < 2 {
            return Err(Stop::TooDeep(tokens.len()));
        }
        return counted(alloc, room, at, rest);
    }
    Err(Stop::Syntax(tokens.len()))
}

/// The statement `while` behind its word.
#[cycle(stmt)]
fn turning(
    alloc: Global,
    room: usize,
    at: Place,
    tokens: &[Token],
) -> Result<(Stmt, usize, &[Token]), Stop>
    requires { 2 ≤ room }
    ensures read { Parses (a_while_behind at) 1 room tokens.now (λ x. (x.0, x.1, x.2.now)) result }
    ensures low { IfOk result (λ x. 1 ≤ x.1) }
    ensures high { IfOk result (λ x. x.1 ≤ room) }
    ensures rest { IfOk result (λ x. length x.2.now < length tokens.now) }
{
    let (value, low, rest) = condition(alloc, room - 1, tokens)?;
    let (body, high, rest) = braced(alloc, room - 1, rest)?;
    Ok((Stmt::While(value, body, at), low.max(high) + 1, rest))
}

/// The statement `for` behind its word.
#[cycle(stmt)]
fn counted(
    alloc: Global,
    room: usize,
    at: Place,
    tokens: &[Token],
) -> Result<(Stmt, usize, &[Token]), Stop>
    requires { 2 ≤ room }
    ensures read { Parses (a_count_behind at) 1 room tokens.now (λ x. (x.0, x.1, x.2.now)) result }
    ensures low { IfOk result (λ x. 1 ≤ x.1) }
    ensures high { IfOk result (λ x. x.1 ≤ room) }
    ensures rest { IfOk result (λ x. length x.2.now < length tokens.now) }
{
    let (name, first, count, low, rest) = bounds(alloc, room - 1, tokens)?;
    let (body, high, rest) = braced(alloc, room - 1, rest)?;
    Ok((
        Stmt::For(name, first, count, body, at),
        low.max(high) + 1,
        rest,
    ))
}

/// The statement `if` behind its word.
#[cycle(stmt)]
fn test(
    alloc: Global,
    room: usize,
    at: Place,
    tokens: &[Token],
) -> Result<(Stmt, usize, &[Token]), Stop>
    requires { 2 ≤ room }
    ensures read { Parses (a_test_behind at) 1 room tokens.now (λ x. (x.0, x.1, x.2.now)) result }
    ensures low { IfOk result (λ x. 1 ≤ x.1) }
    ensures high { IfOk result (λ x. x.1 ≤ room) }
    ensures rest { IfOk result (λ x. length x.2.now < length tokens.now) }
{
    let (value, low, rest) = expression(alloc, room - 1, tokens)?;
    let rest = want_keyword(rest, Keyword::Then)?;
    let (then, high, rest) = braced(alloc, room - 1, rest)?;
    let height = low.max(high);
    if let Some((_, rest)) = keyword(rest, Keyword::Else) {
        let (other, high, rest) = braced(alloc, room - 1, rest)?;
        return Ok((
            Stmt::IfElse(value, then, other, at),
            height.max(high) + 1,
            rest,
        ));
    }
    Ok((Stmt::If(value, then, at), height + 1, rest))
}

/// A call or an assignment, behind its name.
fn named<'a>(
    alloc: Global,
    room: usize,
    found: &Name,
    at: Place,
    tokens: &'a [Token],
) -> Result<(Stmt, usize, &'a [Token]), Stop>
    requires { 1 ≤ room }
    ensures read { Parses (parts.reads (parts.stmt_named found.now at)) 1 room tokens.now (λ x. (x.0, x.1, x.2.now)) result }
    ensures low { IfOk result (λ x. 1 ≤ x.1) }
    ensures high { IfOk result (λ x. x.1 ≤ room) }
    ensures rest { IfOk result (λ x. length x.2.now < length tokens.now) }
{
    let name = ident(alloc, found, at)?;
    if let Some((_, rest)) = symbol(tokens, Symbol::LeftParenthesis) {
        let (arguments, high, rest) = arguments(alloc, room - 1, rest)?;
        return Ok((Stmt::Call(name, 0, arguments), high + 1, rest));
    }
    let path = Items::new(alloc);
    let (path, low, rest) = target(alloc, room - 1, path, 1, tokens)?;
    let (value, high, rest) = expression(alloc, room - 1, rest)?;
    Ok((Stmt::Assign(name, path, value), low.max(high) + 1, rest))
}

/// A step of a path by an index, or by a slice where there is a length.
fn step(index: Expr, length: Option<u64>, at: Place) -> Access
    ensures { result ≡ step_by index length at }
{
    match length {
        None => Access::Index(index, at),
        Some(length) => Access::Slice(index, length, at),
    }
}

/// The rest of a path behind an assigned name, the height of what is assigned, and what follows the `:=`. The rest has at
/// most as many steps as the room has levels above what was read of the path.
fn target(
    alloc: Global,
    room: usize,
    path: Items<Access>,
    low: usize,
    tokens: &[Token],
) -> Result<(Items<Access>, usize, &[Token]), Stop>
    requires { 1 ≤ low }
    ensures read { Parses (parts.reads (parts.target_of path low)) low room tokens.now (λ x. (x.0, x.1, x.2.now)) result }
    ensures low { IfOk result (λ x. 1 ≤ x.1) }
    ensures high { IfOk result (λ x. x.1 ≤ room) }
    ensures rest { IfOk result (λ x. length x.2.now < length tokens.now) }
{
    let mut path = path;
    if let Some((_, after)) = symbol(tokens, Symbol::Assign) {
        if low > room {
            return Err(Stop::TooDeep(tokens.len()));
        }
        return Ok((path, low, after));
    }
    if let Some((at, after)) = symbol(tokens, Symbol::LeftBracket) {
        if low >= room {
            return Err(Stop::TooDeep(tokens.len()));
        }
        let (index, length, high, rest) = bracket(alloc, room - 1, after)?;
        path.push(step(index, length, at))?;
        return target(alloc, room, path, low.max(high) + 1, rest);
    }
    let Some((at, after)) = symbol(tokens, Symbol::Dot) else {
        return Err(Stop::Syntax(tokens.len()));
    };
    if low >= room {
        return Err(Stop::TooDeep(tokens.len()));
    }
    let (field, rest) = want_name(alloc, after)?;
    path.push(Access::Part(field.name, 0, at))?;
    target(alloc, room, path, low + 1, rest)
}

/// Statements in braces, the height of their list, and what follows the `}`.
#[cycle(stmt)]
fn braced(
    alloc: Global,
    room: usize,
    tokens: &[Token],
) -> Result<(Items<Stmt>, usize, &[Token]), Stop>
    requires { 1 ≤ room }
    ensures read { Parses (parts.reads parts.some_stmts) 1 room tokens.now (λ x. (x.0, x.1, x.2.now)) result }
    ensures low { IfOk result (λ x. 1 ≤ x.1) }
    ensures high { IfOk result (λ x. x.1 ≤ room) }
    ensures rest { IfOk result (λ x. length x.2.now < length tokens.now) }
{
    let mut rest = want_symbol(tokens, Symbol::LeftBrace)?;
    let mut statements = Items::new(alloc);
    let mut high: usize = 0;
    loop {
        if let Some((_, after)) = symbol(rest, Symbol::RightBrace) {
            return Ok((statements, high + 1, after));
        }
        let (statement, height, after) = statement(alloc, room - 1, rest)?;
        statements.push(statement)?;
        high = high.max(height);
        if let Some((_, after)) = symbol(after, Symbol::RightBrace) {
            return Ok((statements, high + 1, after));
        }
        rest = want_symbol(after, Symbol::Semicolon)?;
    }
}

/// The body of a function or of `do`, its height, which is at most `room`, and what follows the `}`.
pub fn body(alloc: Global, room: usize, tokens: &[Token]) -> Result<(Body, usize, &[Token]), Stop>
    requires { 1 ≤ room }
    ensures read { Parses (parts.reads parts.a_body) 1 room tokens.now (λ x. (x.0, x.1, x.2.now)) result }
    ensures low { IfOk result (λ x. 1 ≤ x.1) }
    ensures high { IfOk result (λ x. x.1 ≤ room) }
    ensures rest { IfOk result (λ x. length x.2.now < length tokens.now) }
{
    let mut rest = want_symbol(tokens, Symbol::LeftBrace)?;
    let mut statements = Items::new(alloc);
    let mut high: usize = 0;
    loop {
        if let Some((_, after)) = symbol(rest, Symbol::RightBrace) {
            let result = None;
            return Ok((Body { statements, result }, high + 1, after));
        }
        if let Some((at, after)) = keyword(rest, Keyword::Return) {
            if room < 3 {
                return Err(Stop::TooDeep(rest.len()));
            }
            let (value, height, after) = returned(alloc, room - 2, after)?;
            let result = Some(Return { value, at });
            let height = high.max(height + 1) + 1;
            return Ok((Body { statements, result }, height, after));
        }
        let (statement, height, after) = statement(alloc, room - 1, rest)?;
        statements.push(statement)?;
        high = high.max(height);
        if let Some((_, after)) = symbol(after, Symbol::RightBrace) {
            let result = None;
            return Ok((Body { statements, result }, high + 1, after));
        }
        rest = want_symbol(after, Symbol::Semicolon)?;
    }
}

/// The value behind `return`, its height, and what follows the `}`.
fn returned(alloc: Global, room: usize, tokens: &[Token]) -> Result<(Expr, usize, &[Token]), Stop>
    requires { 1 ≤ room }
    ensures read { Parses a_result_end 1 room tokens.now (λ x. (x.0, x.1, x.2.now)) result }
    ensures low { IfOk result (λ x. 1 ≤ x.1) }
    ensures high { IfOk result (λ x. x.1 ≤ room) }
    ensures rest { IfOk result (λ x. length x.2.now < length tokens.now) }
{
    let (value, height, rest) = expression(alloc, room, tokens)?;
    if let Some((_, rest)) = symbol(rest, Symbol::RightBrace) {
        return Ok((value, height, rest));
    }
    let rest = want_symbol(rest, Symbol::Semicolon)?;
    let rest = want_symbol(rest, Symbol::RightBrace)?;
    Ok((value, height, rest))
}

// Variables, statements and bodies.

ghost use Rattle.std.specs.Prelude.{◌++◌, ◌∷◌, map, OnOk};
ghost use Rattle.zir_lex.specs.declared.token.Symbol.TheVariants.{Semicolon};
ghost use Rattle.zir_print.specs.Marks.{link_word, mark, parted};
ghost use Rattle.zir_print.specs.Statements.{access_words, body_words, bounds_words, declared_words, initial_words, list_words, path_words, result_words, stmt_words, var_words};
ghost use Rattle.zir_lex.specs.declared.token.Keyword.TheVariants.{Return as ReturnWord};
ghost use Rattle.zir_print.specs.Expressions.{expr_words};
ghost use Rattle.zir_show.specs.Growth.{Adds};

use crate::expressions::{put_bracket, put_call, put_enclosed, put_expr};
use crate::text::Text;
use crate::types::put_type;
use std::alloc::AllocError;
use zir_lex::token::{Keyword, Symbol};
use zir_tree::expr::Expr;
use zir_tree::ident::Ident;
use zir_tree::stmt::{Access, Body, Return, Stmt, Var};

fn put_initial(text: &mut Text, initial: &Option<Expr>) -> Result<(), AllocError>
    ensures { OnOk result (Adds text.old text.new (initial_words initial.now)) }
{
    match initial {
        Some(e) => {
            text.symbol(Symbol::Assign)?;
            put_expr(text, e)
        }
        None => Ok(()),
    }
}

/// What is declared behind `var`.
pub fn put_declared(text: &mut Text, var: &Var) -> Result<(), AllocError>
    ensures { OnOk result (Adds text.old text.new (declared_words var.now)) }
{
    text.name(&var.name.name)?;
    text.symbol(Symbol::Colon)?;
    put_type(text, &var.ty)?;
    put_initial(text, &var.initial)
}

/// A variable with its type and its initial value.
pub fn put_var(text: &mut Text, var: &Var) -> Result<(), AllocError>
    ensures { OnOk result (Adds text.old text.new (var_words var.now)) }
{
    text.keyword(Keyword::Var)?;
    put_declared(text, var)
}

fn put_access(text: &mut Text, access: &Access) -> Result<(), AllocError>
    ensures { OnOk result (Adds text.old text.new (access_words access.now)) }
{
    match access {
        Access::Index(index, _) => put_bracket(text, index, None),
        Access::Slice(index, length, _) => put_bracket(text, index, Some(*length)),
        Access::Part(name, _, _) => {
            text.symbol(Symbol::Dot)?;
            text.name(name)
        }
    }
}

fn put_path(text: &mut Text, path: &[Access]) -> Result<(), AllocError>
    ensures { OnOk result (Adds text.old text.new (path_words path.now)) }
{
    for access in path {
        put_access(text, access)?;
    }
    Ok(())
}

/// The name and the bounds of a counted loop.
pub fn put_bounds(
    text: &mut Text,
    name: &Ident,
    from: &Expr,
    count: &Expr,
) -> Result<(), AllocError>
    ensures { OnOk result (Adds text.old text.new (bounds_words name.now from.now count.now)) }
{
    text.name(&name.name)?;
    text.keyword(Keyword::In)?;
    text.symbol(Symbol::LeftBracket)?;
    put_expr(text, from)?;
    text.symbol(Symbol::Comma)?;
    put_expr(text, count)?;
    text.symbol(Symbol::RightBracket)
}

/// A statement.
#[cycle(statements)]
fn put_stmt(text: &mut Text, stmt: &Stmt) -> Result<(), AllocError>
    ensures { OnOk result (Adds text.old text.new (stmt_words stmt.now)) }
{
    match stmt {
        Stmt::Var(var) => put_var(text, var),
        Stmt::Assign(name, path, e) => {
            text.name(&name.name)?;
            put_path(text, path.as_slice())?;
            text.symbol(Symbol::Assign)?;
            put_expr(text, e)
        }
        Stmt::Call(name, _, arguments) => put_call(text, name, arguments.as_slice()),
        Stmt::Error(quoted, _) => {
            text.keyword(Keyword::Error)?;
            text.quoted(quoted)
        }
        Stmt::If(e, stmts, _) => {
            text.keyword(Keyword::If)?;
            put_expr(text, e)?;
            text.keyword(Keyword::Then)?;
            put_list(text, stmts.as_slice())
        }
        Stmt::IfElse(e, stmts, others, _) => {
            text.keyword(Keyword::If)?;
            put_expr(text, e)?;
            text.keyword(Keyword::Then)?;
            put_list(text, stmts.as_slice())?;
            text.keyword(Keyword::Else)?;
            put_list(text, others.as_slice())
        }
        Stmt::While(e, stmts, _) => {
            text.keyword(Keyword::While)?;
            put_enclosed(text, e)?;
            put_list(text, stmts.as_slice())
        }
        Stmt::For(name, from, count, stmts, _) => {
            text.keyword(Keyword::For)?;
            put_bounds(text, name, from, count)?;
            put_list(text, stmts.as_slice())
        }
    }
}

/// Statements in braces.
#[cycle(statements)]
fn put_list(text: &mut Text, stmts: &[Stmt]) -> Result<(), AllocError>
    ensures { OnOk result (Adds text.old text.new (list_words (map stmt_words stmts.now))) }
{
    text.symbol(Symbol::LeftBrace)?;
    put_stmts(text, stmts)?;
    text.symbol(Symbol::RightBrace)
}

/// Statements with `;` between each two.
#[cycle(statements)]
fn put_stmts(text: &mut Text, stmts: &[Stmt]) -> Result<(), AllocError>
    ensures { OnOk result (Adds text.old text.new (parted (mark Semicolon) (map stmt_words stmts.now))) }
{
    for (index, stmt) in stmts.iter().enumerate() {
        text.before_part(index, Symbol::Semicolon)?;
        put_stmt(text, stmt)?;
    }
    Ok(())
}

fn put_return(text: &mut Text, value: &Expr) -> Result<(), AllocError>
    ensures { OnOk result (Adds text.old text.new (link_word ReturnWord ∷ expr_words value.now)) }
{
    text.keyword(Keyword::Return)?;
    put_expr(text, value)
}

/// Statements, and behind them the value that is returned.
fn put_parts(text: &mut Text, stmts: &[Stmt], returned: &Option<Return>) -> Result<(), AllocError>
    ensures { OnOk result
        (Adds text.old text.new (parted (mark Semicolon) (map stmt_words stmts.now ++ result_words returned.now))) }
{
    put_stmts(text, stmts)?;
    match returned {
        None => Ok(()),
        Some(returned) => {
            text.before_part(stmts.len(), Symbol::Semicolon)?;
            put_return(text, &returned.value)
        }
    }
}

/// A body in braces.
pub fn put_body(text: &mut Text, body: &Body) -> Result<(), AllocError>
    ensures { OnOk result (Adds text.old text.new (body_words body.now)) }
{
    text.symbol(Symbol::LeftBrace)?;
    put_parts(text, body.statements.as_slice(), &body.result)?;
    text.symbol(Symbol::RightBrace)
}

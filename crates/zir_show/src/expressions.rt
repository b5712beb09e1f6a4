// Expressions.

ghost use Rattle.std.specs.Prelude.{◌≡◌, [], ◌∷◌, map, OnOk};
ghost use Rattle.zir_lex.specs.declared.token.Symbol.TheVariants.{Comma};
ghost use Rattle.zir_grammar.specs.Grammar.{prefix_token, rank, symbol_of};
ghost use Rattle.zir_print.specs.Marks.{enclosed, held, mark, nowhere, parted};
ghost use Rattle.zir_print.specs.Expressions.{bracket_end, bracket_words, called_words, expr_words, kind, number_words, truth_word};
ghost use Rattle.zir_show.specs.Growth.{Adds};

use crate::text::Text;
use crate::types::put_base;
use std::alloc::AllocError;
use zir_lex::token::{Keyword, Symbol};
use zir_tree::expr::{Expr, Operator, Prefix};
use zir_tree::ident::Ident;

/// How loosely an operator binds: the tightest have 0.
fn operator_rank(operator: Operator) -> u32
    ensures { result ≡ rank operator }
{
    match operator {
        Operator::Multiply | Operator::Divide | Operator::Remainder => 0,
        Operator::Add | Operator::Subtract => 1,
        Operator::ShiftLeft | Operator::ShiftRight => 2,
        Operator::Less | Operator::LessEqual | Operator::Greater | Operator::GreaterEqual => 3,
        Operator::Equal | Operator::NotEqual => 4,
        Operator::BitAnd => 5,
        Operator::BitXor => 6,
        Operator::BitOr => 7,
        Operator::And => 8,
        Operator::Or => 9,
    }
}

/// The sign of an operator.
fn operator_symbol(operator: Operator) -> Symbol
    ensures { result ≡ symbol_of operator }
{
    match operator {
        Operator::Or => Symbol::OrOr,
        Operator::And => Symbol::AndAnd,
        Operator::BitOr => Symbol::Bar,
        Operator::BitXor => Symbol::Caret,
        Operator::BitAnd => Symbol::Ampersand,
        Operator::Equal => Symbol::EqualEqual,
        Operator::NotEqual => Symbol::NotEqual,
        Operator::Less => Symbol::Less,
        Operator::LessEqual => Symbol::LessEqual,
        Operator::Greater => Symbol::Greater,
        Operator::GreaterEqual => Symbol::GreaterEqual,
        Operator::ShiftLeft => Symbol::ShiftLeft,
        Operator::ShiftRight => Symbol::ShiftRight,
        Operator::Add => Symbol::Plus,
        Operator::Subtract => Symbol::Minus,
        Operator::Multiply => Symbol::Star,
        Operator::Divide => Symbol::Slash,
        Operator::Remainder => Symbol::Percent,
    }
}

fn put_prefix(text: &mut Text, prefix: Prefix) -> Result<(), AllocError>
    ensures { OnOk result (Adds text.old text.new (prefix_token prefix nowhere ∷ [])) }
{
    match prefix {
        Prefix::Minus => text.symbol(Symbol::Minus),
        Prefix::Complement => text.symbol(Symbol::Tilde),
        Prefix::Not => text.keyword(Keyword::Not),
    }
}

/// How loosely an expression binds: a primary 0, a prefix form 1, then binary forms by the ranks of their operators.
fn looseness(e: &Expr) -> u32
    ensures { result ≡ kind e.now }
{
    match e {
        Expr::Unary(..) => 1,
        Expr::Int(number, _, _) => u32::from(*number < 0),
        Expr::Binary(operator, _, _, _, _) => operator_rank(*operator) + 2,
        _ => 0,
    }
}

/// A whole number, with a `-` before it where it is below 0.
fn put_number(text: &mut Text, number: i128) -> Result<(), AllocError>
    ensures { OnOk result (Adds text.old text.new (number_words number nowhere)) }
{
    if number < 0 {
        text.symbol(Symbol::Minus)?;
        text.number(number.unsigned_abs())
    } else {
        text.number(number.unsigned_abs())
    }
}

/// `true` or `false`.
fn put_truth(text: &mut Text, truth: bool) -> Result<(), AllocError>
    ensures { OnOk result (Adds text.old text.new (truth_word truth nowhere ∷ [])) }
{
    if truth {
        text.keyword(Keyword::True)
    } else {
        text.keyword(Keyword::False)
    }
}

/// An expression, in parentheses where it binds looser than the limit.
#[cycle(expressions)]
fn put_held(text: &mut Text, limit: u32, e: &Expr) -> Result<(), AllocError>
    ensures { OnOk result (Adds text.old text.new (held limit (kind e.now) (expr_words e.now))) }
{
    if looseness(e) <= limit {
        put_expr(text, e)
    } else {
        put_enclosed(text, e)
    }
}

/// An expression in parentheses.
#[cycle(expressions)]
pub fn put_enclosed(text: &mut Text, e: &Expr) -> Result<(), AllocError>
    ensures { OnOk result (Adds text.old text.new (enclosed (expr_words e.now))) }
{
    text.symbol(Symbol::LeftParenthesis)?;
    put_expr(text, e)?;
    text.symbol(Symbol::RightParenthesis)
}

/// An index, or an index and a length, in brackets.
#[cycle(expressions)]
pub fn put_bracket(text: &mut Text, index: &Expr, length: Option<u64>) -> Result<(), AllocError>
    ensures { OnOk result (Adds text.old text.new (bracket_words nowhere (expr_words index.now) length)) }
{
    text.symbol(Symbol::LeftBracket)?;
    put_expr(text, index)?;
    put_bracket_end(text, length)
}

/// The end of an index, or of an index and a length, in brackets.
fn put_bracket_end(text: &mut Text, length: Option<u64>) -> Result<(), AllocError>
    ensures { OnOk result (Adds text.old text.new (bracket_end length)) }
{
    match length {
        Some(length) => {
            text.symbol(Symbol::Comma)?;
            text.number(length as u128)?;
            text.symbol(Symbol::RightBracket)
        }
        None => text.symbol(Symbol::RightBracket),
    }
}

/// An expression.
#[cycle(expressions)]
pub fn put_expr(text: &mut Text, e: &Expr) -> Result<(), AllocError>
    ensures { OnOk result (Adds text.old text.new (expr_words e.now)) }
{
    match e {
        Expr::Unit(_) => {
            text.symbol(Symbol::LeftParenthesis)?;
            text.symbol(Symbol::RightParenthesis)
        }
        Expr::Bit(bit, _) => text.bit(*bit),
        Expr::Bool(truth, _) => put_truth(text, *truth),
        Expr::Int(number, _, _) => put_number(text, *number),
        Expr::Variable(name) => text.name(&name.name),
        Expr::Unary(prefix, _, operand, _) => {
            put_prefix(text, *prefix)?;
            put_held(text, 1, operand.get())
        }
        Expr::Binary(operator, _, left, right, _) => {
            let rank = operator_rank(*operator);
            put_held(text, rank + 2, left.get())?;
            text.symbol(operator_symbol(*operator))?;
            put_held(text, rank + 1, right.get())
        }
        Expr::Index(base, index, _) => {
            put_held(text, 0, base.get())?;
            put_bracket(text, index.get(), None)
        }
        Expr::Slice(base, index, length, _) => {
            put_held(text, 0, base.get())?;
            put_bracket(text, index.get(), Some(*length))
        }
        Expr::Part(base, name, _, _) => {
            put_held(text, 0, base.get())?;
            text.symbol(Symbol::Dot)?;
            text.name(name)
        }
        Expr::Call(name, _, arguments) => put_call(text, name, arguments.as_slice()),
        Expr::Array(elements, _) => {
            text.symbol(Symbol::LeftBrace)?;
            put_exprs(text, elements.as_slice())?;
            text.symbol(Symbol::RightBrace)
        }
        Expr::Convert(base, operand, _) => {
            put_base(text, *base)?;
            put_enclosed(text, operand.get())
        }
        Expr::Complex(base, real, imaginary, _) => {
            put_base(text, *base)?;
            text.symbol(Symbol::LeftParenthesis)?;
            put_expr(text, real.get())?;
            text.symbol(Symbol::Comma)?;
            put_expr(text, imaginary.get())?;
            text.symbol(Symbol::RightParenthesis)
        }
    }
}

/// Expressions with a comma between each two.
#[cycle(expressions)]
fn put_exprs(text: &mut Text, es: &[Expr]) -> Result<(), AllocError>
    ensures { OnOk result (Adds text.old text.new (parted (mark Comma) (map expr_words es.now))) }
{
    for (index, e) in es.iter().enumerate() {
        text.before_part(index, Symbol::Comma)?;
        put_expr(text, e)?;
    }
    Ok(())
}

/// A call of a name with its arguments.
#[cycle(expressions)]
pub fn put_call(text: &mut Text, name: &Ident, arguments: &[Expr]) -> Result<(), AllocError>
    ensures { OnOk result (Adds text.old text.new (called_words name.now arguments.now)) }
{
    text.name(&name.name)?;
    text.symbol(Symbol::LeftParenthesis)?;
    put_exprs(text, arguments)?;
    text.symbol(Symbol::RightParenthesis)
}

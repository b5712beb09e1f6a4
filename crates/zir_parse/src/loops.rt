// The heads of loops.

ghost use Rattle.std.specs.Prelude.{◌≡◌, ◌≤◌, ◌<◌, ℕ, suc, max, length, true, nat_le, IfOk};
ghost use Rattle.zir_tree.specs.declared.comp.Comp.{Comp as CompValue};
ghost use Rattle.zir_tree.specs.declared.comp.Comp as comp;
ghost use Rattle.zir_tree.specs.declared.place.Place.{Place as PlaceValue};
ghost use Rattle.zir_tree.specs.declared.program.Prog.{Prog};
ghost use Rattle.zir_grammar.specs.Parts as parts;
ghost use Rattle.zir_grammar.specs.Machine.{least, run};
ghost use Rattle.zir_grammar.specs.Reading.{HasRoom, Leads};
ghost use Rattle.zir_parse.specs.Heads as heads;
ghost use Rattle.zir_parse.specs.Loops.{looped, a_loop_body};

use crate::heads::Loop;
use sqlite_items::Boxed;
use std::alloc::{AllocError, Global};
use zir_grammar::stop::Stop;
use zir_grammar::wanted::{want_number, want_symbol};
use zir_grammar::words::symbol;
use zir_lex::token::{Symbol, Token};
use zir_parse_statements::statements::{bounds, condition};
use zir_tree::comp::{Comp, Turning};
use zir_tree::expr::Expr;
use zir_tree::ident::Ident;
use zir_tree::place::Place;

/// What stands before the body of a loop.
#[derive(Drop)]
pub enum LoopHead {
    Repeat,
    /// `while` or `until` and the condition.
    Turn(Turning, Expr),
    Times(Expr),
    /// The name, its first value and the count.
    For(Ident, Expr, Expr),
}

/// What follows the hint behind `repeat`, if there is one.
fn past_hint(tokens: &[Token]) -> Result<&[Token], Stop>
    ensures read { (most : ℕ) (at : PlaceValue) (k : CompValue → ℕ → parts.Rest Prog)
        → ((c : CompValue) → nat_le (least (k c 2)) most ≡ true)
        → Leads (λ x. run most (parts.reads (parts.a_chain 0) (λ c h. k (comp.Repeat c at) (suc h))) x.now) result
        (run most (parts.reads (parts.behind_repeat at) k) tokens.now) }
    ensures rest { IfOk result (λ x. length x.now ≤ length tokens.now) }
{
    let Some((_, rest)) = symbol(tokens, Symbol::LeftBracket) else {
        return Ok(tokens);
    };
    let (_, rest) = want_number(rest)?;
    let rest = want_symbol(rest, Symbol::Comma)?;
    let (_, rest) = want_number(rest)?;
    let rest = want_symbol(rest, Symbol::RightBracket)?;
    Ok(rest)
}

/// The head of a loop behind its word, its height, and what follows it.
pub fn loop_head(
    alloc: Global,
    room: usize,
    which: Loop,
    tokens: &[Token],
) -> Result<(LoopHead, usize, &[Token]), Stop>
    requires { 2 ≤ room }
    ensures read { (most : ℕ) (at : PlaceValue) (k : CompValue → ℕ → parts.Rest Prog) → HasRoom most k 1 room
        → Leads (λ x. run most (a_loop_body (λ c. looped x.0 c at) x.1 k) x.2.now) result
        (run most (parts.follow (heads.behind_loop which at) k) tokens.now) }
    ensures high { IfOk result (λ x. x.1 < room) }
    ensures rest { IfOk result (λ x. length x.2.now ≤ length tokens.now) }
{
    match which {
        Loop::Repeat => {
            let rest = past_hint(tokens)?;
            Ok((LoopHead::Repeat, 0, rest))
        }
        Loop::Turn(turning) => {
            let (value, height, rest) = condition(alloc, room - 1, tokens)?;
            Ok((LoopHead::Turn(turning, value), height, rest))
        }
        Loop::Times => {
            let (count, height, rest) = condition(alloc, room - 1, tokens)?;
            Ok((LoopHead::Times(count), height, rest))
        }
        Loop::For => {
            let (name, first, count, height, rest) = bounds(alloc, room - 1, tokens)?;
            Ok((LoopHead::For(name, first, count), height, rest))
        }
    }
}

/// The loop of a head and a body.
pub fn loop_of(alloc: Global, head: LoopHead, body: Comp, at: Place) -> Result<Comp, AllocError>
    ensures { IfOk result (λ c. c ≡ looped head body at) }
{
    let body = Boxed::new(alloc, body)?;
    match head {
        LoopHead::Repeat => Ok(Comp::Repeat(body, at)),
        LoopHead::Turn(turning, value) => Ok(Comp::While(turning, value, body, at)),
        LoopHead::Times(count) => Ok(Comp::Times(count, body, at)),
        LoopHead::For(name, first, count) => Ok(Comp::For(name, first, count, body, at)),
    }
}

// The main component of a program.

ghost use Rattle.std.specs.Prelude.{◌≡◌, ◌≤◌, ◌<◌, None, false, length, IfOk};
ghost use Rattle.zir_lex.specs.declared.token.Symbol.TheVariants as symbols;
ghost use Rattle.zir_grammar.specs.Wants.{a_sign};
ghost use Rattle.zir_grammar.specs.Parts as parts;
ghost use Rattle.zir_grammar.specs.Reading.{at_front};
ghost use Rattle.zir_parse.specs.Main as specs;
ghost use Rattle.zir_parse.specs.Main.{ParsesBeside};

use crate::components::atom;
use sqlite_items::Boxed;
use std::alloc::Global;
use zir_grammar::stop::Stop;
use zir_grammar::words::{keyword, symbol};
use zir_lex::token::{Keyword, Symbol, Token};
use zir_tree::comp::{Comp, Link};

/// The levels that a component may have behind one of that height and a `>>>`. There are none where even the lowest
/// component is too high.
fn room_behind(room: usize, height: usize) -> usize
    ensures { result ≡ specs.room_behind room height }
{
    if height < room { room - 1 } else { 0 }
}

/// Components of the main chain up to a `|>>>|`, joined by `>>>`, their height, whether the word `write` follows them,
/// and what follows that.
fn serial(
    alloc: Global,
    room: usize,
    tokens: &[Token],
) -> Result<(Comp, usize, bool, &[Token]), Stop>
    ensures read { ParsesBeside room tokens.now (λ x. (x.0, x.1, x.2, x.3.now)) result }
    ensures low { IfOk result (λ x. 1 ≤ x.1) }
    ensures high { IfOk result (λ x. x.1 ≤ room) }
    ensures rest { IfOk result (λ x. length x.3.now < length tokens.now) }
    ensures ends { IfOk result (λ x. x.2 ≡ false → at_front (a_sign symbols.Pipe) x.3.now ≡ None) }
{
    let (first, low, after) = atom(alloc, room, tokens)?;
    let mut left = first;
    let mut height = low;
    let mut rest = after;
    while let Some((at, after)) = symbol(rest, Symbol::Pipe) {
        if let Some((_, after)) = keyword(after, Keyword::Write) {
            return Ok((left, height, true, after));
        }
        let before = Boxed::new(alloc, left)?;
        let below = room_behind(room, height);
        let (right, high, after) = atom(alloc, below, after)?;
        let behind = Boxed::new(alloc, right)?;
        left = Comp::Pipe(Link::Serial, before, behind, at);
        height = height.max(high) + 1;
        rest = after;
    }
    Ok((left, height, false, rest))
}

/// The main component, its height, and what follows the word `write` behind it.
pub fn main_chain(
    alloc: Global,
    room: usize,
    tokens: &[Token],
) -> Result<(Comp, usize, &[Token]), Stop>
    requires { 1 ≤ room }
    ensures read { specs.ParsesMain room tokens.now (λ x. (x.0, x.1, x.2.now)) result }
    ensures high { IfOk result (λ x. x.1 ≤ room) }
{
    let (first, low, written, after) = serial(alloc, room, tokens)?;
    let mut left = first;
    let mut height = low;
    let mut ended = written;
    let mut rest = after;
    while !ended {
        let before = Boxed::new(alloc, left)?;
        let Some((at, after)) = symbol(rest, Symbol::ParallelPipe) else {
            return Err(Stop::Syntax(rest.len()));
        };
        if height >= room {
            return Err(Stop::TooDeep(rest.len()));
        }
        let (right, high, written, after) = serial(alloc, room - 1, after)?;
        let behind = Boxed::new(alloc, right)?;
        left = Comp::Pipe(Link::Parallel, before, behind, at);
        height = height.max(high) + 1;
        ended = written;
        rest = after;
    }
    Ok((left, height, rest))
}

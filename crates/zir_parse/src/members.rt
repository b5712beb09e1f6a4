// What stands round the components in a block.

ghost use Rattle.std.specs.Prelude.{◌≡◌, ◌≤◌, ◌<◌, ◌+◌, ℕ, List, length, true, nat_le, IfOk, IfSome};
ghost use Rattle.zir_tree.specs.declared.comp.Member.{Member as MemberValue};
ghost use Rattle.zir_tree.specs.declared.program.Prog.{Prog};
ghost use Rattle.zir_grammar.specs.Grammar as grammar;
ghost use Rattle.zir_grammar.specs.Parts as parts;
ghost use Rattle.zir_grammar.specs.Machine.{least, run};
ghost use Rattle.zir_grammar.specs.Reading.{Finds, Leads};
ghost use Rattle.zir_parse.specs.Members.{binder_front, behind_member, a_member_end, a_variable_behind, ParsesBy};

use std::alloc::{AllocError, Global};
use zir_grammar::stop::Stop;
use zir_grammar::wanted::{ident, want_symbol};
use zir_grammar::words::{name, symbol};
use zir_lex::token::{Symbol, Token};
use zir_parse_statements::statements::variable;
use zir_tree::comp::Member;
use zir_tree::ident::Ident;
use zir_tree::place::Place;

/// A name and `<-` at the front, and what follows them.
#[tactic(auto, unfolding(crate::specs::Members::binder_front))]
pub fn binder(alloc: Global, tokens: &[Token]) -> Result<Option<(Ident, &[Token])>, AllocError>
    ensures found { IfOk result (λ o. Finds (λ x. ((x.0.name, x.0.at), x.1.now)) o (binder_front tokens.now)) }
    ensures new { IfOk result (λ o. IfSome o (λ x. x.0 ≡ grammar.ident x.0.name x.0.at)) }
    ensures rest { IfOk result (λ o. IfSome o (λ x. length tokens.now ≡ length x.1.now + 2)) }
{
    let Some((found, at, rest)) = name(tokens) else {
        return Ok(None);
    };
    let Some((_, rest)) = symbol(rest, Symbol::LeftArrow) else {
        return Ok(None);
    };
    let name = ident(alloc, found, at)?;
    Ok(Some((name, rest)))
}

/// A variable of a block behind its word, its height, that the block is not closed behind it, and what follows the `;`.
pub fn member_variable(
    alloc: Global,
    room: usize,
    at: Place,
    tokens: &[Token],
) -> Result<(Member, usize, bool, &[Token]), Stop>
    requires { 1 ≤ room }
    ensures read { ParsesBy (a_variable_behind at) room tokens.now (λ x. (x.0, x.1, x.2, x.3.now)) result }
    ensures low { IfOk result (λ x. 1 ≤ x.1) }
    ensures high { IfOk result (λ x. x.1 ≤ room) }
    ensures rest { IfOk result (λ x. length x.3.now < length tokens.now) }
{
    let (var, height, rest) = variable(alloc, room, at, tokens)?;
    let rest = want_symbol(rest, Symbol::Semicolon)?;
    Ok((Member::Var(var), height, false, rest))
}

/// Whether the block is closed behind a component in it, and what follows the signs.
pub fn ended(tokens: &[Token]) -> Result<(bool, &[Token]), Stop>
    ensures read { (most : ℕ) (done : List MemberValue) (low : ℕ) (k : List MemberValue → ℕ → parts.Rest Prog)
        → nat_le (least (k done low)) most ≡ true
        → Leads (λ x. run most (behind_member x.0 done low k) x.1.now) result
        (run most (a_member_end done low k) tokens.now) }
    ensures rest { IfOk result (λ x. length x.1.now < length tokens.now) }
{
    if let Some((_, rest)) = symbol(tokens, Symbol::RightBrace) {
        return Ok((true, rest));
    }
    let rest = want_symbol(tokens, Symbol::Semicolon)?;
    if let Some((_, rest)) = symbol(rest, Symbol::RightBrace) {
        return Ok((true, rest));
    }
    Ok((false, rest))
}

// Components.
//
// A component that was read is boxed or dropped by a call before the next `?`: what a `?` drops by itself is written
// out in full, and a component has too many forms for that.

ghost use Rattle.std.specs.Prelude.{◌≡◌, ◌≤◌, ◌<◌, [], ℕ, length, IfOk};
ghost use Rattle.zir_grammar.specs.Parts as parts;
ghost use Rattle.zir_parse_statements.specs.Parsers.{Parses};
ghost use Rattle.zir_parse.specs.declared.heads.Form.TheVariants as forms;
ghost use Rattle.zir_parse.specs.Heads as heads;
ghost use Rattle.zir_parse.specs.Heads.{a_call_behind, a_single_behind, a_form_behind};
ghost use Rattle.zir_parse.specs.Members.{ParsesBy, a_bound_behind, a_run};

use crate::heads::{Form, Giving, Head, Loop, Single, begins_component, least_height};
use crate::loops::{loop_head, loop_of};
use crate::members::{binder, ended, member_variable};
use sqlite_items::{Boxed, Items};
use std::alloc::Global;
use zir_grammar::stop::Stop;
use zir_grammar::wanted::{ident, want_keyword, want_name, want_number, want_symbol};
use zir_grammar::words::{keyword, link, name, symbol};
use zir_lex::token::{Keyword, Symbol, Token};
use zir_parse_statements::expressions::{arguments, expression};
use zir_parse_statements::statements::body;
use zir_tree::comp::{Comp, Member};
use zir_tree::expr::Expr;
use zir_tree::ident::Ident;
use zir_tree::name::Name;
use zir_tree::place::Place;

/// The number of ranks of signs between components.
const LINKS: usize = 2;

/// A component without a `>>>` or `|>>>|` outside of its parts, its height, and what follows it.
#[cycle(comp)]
pub fn atom(alloc: Global, room: usize, tokens: &[Token]) -> Result<(Comp, usize, &[Token]), Stop>
    ensures read { Parses (parts.reads (parts.a_chain 0)) 1 room tokens.now (λ x. (x.0, x.1, x.2.now)) result }
    ensures low { IfOk result (λ x. 1 ≤ x.1) }
    ensures high { IfOk result (λ x. x.1 ≤ room) }
    ensures rest { IfOk result (λ x. length x.2.now < length tokens.now) }
{
    if let Some((found, at, rest)) = name(tokens) {
        if room == 0 {
            return Err(Stop::TooDeep(tokens.len()));
        }
        return called(alloc, room, found, at, rest);
    }
    let Some((head, at, rest)) = begins_component(tokens) else {
        return Err(Stop::Syntax(tokens.len()));
    };
    if room < least_height(head) {
        return Err(Stop::TooDeep(tokens.len()));
    }
    match head {
        Head::Single(form) => single(alloc, form, at, rest),
        Head::Form(form) => compound(alloc, room, form, at, rest),
    }
}

/// A call behind its name, its height, and what follows it.
fn called<'a>(
    alloc: Global,
    room: usize,
    found: &Name,
    at: Place,
    tokens: &'a [Token],
) -> Result<(Comp, usize, &'a [Token]), Stop>
    requires { 1 ≤ room }
    ensures read { Parses (a_call_behind found.now at) 1 room tokens.now (λ x. (x.0, x.1, x.2.now)) result }
    ensures low { IfOk result (λ x. 1 ≤ x.1) }
    ensures high { IfOk result (λ x. x.1 ≤ room) }
    ensures rest { IfOk result (λ x. length x.2.now < length tokens.now) }
{
    let name = ident(alloc, found, at)?;
    let rest = want_symbol(tokens, Symbol::LeftParenthesis)?;
    let (arguments, high, rest) = arguments(alloc, room - 1, rest)?;
    Ok((Comp::Call(name, 0, arguments), high + 1, rest))
}

/// A component without parts behind its word, its height, which is 1, and what follows it.
fn single(
    alloc: Global,
    form: Single,
    at: Place,
    tokens: &[Token],
) -> Result<(Comp, usize, &[Token]), Stop>
    ensures read { (room : ℕ) → 1 ≤ room
        → Parses (a_single_behind form at) 1 room tokens.now (λ x. (x.0, x.1, x.2.now)) result }
    ensures height { IfOk result (λ x. x.1 ≡ 1) }
    ensures rest { IfOk result (λ x. length x.2.now ≤ length tokens.now) }
{
    match form {
        Single::Take => Ok((Comp::Take(at), 1, tokens)),
        Single::Takes => {
            let (count, rest) = want_number(tokens)?;
            Ok((Comp::Takes(count, at), 1, rest))
        }
        Single::Map => {
            let (name, rest) = want_name(alloc, tokens)?;
            Ok((Comp::Map(name, 0, at), 1, rest))
        }
        Single::Filter => {
            let (test, rest) = want_name(alloc, tokens)?;
            Ok((Comp::Filter(test, 0, at), 1, rest))
        }
    }
}

/// A component that gives a value.
fn giving_of(giving: Giving, value: Expr, at: Place) -> Comp
    ensures { result ≡ heads.giving_of giving value at }
{
    match giving {
        Giving::Emit => Comp::Emit(value, at),
        Giving::Emits => Comp::Emits(value, at),
        Giving::Return => Comp::Return(value, at),
    }
}

/// A component that gives a value behind its word, its height, and what follows it.
fn with_value(
    alloc: Global,
    room: usize,
    giving: Giving,
    at: Place,
    tokens: &[Token],
) -> Result<(Comp, usize, &[Token]), Stop>
    requires { 2 ≤ room }
    ensures read { Parses (a_form_behind (forms.Giving giving) at) 1 room tokens.now (λ x. (x.0, x.1, x.2.now)) result }
    ensures low { IfOk result (λ x. 1 ≤ x.1) }
    ensures high { IfOk result (λ x. x.1 ≤ room) }
    ensures rest { IfOk result (λ x. length x.2.now < length tokens.now) }
{
    let (value, height, rest) = expression(alloc, room - 1, tokens)?;
    Ok((giving_of(giving, value, at), height + 1, rest))
}

/// `do` behind its word, its height, and what follows it.
fn performed(
    alloc: Global,
    room: usize,
    at: Place,
    tokens: &[Token],
) -> Result<(Comp, usize, &[Token]), Stop>
    requires { 2 ≤ room }
    ensures read { Parses (a_form_behind forms.Do at) 1 room tokens.now (λ x. (x.0, x.1, x.2.now)) result }
    ensures low { IfOk result (λ x. 1 ≤ x.1) }
    ensures high { IfOk result (λ x. x.1 ≤ room) }
    ensures rest { IfOk result (λ x. length x.2.now < length tokens.now) }
{
    let (body, height, rest) = body(alloc, room - 1, tokens)?;
    Ok((Comp::Do(body, at), height + 1, rest))
}

/// A component with parts behind its first token, its height, and what follows it.
#[cycle(comp)]
fn compound(
    alloc: Global,
    room: usize,
    form: Form,
    at: Place,
    tokens: &[Token],
) -> Result<(Comp, usize, &[Token]), Stop>
    requires { 2 ≤ room }
    ensures read { Parses (a_form_behind form at) 1 room tokens.now (λ x. (x.0, x.1, x.2.now)) result }
    ensures low { IfOk result (λ x. 1 ≤ x.1) }
    ensures high { IfOk result (λ x. x.1 ≤ room) }
    ensures rest { IfOk result (λ x. length x.2.now < length tokens.now) }
{
    match form {
        Form::Giving(giving) => with_value(alloc, room, giving, at, tokens),
        Form::Do => performed(alloc, room, at, tokens),
        Form::Loop(which) => whole_loop(alloc, room, which, at, tokens),
        Form::If => choice(alloc, room, at, tokens),
        Form::Block => {
            let (members, height, rest) = inside_block(alloc, room - 1, tokens)?;
            Ok((Comp::Block(members, at), height + 1, rest))
        }
        Form::Enclosed => {
            let (inner, height, rest) = chain(alloc, LINKS, room - 1, tokens)?;
            match want_symbol(rest, Symbol::RightParenthesis) {
                Ok(rest) => Ok((inner, height + 1, rest)),
                Err(stop) => {
                    drop(inner);
                    Err(stop)
                }
            }
        }
    }
}

/// A loop behind its word, its height, and what follows it.
#[cycle(comp)]
fn whole_loop(
    alloc: Global,
    room: usize,
    which: Loop,
    at: Place,
    tokens: &[Token],
) -> Result<(Comp, usize, &[Token]), Stop>
    requires { 2 ≤ room }
    ensures read { Parses (a_form_behind (forms.Loop which) at) 1 room tokens.now (λ x. (x.0, x.1, x.2.now)) result }
    ensures low { IfOk result (λ x. 1 ≤ x.1) }
    ensures high { IfOk result (λ x. x.1 ≤ room) }
    ensures rest { IfOk result (λ x. length x.2.now < length tokens.now) }
{
    let (head, low, rest) = loop_head(alloc, room, which, tokens)?;
    let (body, high, rest) = atom(alloc, room - 1, rest)?;
    let whole = loop_of(alloc, head, body, at)?;
    Ok((whole, low.max(high) + 1, rest))
}

/// `if` behind its word, its height, and what follows it.
#[cycle(comp)]
fn choice(
    alloc: Global,
    room: usize,
    at: Place,
    tokens: &[Token],
) -> Result<(Comp, usize, &[Token]), Stop>
    requires { 2 ≤ room }
    ensures read { Parses (a_form_behind forms.If at) 1 room tokens.now (λ x. (x.0, x.1, x.2.now)) result }
    ensures low { IfOk result (λ x. 1 ≤ x.1) }
    ensures high { IfOk result (λ x. x.1 ≤ room) }
    ensures rest { IfOk result (λ x. length x.2.now < length tokens.now) }
{
    let (value, low, rest) = expression(alloc, room - 1, tokens)?;
    let rest = want_keyword(rest, Keyword::Then)?;
    let (first, mid, rest) = atom(alloc, room - 1, rest)?;
    let then = Boxed::new(alloc, first)?;
    let rest = want_keyword(rest, Keyword::Else)?;
    let (second, high, rest) = atom(alloc, room - 1, rest)?;
    let other = Boxed::new(alloc, second)?;
    let height = low.max(mid).max(high) + 1;
    Ok((Comp::If(value, then, other, at), height, rest))
}

/// Components joined by signs of ranks below that number, the height of the whole, and what follows it.
#[cycle(comp)]
fn chain(
    alloc: Global,
    ranks: usize,
    room: usize,
    tokens: &[Token],
) -> Result<(Comp, usize, &[Token]), Stop>
    ensures read { Parses (parts.reads (parts.a_chain ranks)) 1 room tokens.now (λ x. (x.0, x.1, x.2.now)) result }
    ensures low { IfOk result (λ x. 1 ≤ x.1) }
    ensures high { IfOk result (λ x. x.1 ≤ room) }
    ensures rest { IfOk result (λ x. length x.2.now < length tokens.now) }
{
    if ranks == 0 {
        return atom(alloc, room, tokens);
    }
    let (first, low, after) = chain(alloc, ranks - 1, room, tokens)?;
    let mut left = first;
    let mut height = low;
    let mut rest = after;
    while let Some((link, at, after)) = link(rest, ranks - 1) {
        let before = Boxed::new(alloc, left)?;
        if height >= room {
            return Err(Stop::TooDeep(rest.len()));
        }
        let (right, high, after) = chain(alloc, ranks - 1, room - 1, after)?;
        let behind = Boxed::new(alloc, right)?;
        left = Comp::Pipe(link, before, behind, at);
        height = height.max(high) + 1;
        rest = after;
    }
    Ok((left, height, rest))
}

/// The members behind a `{`, the greatest of their heights, and what follows the `}`.
#[cycle(comp)]
fn inside_block(
    alloc: Global,
    room: usize,
    tokens: &[Token],
) -> Result<(Items<Member>, usize, &[Token]), Stop>
    requires { 1 ≤ room }
    ensures read { Parses (parts.reads (parts.more_members [] 0)) 1 room tokens.now (λ x. (x.0, x.1, x.2.now)) result }
    ensures low { IfOk result (λ x. 1 ≤ x.1) }
    ensures high { IfOk result (λ x. x.1 ≤ room) }
    ensures rest { IfOk result (λ x. length x.2.now < length tokens.now) }
{
    let mut members = Items::new(alloc);
    let mut high: usize = 0;
    let mut rest = tokens;
    loop {
        let (member, height, closed, after) = member(alloc, room, rest)?;
        members.push(member)?;
        high = high.max(height);
        if closed {
            return Ok((members, high, after));
        }
        rest = after;
    }
}

/// A member of a block, its height, whether the block is closed behind it, and what follows the signs.
#[cycle(comp)]
fn member(
    alloc: Global,
    room: usize,
    tokens: &[Token],
) -> Result<(Member, usize, bool, &[Token]), Stop>
    requires { 1 ≤ room }
    ensures read { ParsesBy (λ done low. parts.reads (parts.more_members done low)) room tokens.now
        (λ x. (x.0, x.1, x.2, x.3.now)) result }
    ensures low { IfOk result (λ x. 1 ≤ x.1) }
    ensures high { IfOk result (λ x. x.1 ≤ room) }
    ensures rest { IfOk result (λ x. length x.3.now < length tokens.now) }
{
    if let Some((at, rest)) = keyword(tokens, Keyword::Var) {
        return member_variable(alloc, room, at, rest);
    }
    let binding = binder(alloc, tokens)?;
    match binding {
        None => run_member(alloc, room, tokens),
        Some((name, rest)) => {
            if room < 2 {
                return Err(Stop::TooDeep(rest.len() + 1));
            }
            bound_member(alloc, room, name, rest)
        }
    }
}

/// A member behind its `<-`, its height, that the block is not closed behind it, and what follows the `;`.
#[cycle(comp)]
fn bound_member(
    alloc: Global,
    room: usize,
    name: Ident,
    tokens: &[Token],
) -> Result<(Member, usize, bool, &[Token]), Stop>
    requires { 2 ≤ room }
    ensures read { ParsesBy (a_bound_behind name) room tokens.now (λ x. (x.0, x.1, x.2, x.3.now)) result }
    ensures low { IfOk result (λ x. 1 ≤ x.1) }
    ensures high { IfOk result (λ x. x.1 ≤ room) }
    ensures rest { IfOk result (λ x. length x.3.now < length tokens.now) }
{
    let (what, height, rest) = chain(alloc, LINKS, room - 1, tokens)?;
    match want_symbol(rest, Symbol::Semicolon) {
        Ok(rest) => Ok((Member::Bind(name, what), height + 1, false, rest)),
        Err(stop) => {
            drop(what);
            Err(stop)
        }
    }
}

/// A component as a member, its height, whether the block is closed behind it, and what follows the signs.
#[cycle(comp)]
fn run_member(
    alloc: Global,
    room: usize,
    tokens: &[Token],
) -> Result<(Member, usize, bool, &[Token]), Stop>
    requires { 1 ≤ room }
    ensures read { ParsesBy a_run room tokens.now (λ x. (x.0, x.1, x.2, x.3.now)) result }
    ensures low { IfOk result (λ x. 1 ≤ x.1) }
    ensures high { IfOk result (λ x. x.1 ≤ room) }
    ensures rest { IfOk result (λ x. length x.3.now < length tokens.now) }
{
    let (what, height, rest) = chain(alloc, LINKS, room, tokens)?;
    match ended(rest) {
        Ok((closed, rest)) => Ok((Member::Run(what), height, closed, rest)),
        Err(stop) => {
            drop(what);
            Err(stop)
        }
    }
}

/// A block with its braces, its height, and what follows it.
pub fn block(alloc: Global, room: usize, tokens: &[Token]) -> Result<(Comp, usize, &[Token]), Stop>
    requires { 2 ≤ room }
    ensures read { Parses (parts.reads parts.a_block) 2 room tokens.now (λ x. (x.0, x.1, x.2.now)) result }
    ensures low { IfOk result (λ x. 2 ≤ x.1) }
    ensures high { IfOk result (λ x. x.1 ≤ room) }
    ensures rest { IfOk result (λ x. length x.2.now < length tokens.now) }
{
    let Some((at, rest)) = symbol(tokens, Symbol::LeftBrace) else {
        return Err(Stop::Syntax(tokens.len()));
    };
    let (members, height, rest) = inside_block(alloc, room - 1, rest)?;
    Ok((Comp::Block(members, at), height + 1, rest))
}

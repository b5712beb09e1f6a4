// Components.

ghost use Rattle.std.specs.Prelude.{◌≡◌, [], ◌∷◌, map, OnOk};
ghost use Rattle.zir_lex.specs.declared.token.Symbol.TheVariants.{Semicolon};
ghost use Rattle.zir_grammar.specs.Grammar.{link_rank, link_symbol};
ghost use Rattle.zir_print.specs.Marks.{enclosed, held, link_word, mark, parted};
ghost use Rattle.zir_print.specs.Components.{comp_kind, comp_words, member_words, turning_word};
ghost use Rattle.zir_print.specs.Types.{ident_word};
ghost use Rattle.zir_print.specs.Expressions.{expr_words};
ghost use Rattle.zir_show.specs.Growth.{Adds};

use crate::expressions::{put_call, put_enclosed, put_expr};
use crate::statements::{put_body, put_bounds, put_var};
use crate::text::Text;
use std::alloc::AllocError;
use zir_lex::token::{Keyword, Symbol};
use zir_tree::comp::{Comp, Link, Member, Turning};
use zir_tree::expr::Expr;
use zir_tree::ident::Ident;

/// How loosely a sign between components binds: `>>>` has 0.
fn rank_of(link: Link) -> u32
    ensures { result ≡ link_rank link }
{
    match link {
        Link::Serial => 0,
        Link::Parallel => 1,
    }
}

/// The sign that joins two components.
fn symbol_of(link: Link) -> Symbol
    ensures { result ≡ link_symbol link }
{
    match link {
        Link::Serial => Symbol::Pipe,
        Link::Parallel => Symbol::ParallelPipe,
    }
}

/// How loosely a component binds: an atom 0, then the joined ones by the ranks of their signs.
fn looseness(c: &Comp) -> u32
    ensures { result ≡ comp_kind c.now }
{
    match c {
        Comp::Pipe(link, _, _, _) => rank_of(*link) + 1,
        _ => 0,
    }
}

/// The word of a loop with a condition.
fn keyword_of(turning: Turning) -> Keyword
    ensures { result ≡ turning_word turning }
{
    match turning {
        Turning::While => Keyword::While,
        Turning::Until => Keyword::Until,
    }
}

fn put_with_value(text: &mut Text, keyword: Keyword, e: &Expr) -> Result<(), AllocError>
    ensures { OnOk result (Adds text.old text.new (link_word keyword ∷ expr_words e.now)) }
{
    text.keyword(keyword)?;
    put_expr(text, e)
}

fn put_with_name(text: &mut Text, keyword: Keyword, name: &Ident) -> Result<(), AllocError>
    ensures { OnOk result (Adds text.old text.new (link_word keyword ∷ ident_word name.now ∷ [])) }
{
    text.keyword(keyword)?;
    text.name(&name.name)
}

fn put_with_condition(text: &mut Text, keyword: Keyword, e: &Expr) -> Result<(), AllocError>
    ensures { OnOk result (Adds text.old text.new (link_word keyword ∷ enclosed (expr_words e.now))) }
{
    text.keyword(keyword)?;
    put_enclosed(text, e)
}

/// A component, in parentheses where it binds looser than the limit.
#[cycle(comp)]
fn put_held(text: &mut Text, limit: u32, c: &Comp) -> Result<(), AllocError>
    ensures { OnOk result (Adds text.old text.new (held limit (comp_kind c.now) (comp_words c.now))) }
{
    if looseness(c) <= limit {
        put_comp(text, c)
    } else {
        text.symbol(Symbol::LeftParenthesis)?;
        put_comp(text, c)?;
        text.symbol(Symbol::RightParenthesis)
    }
}

/// A component.
#[cycle(comp)]
pub fn put_comp(text: &mut Text, c: &Comp) -> Result<(), AllocError>
    ensures { OnOk result (Adds text.old text.new (comp_words c.now)) }
{
    match c {
        Comp::Take(_) => text.keyword(Keyword::Take),
        Comp::Takes(count, _) => {
            text.keyword(Keyword::Takes)?;
            text.number(*count as u128)
        }
        Comp::Emit(e, _) => put_with_value(text, Keyword::Emit, e),
        Comp::Emits(e, _) => put_with_value(text, Keyword::Emits, e),
        Comp::Return(e, _) => put_with_value(text, Keyword::Return, e),
        Comp::Do(body, _) => {
            text.keyword(Keyword::Do)?;
            put_body(text, body)
        }
        Comp::Repeat(c, _) => {
            text.keyword(Keyword::Repeat)?;
            put_held(text, 0, c.get())
        }
        Comp::While(turning, e, c, _) => {
            put_with_condition(text, keyword_of(*turning), e)?;
            put_held(text, 0, c.get())
        }
        Comp::Times(e, c, _) => {
            put_with_condition(text, Keyword::Times, e)?;
            put_held(text, 0, c.get())
        }
        Comp::For(name, from, count, c, _) => {
            text.keyword(Keyword::For)?;
            put_bounds(text, name, from, count)?;
            put_held(text, 0, c.get())
        }
        Comp::If(e, c, d, _) => {
            put_with_value(text, Keyword::If, e)?;
            text.keyword(Keyword::Then)?;
            put_held(text, 0, c.get())?;
            text.keyword(Keyword::Else)?;
            put_held(text, 0, d.get())
        }
        Comp::Map(name, _, _) => put_with_name(text, Keyword::Map, name),
        Comp::Filter(name, _, _) => put_with_name(text, Keyword::Filter, name),
        Comp::Call(name, _, arguments) => put_call(text, name, arguments.as_slice()),
        Comp::Block(members, _) => {
            text.symbol(Symbol::LeftBrace)?;
            put_members(text, members.as_slice())?;
            text.symbol(Symbol::RightBrace)
        }
        Comp::Pipe(link, left, right, _) => {
            let rank = rank_of(*link);
            put_held(text, rank + 1, left.get())?;
            text.symbol(symbol_of(*link))?;
            put_held(text, rank, right.get())
        }
    }
}

/// A member of a block.
#[cycle(comp)]
fn put_member(text: &mut Text, member: &Member) -> Result<(), AllocError>
    ensures { OnOk result (Adds text.old text.new (member_words member.now)) }
{
    match member {
        Member::Bind(name, c) => {
            text.name(&name.name)?;
            text.symbol(Symbol::LeftArrow)?;
            put_comp(text, c)
        }
        Member::Var(var) => put_var(text, var),
        Member::Run(c) => put_comp(text, c),
    }
}

/// Members with `;` between each two.
#[cycle(comp)]
fn put_members(text: &mut Text, members: &[Member]) -> Result<(), AllocError>
    ensures { OnOk result (Adds text.old text.new (parted (mark Semicolon) (map member_words members.now))) }
{
    for (index, member) in members.iter().enumerate() {
        text.before_part(index, Symbol::Semicolon)?;
        put_member(text, member)?;
    }
    Ok(())
}

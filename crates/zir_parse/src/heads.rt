// What components and declarations begin with.

ghost use Rattle.std.specs.Prelude.{◌≡◌, ◌+◌, length, IfSome};
ghost use Rattle.zir_grammar.specs.Reading.{Finds};
ghost use Rattle.zir_parse.specs.Heads as heads;

use zir_lex::token::{Keyword, Lexeme, Symbol, Token};
use zir_tree::comp::Turning;
use zir_tree::place::Place;

/// The forms of a loop.
#[derive(Clone, Copy)]
pub enum Loop {
    Repeat,
    /// `while` or `until`.
    Turn(Turning),
    Times,
    For,
}

/// What is done with a value.
#[derive(Clone, Copy)]
pub enum Giving {
    Emit,
    Emits,
    Return,
}

/// The forms of a component that has parts and is neither a call nor of components joined by signs.
#[derive(Clone, Copy)]
pub enum Form {
    Giving(Giving),
    Do,
    Loop(Loop),
    If,
    Block,
    /// A component in parentheses.
    Enclosed,
}

/// The forms of a component that has no parts.
#[derive(Clone, Copy)]
pub enum Single {
    Take,
    Takes,
    Map,
    Filter,
}

/// What a component begins with that is no call.
#[derive(Clone, Copy)]
pub enum Head {
    Single(Single),
    Form(Form),
}

/// What a declaration begins with.
#[derive(Clone, Copy)]
pub enum Declares {
    Struct,
    Function,
    Var,
}

/// The form that a lexeme begins.
fn form_of(lexeme: &Lexeme) -> Option<Form>
    ensures { result ≡ heads.form_of lexeme.now }
{
    match lexeme {
        Lexeme::Keyword(Keyword::Emit) => Some(Form::Giving(Giving::Emit)),
        Lexeme::Keyword(Keyword::Emits) => Some(Form::Giving(Giving::Emits)),
        Lexeme::Keyword(Keyword::Return) => Some(Form::Giving(Giving::Return)),
        Lexeme::Keyword(Keyword::Do) => Some(Form::Do),
        Lexeme::Keyword(Keyword::Repeat) => Some(Form::Loop(Loop::Repeat)),
        Lexeme::Keyword(Keyword::While) => Some(Form::Loop(Loop::Turn(Turning::While))),
        Lexeme::Keyword(Keyword::Until) => Some(Form::Loop(Loop::Turn(Turning::Until))),
        Lexeme::Keyword(Keyword::Times) => Some(Form::Loop(Loop::Times)),
        Lexeme::Keyword(Keyword::For) => Some(Form::Loop(Loop::For)),
        Lexeme::Keyword(Keyword::If) => Some(Form::If),
        Lexeme::Symbol(Symbol::LeftBrace) => Some(Form::Block),
        Lexeme::Symbol(Symbol::LeftParenthesis) => Some(Form::Enclosed),
        _ => None,
    }
}

/// What a lexeme begins a component as.
fn head_of(lexeme: &Lexeme) -> Option<Head>
    ensures { result ≡ heads.head_of lexeme.now }
{
    match lexeme {
        Lexeme::Keyword(Keyword::Take) => Some(Head::Single(Single::Take)),
        Lexeme::Keyword(Keyword::Takes) => Some(Head::Single(Single::Takes)),
        Lexeme::Keyword(Keyword::Map) => Some(Head::Single(Single::Map)),
        Lexeme::Keyword(Keyword::Filter) => Some(Head::Single(Single::Filter)),
        _ => match form_of(lexeme) {
            Some(form) => Some(Head::Form(form)),
            None => None,
        },
    }
}

/// What a component begins with at the front, its place, and what follows it.
pub fn begins_component(tokens: &[Token]) -> Option<(Head, Place, &[Token])>
    ensures found { Finds (λ x. (x.0, x.1, x.2.now)) result (heads.head_front tokens.now) }
    ensures rest { IfSome result (λ x. length tokens.now ≡ length x.2.now + 1) }
{
    match tokens {
        [Token { lexeme, at }, rest @ ..] => match head_of(lexeme) {
            Some(head) => Some((head, *at, rest)),
            None => None,
        },
        [] => None,
    }
}

/// The least height of a component that begins so.
pub fn least_height(head: Head) -> usize
    ensures { result ≡ heads.least_height head }
{
    match head {
        Head::Single(_) => 1,
        Head::Form(_) => 2,
    }
}

/// What a lexeme begins a declaration as.
fn declares_of(lexeme: &Lexeme) -> Option<Declares>
    ensures { result ≡ heads.declares_of lexeme.now }
{
    match lexeme {
        Lexeme::Keyword(Keyword::Struct) => Some(Declares::Struct),
        Lexeme::Keyword(Keyword::Fun) => Some(Declares::Function),
        Lexeme::Keyword(Keyword::Var) => Some(Declares::Var),
        _ => None,
    }
}

/// What a declaration begins with at the front, its place, and what follows it.
pub fn begins_declaration(tokens: &[Token]) -> Option<(Declares, Place, &[Token])>
    ensures found { Finds (λ x. (x.0, x.1, x.2.now)) result (heads.declares_front tokens.now) }
    ensures rest { IfSome result (λ x. length tokens.now ≡ length x.2.now + 1) }
{
    match tokens {
        [Token { lexeme, at }, rest @ ..] => match declares_of(lexeme) {
            Some(declares) => Some((declares, *at, rest)),
            None => None,
        },
        [] => None,
    }
}

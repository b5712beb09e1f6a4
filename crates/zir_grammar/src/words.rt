// Single tokens at the front of what is left.

ghost use Rattle.std.specs.Prelude.{◌≡◌, ◌+◌, ℕ, length, nat_eq, Some, None, IfSome, if◌then◌else◌};
ghost use Rattle.zir_grammar.specs.Grammar as grammar;
ghost use Rattle.zir_grammar.specs.Wants as wants;
ghost use Rattle.zir_grammar.specs.Reading.{Finds, at_front, base_front, conversion_front};

use zir_lex::token::{Keyword, Lexeme, Symbol, Token};
use zir_tree::comp::Link;
use zir_tree::expr::{Operator, Prefix};
use zir_tree::name::Name;
use zir_tree::place::Place;
use zir_tree::types::Base;

/// That sign at the front, by its place, and what follows it.
#[tactic(auto, unfolding(crate::specs::Reading::at_front))]
pub fn symbol(tokens: &[Token], wanted: Symbol) -> Option<(Place, &[Token])>
    ensures found { Finds (λ x. (x.0, x.1.now)) result (at_front (wants.a_sign wanted) tokens.now) }
    ensures rest { IfSome result (λ x. length tokens.now ≡ length x.1.now + 1) }
{
    match tokens {
        [
            Token {
                lexeme: Lexeme::Symbol(found),
                at,
            },
            rest @ ..,
        ] if *found == wanted => Some((*at, rest)),
        _ => None,
    }
}

/// That word at the front, by its place, and what follows it.
#[tactic(auto, unfolding(crate::specs::Reading::at_front))]
pub fn keyword(tokens: &[Token], wanted: Keyword) -> Option<(Place, &[Token])>
    ensures found { Finds (λ x. (x.0, x.1.now)) result (at_front (wants.a_word wanted) tokens.now) }
    ensures rest { IfSome result (λ x. length tokens.now ≡ length x.1.now + 1) }
{
    match tokens {
        [
            Token {
                lexeme: Lexeme::Keyword(found),
                at,
            },
            rest @ ..,
        ] if *found == wanted => Some((*at, rest)),
        _ => None,
    }
}

/// A name at the front, its place, and what follows it.
#[tactic(auto, unfolding(crate::specs::Reading::at_front))]
pub fn name(tokens: &[Token]) -> Option<(&Name, Place, &[Token])>
    ensures found { Finds (λ x. ((x.0.now, x.1), x.2.now)) result (at_front wants.a_name tokens.now) }
    ensures rest { IfSome result (λ x. length tokens.now ≡ length x.2.now + 1) }
{
    match tokens {
        [
            Token {
                lexeme: Lexeme::Name(found),
                at,
            },
            rest @ ..,
        ] => Some((found, *at, rest)),
        _ => None,
    }
}

/// A text between quotes at the front, its place, and what follows it.
#[tactic(auto, unfolding(crate::specs::Reading::at_front))]
pub fn text(tokens: &[Token]) -> Option<(&Name, Place, &[Token])>
    ensures found { Finds (λ x. ((x.0.now, x.1), x.2.now)) result (at_front wants.a_text tokens.now) }
    ensures rest { IfSome result (λ x. length tokens.now ≡ length x.2.now + 1) }
{
    match tokens {
        [
            Token {
                lexeme: Lexeme::Text(found),
                at,
            },
            rest @ ..,
        ] => Some((found, *at, rest)),
        _ => None,
    }
}

/// A whole number at the front, its place, and what follows it.
#[tactic(auto, unfolding(crate::specs::Reading::at_front))]
pub fn number(tokens: &[Token]) -> Option<(u64, Place, &[Token])>
    ensures found { Finds (λ x. ((x.0, x.1), x.2.now)) result (at_front wants.a_number tokens.now) }
    ensures rest { IfSome result (λ x. length tokens.now ≡ length x.2.now + 1) }
{
    match tokens {
        [
            Token {
                lexeme: Lexeme::Int(found),
                at,
            },
            rest @ ..,
        ] => Some((*found, *at, rest)),
        _ => None,
    }
}

/// `'0` or `'1` at the front, its place, and what follows it.
#[tactic(auto, unfolding(crate::specs::Reading::at_front))]
pub fn bit(tokens: &[Token]) -> Option<(bool, Place, &[Token])>
    ensures found { Finds (λ x. ((x.0, x.1), x.2.now)) result (at_front wants.a_bit tokens.now) }
    ensures rest { IfSome result (λ x. length tokens.now ≡ length x.2.now + 1) }
{
    match tokens {
        [
            Token {
                lexeme: Lexeme::Bit(found),
                at,
            },
            rest @ ..,
        ] => Some((*found, *at, rest)),
        _ => None,
    }
}

/// The type that a word names.
fn base_of(word: Keyword) -> Option<Base>
    ensures { result ≡ grammar.base_of word }
{
    match word {
        Keyword::Bit => Some(Base::Bit),
        Keyword::Bool => Some(Base::Bool),
        Keyword::Int8 => Some(Base::Int8),
        Keyword::Int16 => Some(Base::Int16),
        Keyword::Int32 => Some(Base::Int32),
        Keyword::Int => Some(Base::Int32),
        Keyword::Int64 => Some(Base::Int64),
        Keyword::Complex16 => Some(Base::Complex16),
        Keyword::Complex32 => Some(Base::Complex32),
        _ => None,
    }
}

/// The type that a word converts to.
fn conversion_of(word: Keyword) -> Option<Base>
    ensures { result ≡ grammar.conversion_of word }
{
    match word {
        Keyword::Bool => None,
        _ => base_of(word),
    }
}

/// A word that names a type at the front, as that type, its place, and what follows it.
#[tactic(auto, unfolding(crate::specs::Reading::at_front, crate::specs::Reading::base_front))]
pub fn base(tokens: &[Token]) -> Option<(Base, Place, &[Token])>
    ensures found { Finds (λ x. (x.0, x.1, x.2.now)) result (base_front tokens.now) }
    ensures rest { IfSome result (λ x. length tokens.now ≡ length x.2.now + 1) }
{
    match tokens {
        [
            Token {
                lexeme: Lexeme::Keyword(found),
                at,
            },
            rest @ ..,
        ] => match base_of(*found) {
            Some(base) => Some((base, *at, rest)),
            None => None,
        },
        _ => None,
    }
}

/// A word that converts to a type at the front, as that type, its place, and what follows it.
#[tactic(auto, unfolding(crate::specs::Reading::at_front, crate::specs::Reading::conversion_front))]
pub fn conversion(tokens: &[Token]) -> Option<(Base, Place, &[Token])>
    ensures found { Finds (λ x. (x.0, x.1, x.2.now)) result (conversion_front tokens.now) }
    ensures rest { IfSome result (λ x. length tokens.now ≡ length x.2.now + 1) }
{
    match tokens {
        [
            Token {
                lexeme: Lexeme::Keyword(found),
                at,
            },
            rest @ ..,
        ] => match conversion_of(*found) {
            Some(base) => Some((base, *at, rest)),
            None => None,
        },
        _ => None,
    }
}

/// A lexeme as an operator before its operand.
fn prefix_of(lexeme: &Lexeme) -> Option<Prefix>
    ensures { result ≡ wants.prefix_of lexeme.now }
{
    match lexeme {
        Lexeme::Symbol(Symbol::Minus) => Some(Prefix::Minus),
        Lexeme::Symbol(Symbol::Tilde) => Some(Prefix::Complement),
        Lexeme::Keyword(Keyword::Not) => Some(Prefix::Not),
        _ => None,
    }
}

/// An operator before its operand at the front, its place, and what follows it.
#[tactic(auto, unfolding(crate::specs::Reading::at_front))]
pub fn prefix(tokens: &[Token]) -> Option<(Prefix, Place, &[Token])>
    ensures found { Finds (λ x. ((x.0, x.1), x.2.now)) result (at_front wants.a_prefix tokens.now) }
    ensures rest { IfSome result (λ x. length tokens.now ≡ length x.2.now + 1) }
{
    match tokens {
        [Token { lexeme, at }, rest @ ..] => match prefix_of(lexeme) {
            Some(prefix) => Some((prefix, *at, rest)),
            None => None,
        },
        [] => None,
    }
}

/// The operator between two sides that a sign is.
fn operator_of(sign: Symbol) -> Option<Operator>
    ensures { result ≡ wants.operator_of sign }
{
    match sign {
        Symbol::OrOr => Some(Operator::Or),
        Symbol::AndAnd => Some(Operator::And),
        Symbol::Bar => Some(Operator::BitOr),
        Symbol::Caret => Some(Operator::BitXor),
        Symbol::Ampersand => Some(Operator::BitAnd),
        Symbol::EqualEqual => Some(Operator::Equal),
        Symbol::NotEqual => Some(Operator::NotEqual),
        Symbol::Less => Some(Operator::Less),
        Symbol::LessEqual => Some(Operator::LessEqual),
        Symbol::Greater => Some(Operator::Greater),
        Symbol::GreaterEqual => Some(Operator::GreaterEqual),
        Symbol::ShiftLeft => Some(Operator::ShiftLeft),
        Symbol::ShiftRight => Some(Operator::ShiftRight),
        Symbol::Plus => Some(Operator::Add),
        Symbol::Minus => Some(Operator::Subtract),
        Symbol::Star => Some(Operator::Multiply),
        Symbol::Slash => Some(Operator::Divide),
        Symbol::Percent => Some(Operator::Remainder),
        _ => None,
    }
}

/// How loosely an operator binds: the tightest have 0.
fn rank(operator: Operator) -> usize
    ensures { result ≡ grammar.rank operator }
{
    match operator {
        Operator::Multiply | Operator::Divide | Operator::Remainder => 0,
        Operator::Add | Operator::Subtract => 1,
        Operator::ShiftLeft | Operator::ShiftRight => 2,
        Operator::Less | Operator::LessEqual | Operator::Greater | Operator::GreaterEqual => 3,
        Operator::Equal | Operator::NotEqual => 4,
        Operator::BitAnd => 5,
        Operator::BitXor => 6,
        Operator::BitOr => 7,
        Operator::And => 8,
        Operator::Or => 9,
    }
}

/// The operator of that rank that a sign is.
fn ranked(sign: Symbol, wanted: usize) -> Option<Operator>
    ensures { result ≡ wants.if_found (wants.operator_of sign) (λ op. if nat_eq (grammar.rank op) wanted then Some op else None) None }
{
    match operator_of(sign) {
        Some(operator) if rank(operator) == wanted => Some(operator),
        _ => None,
    }
}

/// An operator of that rank at the front, its place, and what follows it.
#[tactic(auto, unfolding(crate::specs::Reading::at_front))]
pub fn operator(tokens: &[Token], wanted: usize) -> Option<(Operator, Place, &[Token])>
    ensures found { Finds (λ x. ((x.0, x.1), x.2.now)) result (at_front (wants.an_operator wanted) tokens.now) }
    ensures rest { IfSome result (λ x. length tokens.now ≡ length x.2.now + 1) }
{
    match tokens {
        [
            Token {
                lexeme: Lexeme::Symbol(found),
                at,
            },
            rest @ ..,
        ] => match ranked(*found, wanted) {
            Some(operator) => Some((operator, *at, rest)),
            None => None,
        },
        _ => None,
    }
}

/// The link between components that a sign is.
fn link_of(sign: Symbol) -> Option<Link>
    ensures { result ≡ wants.link_of sign }
{
    match sign {
        Symbol::Pipe => Some(Link::Serial),
        Symbol::ParallelPipe => Some(Link::Parallel),
        _ => None,
    }
}

/// How loosely a link binds: `>>>` has 0.
fn link_rank(link: Link) -> usize
    ensures { result ≡ grammar.link_rank link }
{
    match link {
        Link::Serial => 0,
        Link::Parallel => 1,
    }
}

/// The link of that rank that a sign is.
fn ranked_link(sign: Symbol, wanted: usize) -> Option<Link>
    ensures { result ≡ wants.if_found (wants.link_of sign) (λ l. if nat_eq (grammar.link_rank l) wanted then Some l else None) None }
{
    match link_of(sign) {
        Some(link) if link_rank(link) == wanted => Some(link),
        _ => None,
    }
}

/// A sign between components of that rank at the front, its place, and what follows it.
#[tactic(auto, unfolding(crate::specs::Reading::at_front))]
pub fn link(tokens: &[Token], wanted: usize) -> Option<(Link, Place, &[Token])>
    ensures found { Finds (λ x. ((x.0, x.1), x.2.now)) result (at_front (wants.a_link wanted) tokens.now) }
    ensures rest { IfSome result (λ x. length tokens.now ≡ length x.2.now + 1) }
{
    match tokens {
        [
            Token {
                lexeme: Lexeme::Symbol(found),
                at,
            },
            rest @ ..,
        ] => match ranked_link(*found, wanted) {
            Some(link) => Some((link, *at, rest)),
            None => None,
        },
        _ => None,
    }
}

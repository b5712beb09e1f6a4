// What the form of an expression says of its code.

ghost use Rattle.std.specs.Prelude.{◌≡◌, ◌&&◌};
ghost use Rattle.std.specs.List.{list_all};
ghost use Rattle.zir_code.specs.Coding as coding;

use zir_tree::expr::{Callee, Expr};

/// Whether an expression is a variable, or an element, a slice or a part of one.
#[cycle(rooted)]
pub fn is_rooted(e: &Expr) -> bool
    ensures { result ≡ coding.is_rooted e.now }
{
    match e {
        Expr::Variable(_) => true,
        Expr::Index(a, _, _) => is_rooted(a.get()),
        Expr::Slice(a, _, _, _) => is_rooted(a.get()),
        Expr::Part(a, _, _, _) => is_rooted(a.get()),
        Expr::Unit(..) => false,
        Expr::Bit(..) => false,
        Expr::Bool(..) => false,
        Expr::Int(..) => false,
        Expr::Unary(..) => false,
        Expr::Binary(..) => false,
        Expr::Call(..) => false,
        Expr::Array(..) => false,
        Expr::Convert(..) => false,
        Expr::Complex(..) => false,
    }
}

/// Whether no function is called.
fn calls_none(callee: Callee) -> bool
    ensures { result ≡ coding.calls_none callee }
{
    match callee {
        Callee::Function(_) => false,
        Callee::Struct(_) => true,
    }
}

/// Whether both hold.
fn both(a: bool, b: bool) -> bool
    ensures { result ≡ (a && b) }
{
    a && b
}

/// Whether an expression calls no function, so that it changes no variable.
#[cycle(calm)]
pub fn is_calm(e: &Expr) -> bool
    ensures { result ≡ coding.is_calm e.now }
{
    match e {
        Expr::Unit(..) => true,
        Expr::Bit(..) => true,
        Expr::Bool(..) => true,
        Expr::Int(..) => true,
        Expr::Variable(_) => true,
        Expr::Unary(_, _, a, _) => is_calm(a.get()),
        Expr::Binary(_, _, a, b, _) => both(is_calm(a.get()), is_calm(b.get())),
        Expr::Index(a, i, _) => both(is_calm(a.get()), is_calm(i.get())),
        Expr::Slice(a, i, _, _) => both(is_calm(a.get()), is_calm(i.get())),
        Expr::Part(a, _, _, _) => is_calm(a.get()),
        Expr::Call(_, callee, es) => both(calls_none(*callee), are_calm(es.as_slice())),
        Expr::Array(es, _) => are_calm(es.as_slice()),
        Expr::Convert(_, a, _) => is_calm(a.get()),
        Expr::Complex(_, a, b, _) => both(is_calm(a.get()), is_calm(b.get())),
    }
}

/// The same of each of these expressions.
#[cycle(calm)]
fn are_calm(es: &[Expr]) -> bool
    ensures { result ≡ list_all coding.is_calm es.now }
{
    for e in es {
        if !is_calm(e) {
            return false;
        }
    }
    true
}

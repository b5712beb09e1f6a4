// What expressions touch.

ghost use Rattle.std.specs.Prelude.{◌≡◌, OnOk};
ghost use Rattle.zir_names.specs.Touched.{both, all_of, call_of, in_expr};

use crate::functions::Functions;
use crate::touched::Touched;
use std::alloc::AllocError;
use zir_tree::expr::Expr;
use zir_tree::ident::Ident;

/// What a call touches besides its arguments.
pub fn touch_call(functions: &Functions, f: &Ident, touched: &mut Touched) -> Result<(), AllocError>
    ensures { OnOk result (touched.new ≡ both (call_of functions.now f.now.id) touched.old) }
{
    match functions.find(f.id) {
        None => Ok(()),
        Some(called) => touched.join(called),
    }
}

/// What an expression touches.
#[cycle(expressions)]
pub fn touch_expr(functions: &Functions, e: &Expr, touched: &mut Touched) -> Result<(), AllocError>
    ensures { OnOk result (touched.new ≡ both (in_expr functions.now e.now) touched.old) }
{
    match e {
        Expr::Unit(_) => Ok(()),
        Expr::Bit(_, _) => Ok(()),
        Expr::Bool(_, _) => Ok(()),
        Expr::Int(_, _, _) => Ok(()),
        Expr::Variable(x) => touched.read(x),
        Expr::Unary(_, _, inner, _) => touch_expr(functions, inner.get(), touched),
        Expr::Binary(_, _, a, b, _) => {
            touch_expr(functions, a.get(), touched)?;
            touch_expr(functions, b.get(), touched)
        }
        Expr::Index(a, i, _) => {
            touch_expr(functions, a.get(), touched)?;
            touch_expr(functions, i.get(), touched)
        }
        Expr::Slice(a, i, _, _) => {
            touch_expr(functions, a.get(), touched)?;
            touch_expr(functions, i.get(), touched)
        }
        Expr::Part(inner, _, _, _) => touch_expr(functions, inner.get(), touched),
        Expr::Call(f, _, args) => {
            touch_call(functions, f, touched)?;
            touch_exprs(functions, args.as_slice(), touched)
        }
        Expr::Array(parts, _) => touch_exprs(functions, parts.as_slice(), touched),
        Expr::Convert(_, inner, _) => touch_expr(functions, inner.get(), touched),
        Expr::Complex(_, a, b, _) => {
            touch_expr(functions, a.get(), touched)?;
            touch_expr(functions, b.get(), touched)
        }
    }
}

/// What expressions touch.
#[cycle(expressions)]
pub fn touch_exprs(
    functions: &Functions,
    es: &[Expr],
    touched: &mut Touched,
) -> Result<(), AllocError>
    ensures { OnOk result (touched.new ≡ both (all_of (in_expr functions.now) es.now) touched.old) }
{
    for e in es {
        touch_expr(functions, e, touched)?;
    }
    Ok(())
}

// What components touch.

ghost use Rattle.std.specs.Prelude.{◌≡◌, OnOk, IfOk};
ghost use Rattle.zir_names.specs.Touched.{both, all_of, in_comp};
ghost use Rattle.zir_sharing.specs.Ascending.{in_member, AllAscend};

use crate::expression::{touch_call, touch_expr, touch_exprs};
use crate::functions::Functions;
use crate::statement::{touch_body, touch_var};
use crate::touched::Touched;
use std::alloc::{AllocError, Global};
use zir_tree::comp::{Comp, Member};

/// What a component touches.
#[cycle(components)]
pub fn touch_comp(functions: &Functions, c: &Comp, touched: &mut Touched) -> Result<(), AllocError>
    ensures { OnOk result (touched.new ≡ both (in_comp functions.now c.now) touched.old) }
{
    match c {
        Comp::Take(_) => Ok(()),
        Comp::Takes(_, _) => Ok(()),
        Comp::Emit(e, _) => touch_expr(functions, e, touched),
        Comp::Emits(e, _) => touch_expr(functions, e, touched),
        Comp::Return(e, _) => touch_expr(functions, e, touched),
        Comp::Do(body, _) => touch_body(functions, body, touched),
        Comp::Repeat(inner, _) => touch_comp(functions, inner.get(), touched),
        Comp::While(_, e, inner, _) => {
            touch_expr(functions, e, touched)?;
            touch_comp(functions, inner.get(), touched)
        }
        Comp::Times(e, inner, _) => {
            touch_expr(functions, e, touched)?;
            touch_comp(functions, inner.get(), touched)
        }
        Comp::For(_, a, n, inner, _) => {
            touch_expr(functions, a, touched)?;
            touch_expr(functions, n, touched)?;
            touch_comp(functions, inner.get(), touched)
        }
        Comp::If(e, inner, other, _) => {
            touch_expr(functions, e, touched)?;
            touch_comp(functions, inner.get(), touched)?;
            touch_comp(functions, other.get(), touched)
        }
        Comp::Map(f, _, _) => touch_call(functions, f, touched),
        Comp::Filter(f, _, _) => touch_call(functions, f, touched),
        Comp::Call(f, _, args) => {
            touch_call(functions, f, touched)?;
            touch_exprs(functions, args.as_slice(), touched)
        }
        Comp::Block(members, _) => touch_members(functions, members.as_slice(), touched),
        Comp::Pipe(_, left, right, _) => {
            touch_comp(functions, left.get(), touched)?;
            touch_comp(functions, right.get(), touched)
        }
    }
}

/// What a member of a block touches.
#[cycle(components)]
fn touch_member(functions: &Functions, m: &Member, touched: &mut Touched) -> Result<(), AllocError>
    ensures { OnOk result (touched.new ≡ both (in_member functions.now m.now) touched.old) }
{
    match m {
        Member::Bind(_, c) => touch_comp(functions, c, touched),
        Member::Var(v) => touch_var(functions, v, touched),
        Member::Run(c) => touch_comp(functions, c, touched),
    }
}

/// What members touch.
#[cycle(components)]
fn touch_members(
    functions: &Functions,
    ms: &[Member],
    touched: &mut Touched,
) -> Result<(), AllocError>
    ensures { OnOk result (touched.new ≡ both (all_of (in_member functions.now) ms.now) touched.old) }
{
    for m in ms {
        touch_member(functions, m, touched)?;
    }
    Ok(())
}

/// All that a component touches.
pub fn touched_by(alloc: Global, functions: &Functions, c: &Comp) -> Result<Touched, AllocError>
    requires { AllAscend functions.now }
    ensures { IfOk result (λ touched. touched ≡ in_comp functions.now c.now) }
{
    let mut touched = Touched::new(alloc);
    touch_comp(functions, c, &mut touched)?;
    Ok(touched)
}

// What is asked of a literal.

ghost use Rattle.std.specs.Prelude.{◌≡◌, ◌&&◌, not};
ghost use Rattle.zir_types.specs.Wants.{asked_ty};
ghost use Rattle.zir_types.specs.Kinds.{scalar};
ghost use Rattle.zir_types.specs.Expressions.{is_literal as literal, joins as joining, signs as signing, unasked as nothing_asked, wanted as wanting};
ghost use Rattle.zir_types.specs.Expressions.{lent as lending, literal_type as typed_as, element_asked as element_asking, kept as keeping};
ghost use Rattle.zir_types.specs.Expressions.{asked as asking, param_asks as param_asking};

use crate::kinds::{is_whole, scalar_of};
use crate::rules::{is_literal, joins, signed};
use crate::typed::Typed;
use zir_tree::expr::{Expr, Operator, Prefix};
use zir_tree::types::{Base, Ty};

/// The type that is asked of a literal: its base where there are no lengths; behind the first length stands what is asked of the
/// elements of an array literal.
#[derive(Clone, Copy)]
pub struct Want<'a> {
    pub lengths: &'a [u64],
    pub base: Base,
}

/// Where nothing else is asked, a literal is an int32.
pub fn unasked<'a>() -> Want<'a>
    ensures { asked_ty result ≡ nothing_asked }
{
    Want {
        lengths: &[],
        base: Base::Int32,
    }
}

/// What is asked where this type is wanted.
pub fn wanted(ty: &Ty) -> Want<'_>
    ensures { asked_ty result ≡ wanting ty.now }
{
    if is_whole(ty.base) {
        Want {
            lengths: ty.lengths.as_slice(),
            base: ty.base,
        }
    } else {
        unasked()
    }
}

/// What is asked where a base type is wanted.
pub fn wanted_base<'a>(base: Base) -> Want<'a>
    ensures { asked_ty result ≡ wanting (scalar base) }
{
    if is_whole(base) {
        Want { lengths: &[], base }
    } else {
        unasked()
    }
}

/// What a side asks of a literal on the other side.
pub fn lent<'a>(t: &Typed) -> Want<'a>
    ensures { asked_ty result ≡ lending t.now }
{
    Want {
        lengths: &[],
        base: scalar_of(&t.ty),
    }
}

/// The type of a literal where this is asked.
pub fn literal_type(want: Want<'_>) -> Base
    ensures { result ≡ typed_as (asked_ty want.entry) }
{
    match want.lengths {
        [] => want.base,
        [_, ..] => Base::Int32,
    }
}

/// What is asked of the elements of an array literal where this is asked.
pub fn element_asked(want: Want<'_>) -> Want<'_>
    ensures { asked_ty result ≡ element_asking (asked_ty want.entry) }
{
    match want.lengths {
        [] => unasked(),
        [_, more @ ..] => Want {
            lengths: more,
            base: want.base,
        },
    }
}

/// The same within a literal expression, and else nothing.
pub fn kept(within_literal: bool, want: Want<'_>) -> Want<'_>
    ensures { asked_ty result ≡ keeping within_literal (asked_ty want.entry) }
{
    if within_literal { want } else { unasked() }
}

/// Whether the right side is typed first: a literal on the left has the type of a side that is none.
pub fn right_first(left: bool, right: bool) -> bool
    ensures { result ≡ (left && not right) }
{
    left && !right
}

/// What is asked of the operand of a prefix.
pub fn operand_asked<'a>(op: Prefix, want: Want<'a>, e: &Expr) -> Want<'a>
    ensures { asked_ty result ≡ keeping (signing op && literal e.now) (asked_ty want.entry) }
{
    let inner = is_literal(e);
    kept(signed(op, inner), want)
}

/// What is asked of the left side, where it comes first.
pub fn left_asked(left: bool, op: Operator, want: Want<'_>) -> Want<'_>
    ensures { asked_ty result ≡ keeping (left && joining op) (asked_ty want.entry) }
{
    let within_literal = left && joins(op);
    kept(within_literal, want)
}

/// What is asked of the right side after the left one.
pub fn asked<'a>(left: bool, right: bool, op: Operator, want: Want<'a>, s: &Typed) -> Want<'a>
    ensures { asked_ty result ≡ asking left right op (asked_ty want.entry) s.now }
{
    if !right {
        return unasked();
    }
    if left { kept(joins(op), want) } else { lent(s) }
}

/// What the next argument is asked where these parameters are left.
pub fn param_asks(params: &[Ty]) -> Want<'_>
    ensures { asked_ty result ≡ param_asking params.now }
{
    match params {
        [] => unasked(),
        [ty, ..] => wanted(ty),
    }
}

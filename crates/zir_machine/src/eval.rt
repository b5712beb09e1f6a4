// The value of an expression.

ghost use Rattle.std.specs.Prelude.{◌≡◌};
ghost use Rattle.zir_bit_meaning.specs.Evaluation.{is_one as is_one_of, xor_of};
ghost use Rattle.zir_bit_meaning.specs.Store.{look_up};
ghost use Rattle.zir_machine.specs.Values.{IsValue};

use zir_bit_tree::tree::Expr;
use zir_bit_tree::value::{Slot, Val};

/// The value of an expression over what is in scope.
pub fn eval(e: &Expr, store: &[Slot]) -> Val
    ensures { IsValue e.now store.now result }
{
    match e {
        Expr::Unit(_) => Val::Unit,
        Expr::Bit(b, _) => Val::Bit(*b),
        Expr::Variable(name) => value_at(store, name.id),
        Expr::Xor(a, b, _) => {
            let left = eval(a.get(), store);
            let right = eval(b.get(), store);
            xor(left, right)
        }
    }
}

/// The exclusive or of two bits, and `()` where the left value is none.
fn xor(left: Val, right: Val) -> Val
    ensures { result ≡ xor_of left right }
{
    match left {
        Val::Unit => Val::Unit,
        Val::Bit(bit) => Val::Bit(bit ^ is_one(right)),
    }
}

/// The value of the variable of this number.
fn value_at(store: &[Slot], id: u32) -> Val
    ensures { result ≡ look_up store.now id }
{
    for slot in store {
        if slot.id == id {
            return slot.value;
        }
    }
    Val::Unit
}

/// Whether a value is the bit 1.
pub fn is_one(v: Val) -> bool
    ensures { result ≡ is_one_of v }
{
    match v {
        Val::Unit => false,
        Val::Bit(b) => b,
    }
}

// Values that go from cells to others.

ghost use Rattle.std.specs.Prelude.{◌≡◌, [], ◌++◌, IfOk, OnOk};
ghost use Rattle.std.specs.Option.{option_copied};
ghost use Rattle.zir_code.specs.Coding as coding;

use std::alloc::AllocError;
use zir_expr::frame::Spot;
use zir_expr::steps::Step;

/// So many cells from a spot go to another one on.
pub fn moving(to: Spot, from: Spot, n: u32, steps: &mut Vec<Step>) -> Result<(), AllocError>
    ensures { OnOk result (steps.new.items ≡ steps.old.items ++ coding.moving to from n) }
{
    match n {
        0 => Ok(()),
        1 => {
            steps.push(Step::Copy(to, from))?;
            Ok(())
        }
        _ => {
            steps.push(Step::Move(to, from, n))?;
            Ok(())
        }
    }
}

/// A value of so many cells goes to those from d on, where it does not stand there.
pub fn settling(at: Spot, d: u32, n: u32, steps: &mut Vec<Step>) -> Result<(), AllocError>
    ensures { OnOk result (steps.new.items ≡ steps.old.items ++ coding.settling at d n) }
{
    match at {
        Spot::Top(o) => moving(Spot::Local(d), Spot::Top(o), n, steps),
        Spot::Local(o) => {
            if o == d {
                Ok(())
            } else {
                moving(Spot::Local(d), Spot::Local(o), n, steps)
            }
        }
    }
}

/// A value of so many cells is read where it stands, and one of a top variable is copied to the cells from d on.
pub fn reading(at: Spot, n: u32, d: u32, steps: &mut Vec<Step>) -> Result<Spot, AllocError>
    ensures spot { IfOk result (λ spot. spot ≡ coding.read_at (Some at) d) }
    ensures code { OnOk result (steps.new.items ≡ steps.old.items ++ coding.reading (Some at) n d []) }
{
    match at {
        Spot::Top(o) => {
            moving(Spot::Local(d), Spot::Top(o), n, steps)?;
            Ok(Spot::Local(d))
        }
        Spot::Local(o) => Ok(Spot::Local(o)),
    }
}

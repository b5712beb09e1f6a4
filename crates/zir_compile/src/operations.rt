// The code of operators between two sides.

ghost use Rattle.std.specs.Prelude.{◌≡◌, [], ◌∷◌, ◌++◌, OnOk};
ghost use Rattle.zir_expr.specs.declared.steps.Step.{Operate, Change as ChangeStep};
ghost use Rattle.zir_code.specs.Coding as coding;
ghost use Rattle.zir_compile.specs.Deciding as deciding;
ghost use Rattle.zir_compile.specs.Sides.{seconds_at, counts_seconds, complex_operation, complex_code};
ghost use Rattle.zir_compile.specs.Makes.{Makes};

use crate::numbers::{Unmade, shifted, sum};
use crate::operators::operation_of;
use sqlite_items::Items;
use std::alloc::{AllocError, Global};
use zir_expr::complex::ComplexOperation;
use zir_expr::frame::Spot;
use zir_expr::scalar::{Change, Operation};
use zir_expr::steps::{Fork, Step};
use zir_expr::truth::Bitwise;
use zir_expr::whole::Whole;
use zir_tree::expr::Operator;
use zir_tree::place::Place;
use zir_tree::types::Base;

/// The second cells of two values, and of the answer.
#[derive(Clone, Copy)]
struct Seconds {
    left: Spot,
    right: Spot,
    to: Spot,
}

/// The second cells of two values, and of the answer, which goes to the cells from d on.
fn seconds_of(sides: (Spot, Spot), d: u32) -> Result<Seconds, Unmade>
    ensures { Makes (counts_seconds sides.0 sides.1 d) (λ seconds. seconds ≡ seconds_at sides.0 sides.1 d) result }
{
    let left = shifted(sides.0, 1)?;
    let right = shifted(sides.1, 1)?;
    let next = sum(d, 1)?;
    let to = Spot::Local(next);
    Ok(Seconds { left, right, to })
}

/// Two complex numbers are the same in both parts.
fn same_pairs(
    at: Place,
    sides: (Spot, Spot),
    seconds: Seconds,
    d: u32,
    steps: &mut Vec<Step>,
) -> Result<(), AllocError>
    ensures { seconds ≡ seconds_at sides.0 sides.1 d →
        OnOk result (steps.new.items ≡ steps.old.items ++ coding.same_pairs sides.0 sides.1 at d) }
{
    let to = Spot::Local(d);
    let same = Operation::Whole(Operator::Equal, Whole::SixtyFour);
    let both = Operation::Truth(Bitwise::And);
    steps.push(Step::Operate(same, to, sides.0, sides.1, at))?;
    steps.push(Step::Operate(same, seconds.to, seconds.left, seconds.right, at))?;
    steps.push(Step::Operate(both, to, to, seconds.to, at))?;
    Ok(())
}

/// Two complex numbers differ in a part.
fn other_pairs(
    at: Place,
    sides: (Spot, Spot),
    seconds: Seconds,
    d: u32,
    steps: &mut Vec<Step>,
) -> Result<(), AllocError>
    ensures { seconds ≡ seconds_at sides.0 sides.1 d → OnOk result (steps.new.items ≡
        steps.old.items ++ (coding.same_pairs sides.0 sides.1 at d
        ++ ChangeStep Change.Not (Spot.Local d) (Spot.Local d) ∷ [])) }
{
    let to = Spot::Local(d);
    same_pairs(at, sides, seconds, d, steps)?;
    steps.push(Step::Change(Change::Not, to, to))?;
    Ok(())
}

/// An operator that makes a complex number of two.
fn complex_of(operator: Operator, t: Whole) -> Option<ComplexOperation>
    ensures { result ≡ complex_operation operator t }
{
    match operator {
        Operator::Add => Some(ComplexOperation::Add(t)),
        Operator::Subtract => Some(ComplexOperation::Subtract(t)),
        Operator::Multiply => Some(ComplexOperation::Multiply(t)),
        _ => None,
    }
}

/// An operator that makes a complex number of two, if it is one.
fn complex(
    operation: Option<ComplexOperation>,
    sides: (Spot, Spot),
    d: u32,
    steps: &mut Vec<Step>,
) -> Result<(), AllocError>
    ensures { OnOk result (steps.new.items ≡ steps.old.items ++ complex_code operation sides.0 sides.1 d) }
{
    if let Some(operation) = operation {
        steps.push(Step::Complex(operation, Spot::Local(d), sides.0, sides.1))?;
    }
    Ok(())
}

/// An operator at two complex numbers.
fn operating_pairs(
    operator: Operator,
    t: Whole,
    at: Place,
    sides: (Spot, Spot),
    seconds: Seconds,
    d: u32,
    steps: &mut Vec<Step>,
) -> Result<(), AllocError>
    ensures { seconds ≡ seconds_at sides.0 sides.1 d → OnOk result
        (steps.new.items ≡ steps.old.items ++ coding.operating_pairs operator t at sides.0 sides.1 d) }
{
    match operator {
        Operator::Equal => same_pairs(at, sides, seconds, d, steps),
        Operator::NotEqual => other_pairs(at, sides, seconds, d, steps),
        _ => complex(complex_of(operator, t), sides, d, steps),
    }
}

/// An operator at two values that are no complex numbers.
fn operating_cells(
    operator: Operator,
    t: Base,
    at: Place,
    sides: (Spot, Spot),
    d: u32,
    steps: &mut Vec<Step>,
) -> Result<(), AllocError>
    ensures { OnOk result (steps.new.items ≡
        steps.old.items ++ Operate (coding.operation_of operator t) (Spot.Local d) sides.0 sides.1 at ∷ []) }
{
    let to = Spot::Local(d);
    steps.push(Step::Operate(operation_of(operator, t), to, sides.0, sides.1, at))?;
    Ok(())
}

/// An operator at two values of a type, by what it is at complex numbers and at others.
fn operating_at(
    operator: Operator,
    t: Base,
    at: Place,
    sides: (Spot, Spot),
    seconds: Seconds,
    d: u32,
    steps: &mut Vec<Step>,
) -> Result<(), AllocError>
    ensures { seconds ≡ seconds_at sides.0 sides.1 d → OnOk result
        (steps.new.items ≡ steps.old.items ++ coding.operating operator t at sides.0 sides.1 d) }
{
    match t {
        Base::Complex16 => operating_pairs(operator, Whole::Sixteen, at, sides, seconds, d, steps),
        Base::Complex32 => operating_pairs(
            operator,
            Whole::ThirtyTwo,
            at,
            sides,
            seconds,
            d,
            steps,
        ),
        _ => operating_cells(operator, t, at, sides, d, steps),
    }
}

/// An operator that takes both sides, which stand in two spots.
pub fn operating(
    operator: Operator,
    t: Base,
    at: Place,
    sides: (Spot, Spot),
    d: u32,
    steps: &mut Vec<Step>,
) -> Result<(), Unmade>
    ensures { Makes (counts_seconds sides.0 sides.1 d)
        (λ _. steps.new.items ≡ steps.old.items ++ coding.operating operator t at sides.0 sides.1 d) result }
{
    let seconds = seconds_of(sides, d)?;
    operating_at(operator, t, at, sides, seconds, d, steps)?;
    Ok(())
}

/// A choice whose one way is empty: the first where the truth value is true.
fn fork_of(alloc: Global, either: bool, test: Spot, right: Items<Step>) -> Fork
    ensures { result ≡ deciding.fork_of either test right }
{
    let none = Items::new(alloc);
    if either {
        Fork {
            test,
            first: none,
            second: right,
        }
    } else {
        Fork {
            test,
            first: right,
            second: none,
        }
    }
}

/// The left side, which stands in a spot, goes to the cell of the answer. Where it is not what decides, these steps
/// follow, which leave the right side in another spot.
fn leaving_out(
    alloc: Global,
    either: bool,
    sides: (Spot, Spot),
    d: u32,
    right: Vec<Step>,
    steps: &mut Vec<Step>,
) -> Result<(), AllocError>
    ensures { OnOk result (steps.new.items ≡
        steps.old.items ++ deciding.left_decides either sides.0 sides.1 d right.items) }
{
    let to = Spot::Local(d);
    let mut right = right;
    right.push(Step::Copy(to, sides.1))?;
    let fork = fork_of(alloc, either, to, Items::from_vec(right));
    steps.push(Step::Copy(to, sides.0))?;
    steps.push(Step::Branch(fork))?;
    Ok(())
}

/// The same, where 32 bits hold the second cells of both sides.
pub fn decided(
    alloc: Global,
    either: bool,
    sides: (Spot, Spot),
    d: u32,
    right: Vec<Step>,
    steps: &mut Vec<Step>,
) -> Result<(), Unmade>
    ensures { Makes (counts_seconds sides.0 sides.1 d)
        (λ _. steps.new.items ≡ steps.old.items ++ deciding.left_decides either sides.0 sides.1 d right.items) result }
{
    seconds_of(sides, d)?;
    leaving_out(alloc, either, sides, d, right, steps)?;
    Ok(())
}

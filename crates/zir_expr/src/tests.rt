use crate::complex::{Parts, equal, product};
use crate::frame::{Frame, Halt, Spot};
use crate::scalar::{Change, Operation};
use crate::steps::{Code, Counting, Elements, Fork, Step, Turn, run};
use crate::truth::Bitwise;
use crate::whole::{Whole, lowest_bit};
use sqlite_items::Items;
use std::alloc::{AllocError, Global};
use std::test::Fail;
use zir_shared::Shared;
use zir_tree::expr::Operator;
use zir_tree::place::Place;

const AT: Place = Place { line: 3, col: 7 };

#[test]
fn whole_numbers_wrap_and_trap(rt: HostRuntime) {
    let t = Whole::Eight;
    assert_eq!(rt; t.operated(Operator::Add, 127, 1), Ok(-128));
    assert_eq!(rt; t.operated(Operator::Divide, -128, -1), Ok(-128));
    assert_eq!(rt; t.operated(Operator::Remainder, -128, -1), Ok(0));
    assert_eq!(rt; t.operated(Operator::Divide, -7, 2), Ok(-3));
    assert_eq!(rt; t.operated(Operator::Remainder, -7, 2), Ok(-1));
    assert_eq!(rt; t.operated(Operator::Remainder, 7, -2), Ok(1));
    assert_eq!(rt; t.operated(Operator::Divide, 1, 0), Err(1));
    assert_eq!(rt; t.operated(Operator::ShiftLeft, 1, 7), Ok(-128));
    assert_eq!(rt; t.operated(Operator::ShiftLeft, 1, 8), Err(4));
    assert_eq!(rt; t.operated(Operator::ShiftRight, -128, 7), Ok(-1));
    assert_eq!(rt; t.operated(Operator::ShiftRight, -128, -1), Err(4));
    assert_eq!(rt;
        Whole::SixtyFour.operated(Operator::Divide, i64::MIN, -1),
        Ok(i64::MIN)
    );
    assert_eq!(rt;
        Whole::SixtyFour.operated(Operator::ShiftLeft, 1, 63),
        Ok(i64::MIN)
    );
    assert_eq!(rt;
        Whole::SixtyFour.operated(Operator::LessEqual, -1, 0),
        Ok(1)
    );
    assert_eq!(rt; Change::Negate(Whole::Sixteen).apply(-32768), -32768);
    assert_eq!(rt; Change::Complement.apply(5), -6);
    assert_eq!(rt; lowest_bit(-3), 1);
    assert_eq!(rt; Bitwise::Xor.operated(1, 1), 0);
}

#[test]
fn complex_numbers_multiply(rt: HostRuntime) {
    let c = Parts {
        real: 300,
        imaginary: 200,
    };
    let d = Parts {
        real: 200,
        imaginary: -100,
    };
    let p = product(Whole::Sixteen, c, d);
    assert_eq!(rt;
        p,
        Parts {
            real: 14464,
            imaginary: 10000
        }
    );
    assert_eq!(rt; equal(p, c), 0);
    assert_eq!(rt; equal(c, c), 1);
}

fn number(at: u32, n: i64) -> Step {
    Step::Number(Spot::Local(at), n)
}

fn divide(to: u32, a: u32, b: u32) -> Step {
    let operation = Operation::Whole(Operator::Divide, Whole::ThirtyTwo);
    Step::Operate(
        operation,
        Spot::Local(to),
        Spot::Local(a),
        Spot::Local(b),
        AT,
    )
}

fn add(to: u32, a: u32, b: u32) -> Step {
    let operation = Operation::Whole(Operator::Add, Whole::ThirtyTwo);
    Step::Operate(
        operation,
        Spot::Local(to),
        Spot::Local(a),
        Spot::Local(b),
        AT,
    )
}

// `&&` of the cell 0 and a quotient by 0, which stands in the cell 1.
fn and_then_divide(alloc: Global, left: i64) -> Result<Vec<Step>, AllocError> {
    let mut first = Items::new(alloc);
    first.push(divide(1, 0, 2))?;
    let second = Items::new(alloc);
    let mut steps = Vec::new(alloc);
    steps.push(number(0, left))?;
    steps.push(Step::Branch(Fork {
        test: Spot::Local(0),
        first,
        second,
    }))?;
    Ok(steps)
}

#[test]
fn the_right_side_is_left_out(rt: HostRuntime) -> Result<(), Fail> {
    let mut frame = Frame::open(rt.alloc(), 8, 10)?;
    let out = and_then_divide(rt.alloc(), 0)?;
    assert_eq!(rt; run(out.as_slice(), &mut frame, 0), Ok(()));
    let steps = and_then_divide(rt.alloc(), 1)?;
    assert_eq!(rt; run(steps.as_slice(), &mut frame, 0), Err(Halt::Trap));
    assert_eq!(rt; frame.trap().code, 1);
    assert_eq!(rt; frame.trap().at, AT);
    Ok(())
}

// `a[1, 3]` of the array of 4 in the cells 1 to 4, into the cells 5 to 7, by an index in the cell 0.
fn slice_at(alloc: Global, index: i64) -> Result<Vec<Step>, AllocError> {
    let mut steps = Vec::new(alloc);
    steps.push(number(0, index))?;
    for i in 1..5 {
        steps.push(number(i, 10 * i64::from(i)))?;
    }
    let elements = Elements {
        room: 2,
        size: 1,
        code: 3,
        at: AT,
    };
    steps.push(Step::Locate(Spot::Local(0), Spot::Local(8), Spot::Local(0), elements))?;
    steps.push(Step::Load(Spot::Local(5), Spot::Local(1), Spot::Local(0), 3))?;
    Ok(steps)
}

#[test]
fn slices_are_read_inside_their_array(rt: HostRuntime) -> Result<(), Fail> {
    let mut frame = Frame::open(rt.alloc(), 9, 10)?;
    let inside = slice_at(rt.alloc(), 1)?;
    assert_eq!(rt; run(inside.as_slice(), &mut frame, 0), Ok(()));
    assert_eq!(rt; frame.cell(5), 20);
    assert_eq!(rt; frame.cell(7), 40);
    let outside = slice_at(rt.alloc(), 2)?;
    assert_eq!(rt; run(outside.as_slice(), &mut frame, 0), Err(Halt::Trap));
    assert_eq!(rt; frame.trap().code, 3);
    Ok(())
}

// A loop that calls code which adds the cell of the caller's index to a top variable.
fn sum_of_indexes(alloc: Global, turns: i64) -> Result<Vec<Step>, AllocError> {
    let mut called = Items::new(alloc);
    let operation = Operation::Whole(Operator::Add, Whole::ThirtyTwo);
    called.push(Step::Operate(operation, Spot::Top(0), Spot::Top(0), Spot::Local(0), AT))?;
    let code = Shared::new(alloc, Code { steps: called })?;
    let mut body = Items::new(alloc);
    body.push(Step::Copy(Spot::Local(2), Spot::Local(1)))?;
    body.push(Step::Call(code, 2))?;
    let mut steps = Vec::new(alloc);
    steps.push(number(0, turns))?;
    steps.push(number(1, 5))?;
    steps.push(Step::Count(Counting {
        turns: Spot::Local(0),
        index: Spot::Local(1),
        body,
    }))?;
    Ok(steps)
}

#[test]
fn turns_and_calls_cost_a_tick_each(rt: HostRuntime) -> Result<(), Fail> {
    let mut frame = Frame::open(rt.alloc(), 8, 6)?;
    let three = sum_of_indexes(rt.alloc(), 3)?;
    assert_eq!(rt; run(three.as_slice(), &mut frame, 1), Ok(()));
    assert_eq!(rt; frame.cell(0), 18);
    assert_eq!(rt; frame.used(), 6);
    assert_eq!(rt; run(three.as_slice(), &mut frame, 1), Err(Halt::Spent));
    let none = sum_of_indexes(rt.alloc(), -1)?;
    assert_eq!(rt; run(none.as_slice(), &mut frame, 1), Ok(()));
    Ok(())
}

// While the cell 0 is not 10, it is raised by the cell 1.
fn count_to_ten(alloc: Global) -> Result<Vec<Step>, AllocError> {
    let mut test = Items::new(alloc);
    let operation = Operation::Whole(Operator::NotEqual, Whole::ThirtyTwo);
    test.push(Step::Operate(
        operation,
        Spot::Local(3),
        Spot::Local(0),
        Spot::Local(2),
        AT,
    ))?;
    let mut body = Items::new(alloc);
    body.push(add(0, 0, 1))?;
    let mut steps = Vec::new(alloc);
    steps.push(number(1, 1))?;
    steps.push(number(2, 10))?;
    steps.push(Step::While(Turn {
        test,
        cell: Spot::Local(3),
        body,
    }))?;
    Ok(steps)
}

#[test]
fn a_loop_is_spent_one_tick_too_early(rt: HostRuntime) -> Result<(), Fail> {
    let steps = count_to_ten(rt.alloc())?;
    let mut enough = Frame::open(rt.alloc(), 4, 10)?;
    assert_eq!(rt; run(steps.as_slice(), &mut enough, 0), Ok(()));
    assert_eq!(rt; enough.cell(0), 10);
    let mut short = Frame::open(rt.alloc(), 4, 9)?;
    assert_eq!(rt; run(steps.as_slice(), &mut short, 0), Err(Halt::Spent));
    Ok(())
}

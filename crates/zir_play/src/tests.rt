ghost use Rattle.std.specs.Prelude.{◌≡◌, []};

use crate::player::{Finish, Outcome, PlayError, Player};
use sqlite_items::Items;
use std::alloc::{AllocError, Global};
use std::test::Fail;
use zir_expr::frame::{Frame, Spot};
use zir_flow::instruction::Instruction;
use zir_outside::memory::MemSink;
use zir_reader::memory::MemElements;
use zir_samples::Writer;
use zir_stage::layout::Layout;
use zir_stage::stage::Stage;
use zir_tree::format::Format;
use zir_tree::types::{Base, Ty};

fn single(alloc: Global) -> Ty
    ensures { result ≡ record { lengths = []; base = Base.Int16 } }
{
    Ty {
        lengths: Items::new(alloc),
        base: Base::Int16,
    }
}

// What is run over pairs of cells: where input is malformed behind them, if it is, and which calls fail.
#[derive(Clone, Copy)]
struct Case<'a> {
    cells: &'a [i64],
    malformed: Option<u64>,
    read_fails: u64,
    put_fails: &'a [u64],
}

// How a run of code over pairs ended, with a budget of 7 ticks, and its output as a text.
fn ran(
    alloc: Global,
    code: &[Instruction],
    case: Case,
) -> Result<(Result<Outcome, PlayError>, MemSink), AllocError> {
    let frame = Frame::open(alloc, 3, 7)?;
    let mut stage = Stage::open(alloc, &Layout::Flat, 3, 0, 0, 1, frame)?;
    let cells = Vec::from_slice(alloc, case.cells)?;
    let mut elements = MemElements::new(cells, 2, case.malformed, case.read_fails);
    let mut sink = MemSink::new(alloc, 100, Vec::from_slice(alloc, case.put_fails)?)?;
    let writer = Writer::open(alloc, Format::Text, &single(alloc))?;
    let mut player = Player::open(alloc, 2)?;
    let outcome = player.run(&mut stage, code, &mut elements, writer, &mut sink);
    Ok((outcome, sink))
}

// Takes a pair, uses a tick and gives the second cell, for ever.
fn seconds(alloc: Global) -> Result<Vec<Instruction>, AllocError> {
    let mut code = Vec::new(alloc);
    code.push(Instruction::Take(0))?;
    code.push(Instruction::Tick)?;
    code.push(Instruction::Give(Spot::Local(1), 1))?;
    code.push(Instruction::Again(3))?;
    Ok(code)
}

// How a run ended that took and gave so many elements, and used as many ticks.
fn ended(end: Finish, n: u64) -> Result<Outcome, PlayError> {
    Ok(Outcome {
        end,
        taken: n,
        ticks: n,
        written: n,
    })
}

#[test]
fn a_stage_plays_to_the_end_of_its_input(rt: HostRuntime) -> Result<(), Fail> {
    let code = seconds(rt.alloc())?;
    let case = Case {
        cells: &[1, 7, 2, -3, 3, 9, 4],
        malformed: None,
        read_fails: 0,
        put_fails: &[],
    };
    let (outcome, sink) = ran(rt.alloc(), &code, case)?;
    assert_eq!(rt; outcome, ended(Finish::Input, 3));
    assert_eq!(rt; *sink.bytes(), *b"7,-3,9\n".as_slice());
    Ok(())
}

#[test]
fn malformed_input_is_told_where_it_is_needed(rt: HostRuntime) -> Result<(), Fail> {
    let code = seconds(rt.alloc())?;
    let case = Case {
        cells: &[1, 7],
        malformed: Some(5),
        read_fails: 0,
        put_fails: &[],
    };
    let (outcome, sink) = ran(rt.alloc(), &code, case)?;
    assert_eq!(rt; outcome, ended(Finish::Malformed(5), 1));
    assert_eq!(rt; *sink.bytes(), *b"7\n".as_slice());
    Ok(())
}

#[test]
fn a_stage_ends_with_a_value_and_takes_no_more(rt: HostRuntime) -> Result<(), Fail> {
    let mut code = seconds(rt.alloc())?;
    if let Some(instruction) = code.get_mut(3) {
        *instruction = Instruction::Stop;
    }
    let case = Case {
        cells: &[1, 7, 2, 8],
        malformed: None,
        read_fails: 2,
        put_fails: &[],
    };
    let (outcome, sink) = ran(rt.alloc(), &code, case)?;
    assert_eq!(rt; outcome, ended(Finish::Value, 1));
    assert_eq!(rt; *sink.bytes(), *b"7\n".as_slice());
    Ok(())
}

#[test]
fn a_spent_budget_has_no_place(rt: HostRuntime) -> Result<(), Fail> {
    let code = seconds(rt.alloc())?;
    let case = Case {
        cells: &[0; 20],
        malformed: None,
        read_fails: 0,
        put_fails: &[],
    };
    let (outcome, sink) = ran(rt.alloc(), &code, case)?;
    let spent = Outcome {
        end: Finish::Spent,
        taken: 0,
        ticks: 0,
        written: 7,
    };
    assert_eq!(rt; outcome, Ok(spent));
    assert_eq!(rt; *sink.bytes(), *b"0,0,0,0,0,0,0\n".as_slice());
    Ok(())
}

#[test]
fn a_failed_read_leaves_whole_bytes(rt: HostRuntime) -> Result<(), Fail> {
    let code = seconds(rt.alloc())?;
    let case = Case {
        cells: &[1, 7, 2, -3, 3, 9],
        malformed: None,
        read_fails: 3,
        put_fails: &[],
    };
    let (outcome, sink) = ran(rt.alloc(), &code, case)?;
    assert_eq!(rt; outcome, Err(PlayError::Read));
    assert_eq!(rt; *sink.bytes(), *b"7,-3".as_slice());
    Ok(())
}

#[test]
fn a_failed_put_is_told_first(rt: HostRuntime) -> Result<(), Fail> {
    let code = seconds(rt.alloc())?;
    let case = Case {
        cells: &[1, 7],
        malformed: None,
        read_fails: 2,
        put_fails: &[1],
    };
    let (outcome, sink) = ran(rt.alloc(), &code, case)?;
    assert_eq!(rt; outcome, Err(PlayError::Write));
    assert_eq!(rt; *sink.bytes(), *b"".as_slice());
    Ok(())
}

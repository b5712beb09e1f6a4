use crate::event::Event;
use crate::layout::Layout;
use crate::source::Source;
use crate::stage::Stage;
use sqlite_items::Items;
use std::alloc::{AllocError, Global};
use std::test::Fail;
use zir_expr::frame::{Frame, Spot};
use zir_expr::steps::Step;
use zir_flow::instruction::{Back, Instruction, Joint};
use zir_shared::Shared;

// The left side takes an element x and gives x + 0 from the top variable on, for ever; the right side takes two and gives each.
fn code(alloc: Global) -> Result<Vec<Instruction>, AllocError> {
    let mut back = Items::new(alloc);
    back.push(Back {
        at: Spot::Top(0),
        cells: 1,
    })?;
    let joint = Joint {
        right: 4,
        behind: 9,
        scope: 0,
        value: 0,
        back,
    };
    let mut steps = Items::new(alloc);
    steps.push(Step::Copy(Spot::Top(0), Spot::Local(0)))?;
    let mut code = Vec::new(alloc);
    code.push(Instruction::Pipe(Shared::new(alloc, joint)?))?;
    code.push(Instruction::Take(0))?;
    code.push(Instruction::Run(steps))?;
    code.push(Instruction::Give(Spot::Top(0), 1))?;
    code.push(Instruction::Again(3))?;
    code.push(Instruction::Take(0))?;
    code.push(Instruction::Give(Spot::Local(0), 1))?;
    code.push(Instruction::Take(0))?;
    code.push(Instruction::Give(Spot::Local(0), 1))?;
    code.push(Instruction::Stop)?;
    code.push(Instruction::Give(Spot::Top(0), 1))?;
    code.push(Instruction::Stop)?;
    Ok(code)
}

// A stage at the first instruction, with a top variable and 3 cells more.
fn opened(alloc: Global) -> Result<Stage, AllocError> {
    let flat = Box::new(alloc, Layout::Flat)?;
    let other = Box::new(alloc, Layout::Flat)?;
    let layout = Layout::Split(flat, other);
    let frame = Frame::open(alloc, 4, 100)?;
    Stage::open(alloc, &layout, 4, 2, 0, 1, frame)
}

// The next event as a letter, with the cell of an output and the elements taken.
fn next(stage: &mut Stage, code: &[Instruction]) -> (char, i64, u64) {
    match stage.advance(code, 1000) {
        None => ('-', 0, 0),
        Some(Event::Gives(offer)) => ('g', stage.given(code).cell(offer.at), offer.stamp.taken),
        Some(Event::Needs(point)) => ('n', 0, point.taken),
        Some(Event::Ends(point)) => ('e', 0, point.taken),
        Some(Event::Traps(_, point)) => ('t', 0, point.taken),
        Some(Event::Gone) => ('x', 0, 0),
    }
}

#[test]
fn a_composition_hands_over_and_brings_back(rt: HostRuntime) -> Result<(), Fail> {
    let code = code(rt.alloc())?;
    let mut stage = opened(rt.alloc())?;
    assert_eq!(rt; next(&mut stage, &code), ('n', 0, 0));
    stage.hand(&code, Source::Listed(&[7]));
    assert_eq!(rt; next(&mut stage, &code), ('g', 7, 1));
    assert_eq!(rt; next(&mut stage, &code), ('n', 0, 1));
    stage.hand(&code, Source::Listed(&[9]));
    assert_eq!(rt; next(&mut stage, &code), ('g', 9, 2));
    assert_eq!(rt; next(&mut stage, &code), ('g', 9, 2));
    assert_eq!(rt; next(&mut stage, &code), ('e', 0, 2));
    Ok(())
}

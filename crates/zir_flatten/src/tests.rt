use crate::program::Program;
use sqlite_items::{Boxed, Items};
use std::alloc::{AllocError, Global};
use std::test::Fail;
use zir_eval::opening::names_of;
use zir_expr::frame::Spot;
use zir_flow::instruction::Instruction;
use zir_stage::layout::Layout;
use zir_tree::comp::{Comp, Link, Member};
use zir_tree::expr::Expr;
use zir_tree::ident::Ident;
use zir_tree::name::Name;
use zir_tree::place::Place;
use zir_tree::program::{Core, Instance};
use zir_tree::types::{Base, Ty};

const AT: Place = Place { line: 3, col: 7 };

// The name of an element.
const X: u32 = 1;

fn ident(alloc: Global, id: u32) -> Result<Ident, AllocError> {
    let name = Name::from_slice(alloc, b"n")?;
    Ok(Ident { name, id, at: AT })
}

fn int32(alloc: Global) -> Ty {
    Ty {
        lengths: Items::new(alloc),
        base: Base::Int32,
    }
}

// `{ x <- take; emit x }`
fn passing(alloc: Global) -> Result<Comp, AllocError> {
    let mut members = Items::new(alloc);
    members.push(Member::Bind(ident(alloc, X)?, Comp::Take(AT)))?;
    let x = Expr::Variable(ident(alloc, X)?);
    members.push(Member::Run(Comp::Emit(x, AT)))?;
    Ok(Comp::Block(members, AT))
}

// `repeat { x <- take; emit x }`
fn passing_all(alloc: Global) -> Result<Comp, AllocError> {
    Ok(Comp::Repeat(Boxed::new(alloc, passing(alloc)?)?, AT))
}

fn core(alloc: Global, instances: Items<Instance>, main: Comp) -> Core {
    Core {
        structs: Items::new(alloc),
        variables: Items::new(alloc),
        functions: Items::new(alloc),
        instances,
        main,
        input: int32(alloc),
        output: int32(alloc),
        value: None,
        at: AT,
    }
}

fn made(alloc: Global, core: &Core) -> Result<Option<Program>, AllocError> {
    match names_of(alloc, core)? {
        None => Ok(None),
        Some(mut names) => Program::of(alloc, core, &mut names, 0),
    }
}

// An instruction as a letter and a number.
fn told(instruction: &Instruction) -> (char, u32) {
    match instruction {
        Instruction::Run(_) => ('r', 0),
        Instruction::Tick => ('t', 0),
        Instruction::Take(d) => ('T', *d),
        Instruction::Takes(..) => ('s', 0),
        Instruction::Give(Spot::Local(d), _) => ('G', *d),
        Instruction::Give(Spot::Top(d), _) => ('g', *d),
        Instruction::Gives(_) => ('s', 1),
        Instruction::Ahead(n) => ('a', *n),
        Instruction::Again(n) => ('A', *n),
        Instruction::Branch(_, _, n) => ('b', *n),
        Instruction::Turn(_, n) => ('u', *n),
        Instruction::Enter(place, _) => ('E', *place),
        Instruction::Leave => ('L', 0),
        Instruction::Pipe(joint) => ('P', joint.get().right),
        Instruction::Stop => ('S', 0),
    }
}

fn all_told(alloc: Global, code: &[Instruction]) -> Result<Vec<(char, u32)>, AllocError> {
    let mut made = Vec::new(alloc);
    for instruction in code {
        made.push(told(instruction))?;
    }
    Ok(made)
}

#[test]
fn elements_pass_one_by_one(rt: HostRuntime) -> Result<(), Fail> {
    let alloc = rt.alloc();
    let core = core(alloc, Items::new(alloc), passing_all(alloc)?);
    let Some(program) = made(alloc, &core)? else {
        return Err(Fail::from(AllocError));
    };
    let code = all_told(alloc, program.code.as_slice())?;
    let wanted = [
        ('t', 0),
        ('T', 0),
        ('t', 0),
        ('r', 0),
        ('t', 0),
        ('G', 0),
        ('A', 6),
        ('S', 0),
    ];
    assert_eq!(rt; code.as_slice(), &wanted[..]);
    assert_eq!(rt; program.place, 0);
    assert_eq!(rt; program.needs, 2);
    assert_eq!(rt; program.depth, 0);
    Ok(())
}

#[test]
fn instances_stand_before_the_main_component(rt: HostRuntime) -> Result<(), Fail> {
    let alloc = rt.alloc();
    let mut instances = Items::new(alloc);
    instances.push(Instance {
        declaration: 0,
        input: int32(alloc),
        params: Items::new(alloc),
        body: passing(alloc)?,
        emits: Some(int32(alloc)),
        value: None,
    })?;
    let call = Comp::Call(ident(alloc, 2)?, 0, Items::new(alloc));
    let core = core(alloc, instances, call);
    let Some(program) = made(alloc, &core)? else {
        return Err(Fail::from(AllocError));
    };
    let code = all_told(alloc, program.code.as_slice())?;
    let wanted = [
        ('T', 0),
        ('t', 0),
        ('r', 0),
        ('t', 0),
        ('G', 0),
        ('L', 0),
        ('r', 0),
        ('t', 0),
        ('E', 0),
        ('S', 0),
    ];
    assert_eq!(rt; code.as_slice(), &wanted[..]);
    assert_eq!(rt; program.place, 6);
    assert_eq!(rt; program.depth, 1);
    Ok(())
}

#[test]
fn a_composition_has_the_code_of_both_sides(rt: HostRuntime) -> Result<(), Fail> {
    let alloc = rt.alloc();
    let left = Boxed::new(alloc, passing(alloc)?)?;
    let right = Boxed::new(alloc, passing(alloc)?)?;
    let pipe = Comp::Pipe(Link::Serial, left, right, AT);
    let core = core(alloc, Items::new(alloc), pipe);
    let Some(program) = made(alloc, &core)? else {
        return Err(Fail::from(AllocError));
    };
    let code = all_told(alloc, program.code.as_slice())?;
    let wanted = [
        ('P', 6),
        ('T', 0),
        ('t', 0),
        ('r', 0),
        ('t', 0),
        ('G', 0),
        ('S', 0),
        ('T', 0),
        ('t', 0),
        ('r', 0),
        ('t', 0),
        ('G', 0),
        ('S', 0),
        ('S', 0),
    ];
    assert_eq!(rt; code.as_slice(), &wanted[..]);
    let split = match program.layout {
        Layout::Split(..) => true,
        Layout::Flat => false,
    };
    assert_eq!(rt; split, true);
    Ok(())
}

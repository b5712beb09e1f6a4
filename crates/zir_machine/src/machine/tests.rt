ghost use Rattle.std.specs.Prelude.{◌≡◌, [], None};

use crate::machine::Machine;
use sqlite_items::{Boxed, Items};
use std::alloc::{AllocError, Global};
use std::test::Fail;
use zir_bit_tree::tree::{Comp, Expr, Member};
use zir_chunk::Chunk;
use zir_steps::answer::Answer;
use zir_steps::worker::Worker;
use zir_tree::ends::Stamp;
use zir_tree::ident::Ident;
use zir_tree::name::Name;
use zir_tree::place::Place;

const HERE: Place = Place { line: 1, col: 1 };

fn x(alloc: Global) -> Result<Ident, AllocError> {
    Ok(Ident {
        name: Name::from_slice(alloc, b"x")?,
        id: 1,
        at: HERE,
    })
}

// repeat { emit '1 }
fn ones(alloc: Global) -> Result<Comp, AllocError> {
    let mut members = Items::new(alloc);
    members.push(Member {
        bound: None,
        what: Comp::Emit(Expr::Bit(true, HERE), HERE),
    })?;
    Ok(Comp::Repeat(Boxed::new(alloc, Comp::Block(members, HERE))?, HERE))
}

// repeat { x <- take; emit x ^ '1 }
fn flips(alloc: Global) -> Result<Comp, AllocError> {
    let left = Boxed::new(alloc, Expr::Variable(x(alloc)?))?;
    let right = Boxed::new(alloc, Expr::Bit(true, HERE))?;
    let mut members = Items::new(alloc);
    members.push(Member {
        bound: Some(x(alloc)?),
        what: Comp::Take(HERE),
    })?;
    members.push(Member {
        bound: None,
        what: Comp::Emit(Expr::Xor(left, right, HERE), HERE),
    })?;
    Ok(Comp::Repeat(Boxed::new(alloc, Comp::Block(members, HERE))?, HERE))
}

// repeat { emit '1 } >>> repeat { x <- take; emit x ^ '1 }
fn both(alloc: Global) -> Result<Comp, AllocError> {
    let left = Boxed::new(alloc, ones(alloc)?)?;
    let right = Boxed::new(alloc, flips(alloc)?)?;
    Ok(Comp::Pipe(left, right, HERE))
}

fn at(taken: u64, ticks: u64) -> Stamp {
    Stamp { taken, ticks }
}

// Two bits, as of a producer that gives the first at 10 ticks and the second at 20.
fn elements(alloc: Global) -> Result<Chunk, AllocError> {
    let mut chunk = Chunk::open(alloc)?;
    chunk.push(
        &[1],
        Stamp {
            taken: 3,
            ticks: 10,
        },
    );
    chunk.push(
        &[0],
        Stamp {
            taken: 4,
            ticks: 20,
        },
    );
    Ok(chunk)
}

// Works until these elements are used up or there is no room for an output.
fn run(m: &mut Machine, input: &Chunk, out: &mut Chunk) -> Result<Answer, AllocError>
    requires may { ⟦<Machine as Worker>⟧.last m.old ≡ None }
    requires size { out.old.size ≡ 1 }
    requires empty { out.old.elements ≡ [] }
{
    let mut i = 0;
    let mut answer = m.tick()?;
    'events: for _ in 0..1000 {
        match answer {
            Answer::Yield if out.room() => {
                m.take_out(out);
                answer = m.tick()?;
            }
            Answer::Skip => answer = m.tick()?,
            Answer::Need if i < input.len() => {
                answer = m.process(input, i)?;
                i += 1;
            }
            _ => return Ok(answer),
        }
    }
    Ok(answer)
}

// Where a component starts, its ticks, and what it then comes to.
#[derive(Clone, Copy)]
struct Row {
    start: u32,
    limit: u32,
    answer: Answer,
    outputs: usize,
    end: Stamp,
}

// Whether a component comes to that.
fn comes_to(alloc: Global, c: Comp, row: Row) -> Result<bool, AllocError> {
    let mut m = Machine::open(alloc, &c)?;
    m.reset(row.start as u64, row.limit as u64)?;
    let input = elements(alloc)?;
    let mut out = Chunk::open(alloc)?;
    let answer = run(&mut m, &input, &mut out)?;
    let ends = match m.end() {
        Some((_, stamp)) => stamp == row.end,
        None => false,
    };
    Ok(ends && answer == row.answer && out.len() == row.outputs)
}

#[test]
fn counts_the_ticks_of_both_sides(rt: HostRuntime) -> Result<(), Fail> {
    let alloc = rt.alloc();
    let spent = Row {
        start: 7,
        limit: 5,
        answer: Answer::Stopped,
        outputs: 2,
        end: at(7, 4),
    };
    let starved = Row {
        start: 0,
        limit: 100,
        answer: Answer::Need,
        outputs: 2,
        end: at(4, 27),
    };
    let cut = Row {
        start: 0,
        limit: 25,
        answer: Answer::Stopped,
        outputs: 1,
        end: at(3, 13),
    };
    let piped = Row {
        start: 7,
        limit: 14,
        answer: Answer::Stopped,
        outputs: 2,
        end: at(7, 10),
    };
    assert!(rt; comes_to(alloc, ones(alloc)?, spent)?);
    assert!(rt; comes_to(alloc, flips(alloc)?, starved)?);
    assert!(rt; comes_to(alloc, flips(alloc)?, cut)?);
    assert!(rt; comes_to(alloc, both(alloc)?, piped)?);
    Ok(())
}

// A program that is opened for its evaluation.

use std::alloc::{AllocError, AllocFailed, Global};
use zir_accept::{Accepted, accept};
use zir_compile::made::{Made, Written};
use zir_compile::scope::Names;
use zir_eval::initials::initials_of;
use zir_eval::opening::names_of;
use zir_tree::comp::Comp;
use zir_tree::program::Core;
use zir_tree::refusal::Refusal;
use zir_tree::stmt::Return;
use zir_tree::types::Ty;

/// Why there is no run.
#[derive(Clone, Copy, Debug)]
pub enum Fault {
    Words,
    Text,
    Refused,
    NoDo,
    Large,
    Memory,
    Output,
}

impl From<AllocError> for Fault {
    fn from(_error: AllocError) -> Fault {
        Fault::Memory
    }
}

impl<T: Drop> From<AllocFailed<T>> for Fault {
    fn from(_error: AllocFailed<T>) -> Fault {
        Fault::Memory
    }
}

impl Fault {
    /// What is told of it.
    pub fn text(self) -> &'static str {
        match self {
            Fault::Words => "the words are not FILE TICKS",
            Fault::Text => "the text cannot be loaded",
            Fault::Refused => "the program is refused",
            Fault::NoDo => "the main component is no do",
            Fault::Large => "32 bits do not hold the numbers of its code",
            Fault::Memory => "memory ran out",
            Fault::Output => "the output failed",
        }
    }
}

/// What is in scope at the top of a program, the code of its initial values and of the body of its main component, how many
/// cells these use, and how many cells its value has.
#[derive(Drop)]
pub struct Opened {
    pub names: Names,
    pub initial: Written,
    pub body: Written,
    pub value: Option<Made>,
    pub room: u32,
    pub cells: u64,
}

/// Opens the program that a text is.
pub fn open(alloc: Global, text: &[u8]) -> Result<Opened, Fault> {
    let verdict = accept(alloc, text);
    let opened = open_judged(alloc, &verdict);
    drop(verdict);
    opened
}

/// Opens a program with the verdict on it.
fn open_judged(alloc: Global, verdict: &Result<Accepted, Refusal>) -> Result<Opened, Fault> {
    match verdict {
        Ok(accepted) => open_core(alloc, &accepted.core),
        Err(Refusal::Memory) => Err(Fault::Memory),
        Err(_) => Err(Fault::Refused),
    }
}

/// Opens a program that is accepted.
fn open_core(alloc: Global, core: &Core) -> Result<Opened, Fault> {
    let Comp::Do(content, _) = &core.main else {
        return Err(Fault::NoDo);
    };
    let Some(mut names) = names_of(alloc, core)? else {
        return Err(Fault::Large);
    };
    let Some(initial) = initials_of(alloc, core, &names)? else {
        return Err(Fault::Large);
    };
    let Some(body) = names.statements(alloc, content.statements.as_slice(), 0)? else {
        return Err(Fault::Large);
    };
    let value = value_of(alloc, &names, &content.result, body.free)?;
    let room = initial.peak.max(body.peak).max(peak_of(&value));
    let cells = cells_of(&names, &core.value);
    Ok(Opened {
        names,
        initial,
        body,
        value,
        room,
        cells,
    })
}

/// The code of the value of a body, if it has one, whose cells from d on are free.
fn value_of(
    alloc: Global,
    names: &Names,
    returned: &Option<Return>,
    d: u32,
) -> Result<Option<Made>, Fault> {
    match returned {
        None => Ok(None),
        Some(r) => match names.code(alloc, &r.value, d)? {
            None => Err(Fault::Large),
            Some(made) => Ok(Some(made)),
        },
    }
}

/// The first cell behind all that the code of a value uses.
fn peak_of(value: &Option<Made>) -> u32 {
    match value {
        None => 0,
        Some(made) => made.peak,
    }
}

/// How many cells a value of this type has; none where there is none.
fn cells_of(names: &Names, ty: &Option<Ty>) -> u64 {
    match ty {
        None => 0,
        Some(ty) => names.structs.cells(ty),
    }
}

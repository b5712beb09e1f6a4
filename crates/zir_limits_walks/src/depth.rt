// How deep calls are.

ghost use Rattle.std.specs.Prelude.{◌≡◌, min, suc, replicate, slice_index, IfOk};
ghost use Rattle.zir_limits_walks.specs.Depths.{entered, raised, raised_at, functions_entered, instances_entered, deep_in};

use crate::found::Measured;
use sqlite_items::Items;
use std::alloc::{AllocError, Global};
use zir_limits::notes::{Call, Target, marked};
use zir_tree::place::Place;

/// How many calls the longest chain that ends with a call of each function and each instance has, as far as its callers are
/// known, with 17 for every greater number, and the first call that makes the 17th of a chain.
#[derive(Drop)]
pub struct Levels {
    pub functions: Items<u64>,
    pub instances: Items<u64>,
    pub deep: Option<Place>,
}

/// How many calls a chain has behind so many, with 17 for every greater number.
fn behind(calls: u64) -> u64
    ensures { result ≡ min (suc calls) 17 }
{
    if calls < 17 { calls + 1 } else { 17 }
}

/// The number at a place is at least this.
fn raise_at(levels: &mut Items<u64>, place: u32, calls: u64)
    ensures { levels.new ≡ raised_at calls place levels.old }
{
    let place = place as usize;
    if place < levels.len() && levels.as_slice()[place] < calls {
        levels.set(place, calls);
    }
}

/// A call that ends a chain of so many.
fn raise(levels: &mut Levels, calls: u64, call: Call)
    ensures { levels.new ≡ raised calls call levels.old }
{
    let deep = marked(calls > 16, call.at, levels.deep);
    levels.deep = deep;
    match call.target {
        Target::Function(k) => raise_at(&mut levels.functions, k, calls),
        Target::Instance(k) => raise_at(&mut levels.instances, k, calls),
    }
}

/// The calls of a body, each of which ends a chain of so many.
fn enter(levels: &mut Levels, calls: u64, list: &[Call])
    ensures { levels.new ≡ entered calls list.now levels.old }
{
    for call in list {
        raise(levels, calls, *call);
    }
}

/// The number at a place, and 0 past the end.
fn level_at(levels: &[u64], place: usize) -> u64
    ensures { result ≡ slice_index levels.now place }
{
    if place < levels.len() {
        levels[place]
    } else {
        0
    }
}

/// The calls of functions, the last function first, so that each stands before all that it calls.
fn enter_functions(levels: &mut Levels, bodies: &[Items<Call>])
    ensures { levels.new ≡ functions_entered 0 bodies.now levels.old }
{
    for k in (0..bodies.len()).rev() {
        let calls = behind(level_at(levels.functions.as_slice(), k));
        enter(levels, calls, bodies[k].as_slice());
    }
}

/// The calls of instances, the last instance first.
fn enter_instances(levels: &mut Levels, bodies: &[Items<Call>])
    ensures { levels.new ≡ instances_entered 0 bodies.now levels.old }
{
    for k in (0..bodies.len()).rev() {
        let calls = behind(level_at(levels.instances.as_slice(), k));
        enter(levels, calls, bodies[k].as_slice());
    }
}

/// So many noughts.
fn noughts(alloc: Global, count: usize) -> Result<Items<u64>, AllocError>
    ensures { IfOk result (λ levels. levels ≡ replicate count 0) }
{
    let mut levels = Vec::new(alloc);
    levels.resize(count, 0)?;
    Ok(Items::from_vec(levels))
}

/// The first call that makes the 17th of a chain, among the calls of a core.
pub fn first_deep(alloc: Global, measured: &Measured) -> Result<Option<Place>, AllocError>
    ensures { IfOk result (λ deep. deep ≡ deep_in measured.now) }
{
    let mut levels = Levels {
        functions: noughts(alloc, measured.functions.len())?,
        instances: noughts(alloc, measured.instances.len())?,
        deep: None,
    };
    enter(&mut levels, 1, measured.main.as_slice());
    enter(&mut levels, 1, measured.variables.as_slice());
    enter_instances(&mut levels, measured.instances.as_slice());
    enter_functions(&mut levels, measured.functions.as_slice());
    Ok(levels.deep)
}

// What every part of a core sees besides its variables, and the needs of calls that are known.

ghost use Rattle.std.specs.Prelude.{◌≡◌, ◌++◌, ◌∷◌, [], slice_index, OnOk};
ghost use Rattle.zir_limits.specs.Facts.{told};

use std::alloc::{AllocError, Global};
use zir_tree::program::{Function, Instance};
use zir_types::scope::Shape;

/// The structs, the functions and the instances of a core, and the needs of calls that are known so far, each by its place.
#[derive(Drop)]
pub struct Facts<'a> {
    pub shapes: Vec<Shape>,
    pub functions: &'a [Function],
    pub instances: &'a [Instance],
    pub function_needs: Vec<u64>,
    pub instance_needs: Vec<u64>,
}

impl<'a> Facts<'a> {
    /// These structs, functions and instances, with no need known.
    pub fn new(
        alloc: Global,
        shapes: Vec<Shape>,
        functions: &'a [Function],
        instances: &'a [Instance],
    ) -> Facts<'a>
        ensures { told result ≡ record { shapes = shapes.items; functions = functions.now; instances = instances.now; function_needs = []; instance_needs = [] } }
    {
        Facts {
            shapes,
            functions,
            instances,
            function_needs: Vec::new(alloc),
            instance_needs: Vec::new(alloc),
        }
    }

    /// The structs.
    pub fn shapes(&self) -> &[Shape]
        ensures { result.now ≡ (told self.now).shapes }
    {
        self.shapes.as_slice()
    }

    /// The functions.
    pub fn functions(&self) -> &'a [Function]
        ensures { result.now ≡ (told self.now).functions }
    {
        self.functions
    }

    /// The instances.
    pub fn instances(&self) -> &'a [Instance]
        ensures { result.now ≡ (told self.now).instances }
    {
        self.instances
    }

    /// The need of a call of a function, by its place; 0 where it is not known.
    pub fn function_need(&self, place: u32) -> u64
        ensures { result ≡ slice_index (told self.now).function_needs place }
    {
        need_at(self.function_needs.as_slice(), place)
    }

    /// The need of a call of an instance, by its place; 0 where it is not known.
    pub fn instance_need(&self, place: u32) -> u64
        ensures { result ≡ slice_index (told self.now).instance_needs place }
    {
        need_at(self.instance_needs.as_slice(), place)
    }

    /// The need of a call of the next function.
    pub fn know_function(&mut self, need: u64) -> Result<(), AllocError>
        ensures { OnOk result (told self.new ≡ record (told self.old) { function_needs = (told self.old).function_needs ++ need ∷ [] }) }
    {
        self.function_needs.push(need)?;
        Ok(())
    }

    /// The need of a call of the next instance.
    pub fn know_instance(&mut self, need: u64) -> Result<(), AllocError>
        ensures { OnOk result (told self.new ≡ record (told self.old) { instance_needs = (told self.old).instance_needs ++ need ∷ [] }) }
    {
        self.instance_needs.push(need)?;
        Ok(())
    }
}

/// The need at a place, and 0 past the end.
fn need_at(needs: &[u64], place: u32) -> u64
    ensures { result ≡ slice_index needs.now place }
{
    let place = place as usize;
    if place < needs.len() { needs[place] } else { 0 }
}

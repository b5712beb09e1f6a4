// The instances that may be called.

use zir_assigned::assigned::Assigned;
use zir_stage::layout::Layout;
use zir_tree::types::Ty;

/// An instance as calls see it: the place of its code, the types of its outputs and of its value, the cells that its
/// body needs, how deep its calls go, and which memories its compositions ask for.
#[derive(Drop)]
pub struct Callee {
    pub place: u32,
    pub emits: Option<Ty>,
    pub value: Option<Ty>,
    pub needs: u32,
    pub depth: u32,
    pub layout: Layout,
}

/// The instances that may be called, in their order, and what functions and instances assign.
#[derive(Drop)]
pub struct Places {
    pub callees: Vec<Callee>,
    pub assigned: Assigned,
}

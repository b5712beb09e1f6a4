// What a walk through components finds.

use sqlite_items::Items;
use zir_limits::notes::{Call, Notes};
use zir_tree::types::Ty;

/// The types of a component, of what it emits and of its value where it is a computer, and how many cells it needs.
#[derive(Drop)]
pub struct Walked {
    pub emits: Option<Ty>,
    pub value: Option<Ty>,
    pub need: u64,
}

/// What is known of members one after the other: their types, the cells of their names, and the greatest need of one.
#[derive(Drop)]
pub struct Members {
    pub emits: Option<Ty>,
    pub value: Option<Ty>,
    pub cells: u64,
    pub most: u64,
}

/// What a body of a core calls, and how many cells a call of it needs.
#[derive(Drop)]
pub struct Visited {
    pub calls: Items<Call>,
    pub need: u64,
}

/// What the limits look at in a core: the first places, the calls of main, of the top variables, of each function and of
/// each instance, and the need of the program.
#[derive(Drop)]
pub struct Measured {
    pub notes: Notes,
    pub main: Items<Call>,
    pub variables: Items<Call>,
    pub functions: Items<Items<Call>>,
    pub instances: Items<Items<Call>>,
    pub need: u64,
}

/// What is noted of the structs and the top variables, and what the top variables call.
#[derive(Drop)]
pub struct Tops {
    pub notes: Notes,
    pub calls: Items<Call>,
}

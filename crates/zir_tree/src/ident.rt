// Names at their places.

use crate::name::Name;
use crate::place::Place;

/// A name as it is used or bound at a place, with the number of its declaration: 0 until names are resolved, and from 1
/// on afterwards.
#[derive(Debug, Drop)]
pub struct Ident {
    pub name: Name,
    pub id: u32,
    pub at: Place,
}

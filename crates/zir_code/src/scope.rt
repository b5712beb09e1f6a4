// What code finds in scope: variables with their cells, and functions with their code.

use sqlite_items::Items;
use zir_expr::frame::Spot;
use zir_expr::steps::Code;
use zir_shared::Shared;
use zir_tree::types::Ty;

/// A variable by the number of its declaration: the spot of its first cell, how many cells it has, and its type.
#[derive(Debug, Drop)]
pub struct Holder {
    pub id: u32,
    pub spot: Spot,
    pub cells: u32,
    pub ty: Ty,
}

/// A function, as calls see it: the types of its parameters and of its value, the cells that its body needs, and its code.
#[derive(Drop)]
pub struct Signature {
    pub params: Items<Ty>,
    pub result: Ty,
    pub needs: u32,
    pub code: Shared<Code>,
}

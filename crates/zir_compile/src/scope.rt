// What is in scope where code is made.

ghost use Rattle.std.specs.Prelude.{◌≡◌, None};
ghost use Rattle.std.specs.Option.{option_copied};
ghost use Rattle.zir_code.specs.Scopes as scopes;
ghost use Rattle.zir_compile.specs.Names.{scope_of, signature_at};

use crate::structs::Structs;
use sqlite_items::Items;
use zir_code::scope::{Holder, Signature};

/// The structs, the top variables, the names in scope inside the body whose code is made, and the functions before it,
/// each with its signature where calls of it have code.
#[derive(Drop)]
pub struct Names {
    pub structs: Structs,
    pub tops: Items<Holder>,
    pub locals: Vec<Holder>,
    pub functions: Vec<Option<Signature>>,
}

impl Names {
    /// The variable of this number.
    pub fn variable(&self, id: u32) -> Option<&Holder>
        ensures { option_copied result ≡ scopes.variable (scope_of self.now) id }
    {
        match find(self.locals.as_slice(), id) {
            Some(holder) => Some(holder),
            None => find(self.tops.as_slice(), id),
        }
    }

    /// The signature of the function at this place.
    pub fn signature(&self, k: u32) -> Option<&Signature>
        ensures { option_copied result ≡ signature_at self.now.functions.items k }
    {
        match self.functions.get(k as usize) {
            Some(Some(signature)) => Some(signature),
            Some(None) => None,
            None => None,
        }
    }
}

/// The first of these variables with this number.
fn find(holders: &[Holder], id: u32) -> Option<&Holder>
    ensures { option_copied result ≡ scopes.found_among None holders.now id }
{
    for holder in holders {
        if holder.id == id {
            return Some(holder);
        }
    }
    None
}

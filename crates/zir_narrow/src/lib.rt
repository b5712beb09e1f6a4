//! From an accepted program to the program over bits that it is, or to the first form of the text that nothing runs yet.
#![tactic(auto)]

pub mod narrow;

ghost use Rattle.zir_narrow.specs.Laws.{NarrowIsOver};

pub use narrow::{NarrowError, narrow_program};

/// What an accepted program is over bits is that program: it has no top variables, it reads and writes bits, its component
/// is the one that was made; and the component emits bits alone.
pub fn narrow_is_over()
    ensures { NarrowIsOver }
{}

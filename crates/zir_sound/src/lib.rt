//! What typing promises of a program that it accepts: every part of the core has its type by rules without an order, and calls
//! go to what stands before them alone.
#![tactic(auto)]

ghost use Rattle.zir_sound.specs.Laws.{CoresAreSound, NamesAreOwn};

/// The core that typing makes of a program is sound.
pub fn cores_are_sound()
    ensures { CoresAreSound }
{}

/// Where names are resolved each `fun comp` has a number of its own.
pub fn names_are_own()
    ensures { NamesAreOwn }
{}

//! Components as flat code: instructions that take and give elements between straight code, what they do, and that they do what the
//! components of a program mean.
#![tactic(auto)]

pub mod instruction;

ghost use Rattle.zir_flow.specs.Laws.{ComponentsPlay};

/// The code of a well typed component, with a stop behind it, plays what the component does in its program, wherever its instances have
/// their entries and the cells hold what is in scope: a stage that begins there comes to each output, each need of an element and the end
/// with their values, elements and ticks, whatever elements it has.
pub fn components_play()
    ensures { ComponentsPlay }
{}

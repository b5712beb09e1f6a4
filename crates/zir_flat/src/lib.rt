//! The flat code of a whole program, as a definition: its instances one after the other, and its main component behind them.
#![tactic(auto)]

ghost use Rattle.zir_flat.specs.Laws.{InstancesStand, ProgramsPlay};

/// The instances of a program have their entries, and their code stands at their places in the program's.
pub fn instances_stand()
    ensures { InstancesStand }
{}

/// A stage that begins at the main component of a well typed program plays what that component does in the program.
pub fn programs_play()
    ensures { ProgramsPlay }
{}

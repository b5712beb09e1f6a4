//! Sound cores as flat code: their instances and their main component are well typed for it, in as many cells as their code uses.
#![tactic(auto)]

ghost use Rattle.zir_typed_parts.specs.Laws.{CoresFlow};

/// The parts of a sound core are well typed for flat code.
pub fn cores_flow()
    ensures { CoresFlow }
{}

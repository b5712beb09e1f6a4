//! Plays an opened stage over a source of elements into a writer of samples, to its end.
#![tactic(auto)]

pub mod player;
#[cfg(test)]
mod tests;

ghost use Rattle.zir_play.specs.Laws.{PlaysPerform};

/// Whatever is watched of a component, a stage that plays a process performs it.
pub fn performs()
    ensures { PlaysPerform }
{}

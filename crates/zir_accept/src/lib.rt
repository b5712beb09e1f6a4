//! From a text to its typed program, or to the first reason why it is not accepted.
#![tactic(auto)]

ghost use Rattle.zir_accept.specs.Accepting.{HasOneVerdict};
ghost use Rattle.zir_accept.specs.Soundness.{AcceptedKeepRules};

mod passes;
mod variables;

pub use passes::{Accepted, accept, judge};
use zir_read::one_verdict as one_reading;
use zir_sound::{cores_are_sound, names_are_own};

/// A text is accepted as one typed program at most, and refused for one reason.
pub fn one_verdict()
    ensures { HasOneVerdict }
{
    one_reading();
}

/// A program that is accepted keeps all rules: its core is sound, the sides of its compositions keep apart, and it passes no
/// limit.
pub fn accepted_keep_rules()
    ensures { AcceptedKeepRules }
{
    cores_are_sound();
    names_are_own();
}

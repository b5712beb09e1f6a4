//! Laws of traces: what more elements and what more ticks make of them, what costs a tick, and what elements that come with points do.
#![tactic(auto)]

ghost use Rattle.zir_bit_laws.specs.Budgets.{Budgets};
ghost use Rattle.zir_bit_laws.specs.Costs.{Costs};
ghost use Rattle.zir_bit_laws.specs.Feed.{Feeds, FromInput};
ghost use Rattle.zir_bit_laws.specs.Prefixes.{Prefixes};

/// A trace that does not starve is the same when more elements follow, and one that starves goes on from there.
pub fn prefixes()
    ensures { Prefixes }
{}

/// A trace that is not spent is the same with more ticks, and a spent one goes on past its limit.
pub fn budgets()
    ensures { Budgets }
{}

/// Each element taken and each output costs a tick.
pub fn costs()
    ensures { Costs }
{}

/// The trace over elements that come with their points is what the component's process gives over them.
pub fn feeds()
    ensures { Feeds }
{}

/// Over the elements of an input, each given at no ticks, the trace is the component's own, but for the elements that it left.
pub fn from_input()
    ensures { FromInput }
{}

//! What programs over bits mean: evaluation, traces, composition, samples and runs. The definitions stand in specs/.
#![tactic(auto)]

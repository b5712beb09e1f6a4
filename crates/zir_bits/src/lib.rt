//! Programs over bits among programs of the whole language: their trees, and that both meanings are one.
#![tactic(auto)]

ghost use Rattle.zir_bits.specs.Answers.{SameAnswers};
ghost use Rattle.zir_bits.specs.Traces.{SameTraces};

/// In any program of the whole language, the trace of a component over bits is the one that it has among components over bits.
pub fn same_traces()
    ensures { SameTraces }
{}

/// A typed program of the whole language that is a program over bits, whose component emits bits alone, answers as that
/// program over bits does.
pub fn same_answers()
    ensures { SameAnswers }
{}

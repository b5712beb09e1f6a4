// What holds of the grammar and of what a parser answers.

ghost use Rattle.zir_grammar.specs.Claim.{HasOneProgram, HasOneAnswer};

/// Tokens are one program at most, whatever its height.
pub fn one_program()
    ensures { HasOneProgram }
{}

/// There is one answer to tokens, want of memory apart. So each answer comes exactly where `Answers` says.
pub fn one_answer()
    ensures { HasOneAnswer }
{}

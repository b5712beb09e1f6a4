// What holds of the canonical text.

ghost use Rattle.zir_text_laws.specs.Laws.{LexesBack};

/// Where some text spells a program, its canonical text has tokens, and their lexemes are the canonical ones.
pub fn lexes_back()
    ensures { LexesBack }
{}
